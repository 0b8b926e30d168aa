//! A network is run by so many workers, until nothing may happen any more or the limit is reached.
ghost use Rattle.std.specs.Prelude.{◌≤◌, ◌<◌};

use crate::ends::has_ended;
use crate::midway::parse_three;
use crate::networks::{case_of, network_of};
use flow_board::OpenGate;
use flow_crew::run_workers;
use flow_net::{Net, Settled};
use flow_value::Steps;
use std::alloc::Global;
use std::process::Abort;
use std::sync::Wait;
use std::thread::Threads;
use std::time::Clock;

/// How many events the run of three numbers has in all.
const ALL: u64 = 69;

/// The same run, one event before its end: all but the last line of its report. The action has yet to say that it is done.
const BEFORE_ITS_END: &str = r#"parse three, before the last event
in* buffer, t transform(int), out action(), in => t, t => out
in,1 in,2 in,3
3 block in done ; input [] ; port 0 ["1","2","3"] ; held 0 [] ; link 0 ["1","2","3"] ; left [] ; block t done ; port 0 ["1","2","3"] ; held 0 [] ; link 1 [1,2,3] ; left [] ; block out completing ; port 0 [1,2,3] ; held 0 [] ; record [1,2,3]"#;

/// The network, run by so many workers for at most so many events, and how far it came.
fn run<R: Abort + Threads + Wait + Clock + Sync>(
    rt: &R,
    alloc: Global,
    workers: usize,
    limit: u64,
) -> (Net<Steps>, Settled)
    requires workers { (0 < workers) × (workers ≤ 64) }
{
    let net = network_of(rt, alloc, &parse_three(rt));
    let Ok(ran) = run_workers(rt, alloc, net, workers, &OpenGate, limit) else {
        panic!(rt; "out of memory");
    };
    ran
}

/// Asserts that nothing was done in a network.
fn is_untouched(rt: &impl Abort, net: &Net<Steps>) {
    for block in 0..net.plan().block_count() {
        assert!(rt; net.journal(block).is_empty());
    }
}

/// Asserts that so many workers do nothing where nothing may be done, stop one event before the end, and end where all may be done.
fn keep_to_limits<R: Abort + Threads + Wait + Clock + Sync>(rt: &R, alloc: Global, workers: usize)
    requires workers { (0 < workers) × (workers ≤ 64) }
{
    let (net, settled) = run(rt, alloc, workers, 0);
    assert!(rt; settled == Settled::Stopped);
    is_untouched(rt, &net);
    let (net, settled) = run(rt, alloc, workers, ALL - 1);
    assert!(rt; settled == Settled::Stopped);
    assert!(rt; case_of(rt, BEFORE_ITS_END).is_met(alloc, &net));
    let (net, settled) = run(rt, alloc, workers, ALL);
    assert!(rt; settled == Settled::Quiet);
    has_ended(rt, alloc, &net, &parse_three(rt));
}

#[test]
fn workers_keep_to_their_limits(rt: HostRuntime) {
    let alloc = rt.alloc();
    keep_to_limits(&rt, alloc, 1);
    keep_to_limits(&rt, alloc, 2);
    keep_to_limits(&rt, alloc, 8);
}
