//! A network whose work is long is run at its pace: by one thread at first, and then by a crew.
ghost use Rattle.std.specs.Prelude.{◌≤◌, ◌<◌};

use crate::networks::settle_singly;
use crate::numbers::{are_done, has_recorded, with_numbers};
use flow_board::OpenGate;
use flow_front::record_of;
use flow_net::{Net, Settled};
use flow_pace::{Start, run_paced};
use flow_value::Steps;
use std::alloc::Global;
use std::process::Abort;
use std::sync::Wait;
use std::thread::Threads;
use std::time::{Clock, CpuClock};

/// How many numbers are posted.
const COUNT: u32 = 100;

/// A broadcast of numbers to two actions. One copies each number a hundred thousand times, in two lanes, and records nothing; the other
/// records them.
const COPYING: &str =
    "in* buffer, both broadcast, slow action(int+repeat 1000+repeat 10+repeat 10+repeat 0) lanes 2, out action(int), in => both, both => slow, both => out";

/// That network, of which nothing has happened.
fn started(rt: &impl Abort, alloc: Global) -> Net<Steps> {
    with_numbers(rt, alloc, COPYING, COUNT)
}

/// The network, run by so many workers for at most so many events, and how far it came.
fn run<R: Abort + Threads + Wait + Clock + CpuClock + Sync>(
    rt: &R,
    alloc: Global,
    workers: usize,
    limit: u64,
) -> (Net<Steps>, Settled)
    requires workers { (0 < workers) × (workers ≤ 64) }
{
    let net = started(rt, alloc);
    let Ok(ran) = run_paced(rt, alloc, net, workers, &OpenGate, Start::WhileLong, limit) else {
        panic!(rt; "out of memory");
    };
    ran
}

/// Asserts that so many workers do all events within as many as there are, and are stopped where one less may be done.
fn ends_within<R: Abort + Threads + Wait + Clock + CpuClock + Sync>(
    rt: &R,
    alloc: Global,
    workers: usize,
    all: u64,
)
    requires workers { (0 < workers) × (workers ≤ 64) }
{
    let (net, settled) = run(rt, alloc, workers, all);
    assert!(rt; settled == Settled::Quiet);
    has_recorded(rt, &net, 1, 100);
    assert!(rt; matches!(record_of(&net, "slow"), Some([])));
    are_done(rt, &net, &["in", "both", "slow", "out"]);
    let (_, settled) = run(rt, alloc, workers, all.saturating_sub(1));
    assert!(rt; settled == Settled::Stopped);
}

#[test]
fn long_work_is_done_within_the_limit(rt: HostRuntime) {
    let alloc = rt.alloc();
    let all = settle_singly(&rt, alloc, &mut started(&rt, alloc));
    ends_within(&rt, alloc, 1, all);
    ends_within(&rt, alloc, 2, all);
    ends_within(&rt, alloc, 8, all);
}
