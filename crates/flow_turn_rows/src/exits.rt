//! Networks with an exit are run: nothing is received there meanwhile, and all that is due comes out afterwards.
ghost use Rattle.std.specs.Prelude.{◌≤◌, ◌<◌};

use crate::networks::network;
use flow_board::OpenGate;
use flow_link::Outcome;
use flow_net::{Net, Settled};
use flow_pace::{Start, run_paced};
use flow_poll::{ReceivePort, Received};
use flow_value::{Steps, Value};
use std::alloc::Global;
use std::process::Abort;
use std::sync::Wait;
use std::thread::Threads;
use std::time::{Clock, CpuClock};

/// A buffer, and a transform whose results leave the network.
const LEADING_OUT: &str = "in* buffer, t transform(add 1) output true, in => t";

/// How many events an exit does at a look.
const STEPS: u64 = 64;

/// More events than a run has.
const ENOUGH: u64 = 10_000;

/// Asserts that nothing was received at the exit, and that the results and then the end come out there.
fn gives_all(rt: &impl Abort, alloc: Global, net: Net<Steps>) {
    let Ok(mut exit) = net.exit(1, STEPS) else {
        panic!(rt; "no exit");
    };
    assert!(rt; exit.received().is_empty());
    for due in [2, 3, 4] {
        let Ok(Received::Message(value)) = exit.try_receive(alloc) else {
            panic!(rt; "no message");
        };
        assert!(rt; value == Value::Int(due));
    }
    assert!(rt; matches!(exit.try_receive(alloc), Ok(Received::Ended(Outcome::Done))));
}

/// Asserts so of a run by so many workers.
fn is_run<R: Abort + Threads + Wait + Clock + CpuClock + Sync>(
    rt: &R,
    alloc: Global,
    workers: usize,
    start: Start,
)
    requires workers { (0 < workers) × (workers ≤ 64) }
{
    let net = network(rt, alloc, LEADING_OUT, "in=1 in=2 in=3");
    let ran = run_paced(rt, alloc, net, workers, &OpenGate, start, ENOUGH);
    let Ok((net, Settled::Quiet)) = ran else {
        panic!(rt; "the run does not end");
    };
    gives_all(rt, alloc, net);
}

#[test]
fn what_waits_at_an_exit_stays_there(rt: HostRuntime) {
    let alloc = rt.alloc();
    is_run(&rt, alloc, 1, Start::WhileLong);
    is_run(&rt, alloc, 2, Start::WhileLong);
    is_run(&rt, alloc, 2, Start::AtOnce);
    is_run(&rt, alloc, 8, Start::AtOnce);
}
