//! However many workers turn the tasks, the network comes to the record that settling gives it.
ghost use Rattle.std.specs.Prelude.{◌≤◌, ◌<◌};

use crate::crew::turned_by_crew;
use crate::networks::settle_singly;
use crate::numbers::with_numbers;
use flow_board::OpenGate;
use flow_front::record_of;
use flow_net::{Net, Settled};
use flow_value::{Steps, Value};
use std::alloc::Global;
use std::process::Abort;
use std::sync::Wait;
use std::sync::atomic::AtomicBool;
use std::thread::Threads;
use std::time::Clock;

/// How many numbers are posted.
const POSTED: u32 = 40;

/// Two transforms in a chain, the second of which has room for two messages.
const CHAIN: &str =
    "in* buffer, double transform(int+mul 2), more transform(add 1) capacity 2, out action(), in => double, double => more, more => out";

/// The network of the chain, to which 1 to 40 are posted.
fn started(rt: &impl Abort, alloc: Global) -> Net<Steps> {
    with_numbers(rt, alloc, CHAIN, POSTED)
}

/// The network, turned by so many workers in rounds of at most so many events, and how many events that took.
fn turned<R: Abort + Threads + Wait + Clock + Sync>(
    rt: &R,
    alloc: Global,
    workers: usize,
    budget: u64,
) -> (Net<Steps>, u64)
    requires workers { (0 < workers) × (workers ≤ 64) }
{
    let over = AtomicBool::new(false);
    turned_by_crew(
        rt,
        alloc,
        started(rt, alloc),
        workers,
        &OpenGate,
        budget,
        &over,
    )
}

/// The network, settled by one owner, and how many events that took.
fn settled(rt: &impl Abort, alloc: Global) -> (Net<Steps>, u64) {
    let mut net = started(rt, alloc);
    let events = settle_singly(rt, alloc, &mut net);
    (net, events)
}

/// What the action has recorded.
fn record<'a>(rt: &impl Abort, net: &'a Net<Steps>) -> &'a [Value] {
    let Some(recorded) = record_of(net, "out") else {
        panic!(rt; "no block");
    };
    recorded
}

/// Asserts that so many workers bring the network to the record that settling gives it.
fn records_the_same<R: Abort + Threads + Wait + Clock + Sync>(
    rt: &R,
    alloc: Global,
    workers: usize,
    budget: u64,
)
    requires workers { (0 < workers) × (workers ≤ 64) }
{
    let (mut net, _) = turned(rt, alloc, workers, budget);
    assert!(rt; matches!(net.settle(alloc, 0), Ok(Settled::Quiet)));
    let (same, _) = settled(rt, alloc);
    assert!(rt; record(rt, &net).len() == 40);
    assert!(rt; record(rt, &net) == record(rt, &same));
}

#[test]
fn workers_record_the_same(rt: HostRuntime) {
    let alloc = rt.alloc();
    records_the_same(&rt, alloc, 1, 1_000_000);
    records_the_same(&rt, alloc, 2, 1_000_000);
    records_the_same(&rt, alloc, 4, 1_000_000);
    records_the_same(&rt, alloc, 64, 1_000_000);
    records_the_same(&rt, alloc, 2, 10);
}

#[test]
fn a_round_without_budget_does_nothing(rt: HostRuntime) {
    let (net, events) = turned(&rt, rt.alloc(), 2, 0);
    assert!(rt; events == 0);
    assert!(rt; record(&rt, &net).is_empty());
}

#[test]
fn one_worker_counts_as_settling(rt: HostRuntime) {
    let (_, events) = turned(&rt, rt.alloc(), 1, 1_000_000);
    let (_, same) = settled(&rt, rt.alloc());
    assert!(rt; events == same);
}
