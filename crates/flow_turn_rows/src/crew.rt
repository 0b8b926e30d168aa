//! A crew turns the tasks of a network in rounds.
ghost use Rattle.std.specs.Prelude.{◌≤◌, ◌<◌};
ghost use Rattle.flow_board.specs.Parts.{AllTasksOf};

use flow_board::{Board, Gate, Parts, Task, gather, scatter};
use flow_crew::turn_round;
use flow_net::Net;
use flow_value::Steps;
use std::alloc::Global;
use std::process::Abort;
use std::sync::Wait;
use std::sync::atomic::{AtomicBool, Ordering};
use std::thread::Threads;
use std::time::Clock;

/// More rounds than any of these networks needs.
const ROUNDS: u32 = 1_000;

/// Turns the tasks in rounds of at most so many events, until one that did none or until this is set, and tells how many events were done.
fn turn_by_crew<R: Abort + Threads + Wait + Clock + Sync, G: Gate + Sync>(
    rt: &R,
    alloc: Global,
    board: &Board<Steps>,
    tasks: Vec<Task<Steps>>,
    workers: usize,
    gate: &G,
    budget: u64,
    over: &AtomicBool,
) -> (Vec<Task<Steps>>, u64)
    requires workers { (0 < workers) × (workers ≤ 64) }
    requires of { AllTasksOf board.now tasks.items }
    ensures of { AllTasksOf board.now result.0.items }
{
    let mut tasks = tasks;
    let mut all = 0u64;
    for _ in 0..ROUNDS {
        let Ok((back, events)) = turn_round(rt, alloc, board, tasks, workers, gate, budget) else {
            panic!(rt; "out of memory");
        };
        tasks = back;
        all = all.saturating_add(events);
        if events == 0 || over.load(Ordering::SeqCst) {
            return (tasks, all);
        }
    }
    panic!(rt; "some task moves for ever")
}

/// The network, turned by so many workers in rounds of at most so many events, until no task moves or this is set, and gathered; and how
/// many events that took.
pub(crate) fn turned_by_crew<R: Abort + Threads + Wait + Clock + Sync, G: Gate + Sync>(
    rt: &R,
    alloc: Global,
    net: Net<Steps>,
    workers: usize,
    gate: &G,
    budget: u64,
    over: &AtomicBool,
) -> (Net<Steps>, u64)
    requires workers { (0 < workers) × (workers ≤ 64) }
{
    let Ok(scattered) = scatter(alloc, net) else {
        panic!(rt; "out of memory");
    };
    let (parts, _) = scattered.into_parts();
    let Parts {
        board,
        tasks,
        entries,
        exits,
    } = parts;
    let (tasks, events) = turn_by_crew(rt, alloc, &board, tasks, workers, gate, budget, over);
    let parts = Parts {
        board,
        tasks,
        entries,
        exits,
    };
    let Ok(net) = gather(alloc, parts) else {
        panic!(rt; "the parts are not gathered");
    };
    (net, events)
}
