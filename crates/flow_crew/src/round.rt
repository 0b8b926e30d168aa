//! A round: a crew turns all tasks of a board.
ghost use Rattle.std.specs.Prelude.{◌≡◌, ◌≤◌, ◌<◌, IfOk, IfErr, Some, reverse};
ghost use Rattle.flow_board.specs.Parts.{AllTasksOf};
ghost use Rattle.flow_crew.specs.Numbers.{SameNumbers, numbers};
ghost use Rattle.flow_crew.specs.Rounds.{AllIn, ComeBack};

use crate::bell::Bell;
use crate::crew::{Share, crew};
use crate::item::Round;
use crate::queue::{put_in, take_out};
use crate::rule::Queue;
use crate::shift::Hours;
use flow_board::{Board, Gate, Task};
use flow_value::Runs;
use std::alloc::{AllocError, Global};
use std::marker::Brand;
use std::sync::Wait;
use std::thread::Threads;
use std::time::Clock;

/// Turns all tasks of this round.
fn turn_in<
    W: Runs + Send + Sync,
    J: Round<W> + Send + Sync,
    R: Threads + Wait + Clock + Sync,
    G: Gate + Sync,
>(
    rt: &R,
    alloc: Global,
    board: &Board<W>,
    tasks: Vec<Task<W>>,
    workers: usize,
    gate: &G,
    hours: &Hours,
    budget: u64,
) -> Result<(Vec<Task<W>>, u64), (Vec<Task<W>>, AllocError)>
    requires workers { (0 < workers) × (workers ≤ 64) }
    requires board { J.board ≡ Some board.now }
    requires all { J.all ≡ reverse (numbers tasks.items) }
    requires in_round { AllIn J.board J.came tasks.items }
    ensures back { IfOk result (λ r. SameNumbers tasks.items r.0.items × AllIn J.board J.came r.0.items) }
    ensures within { IfOk result (λ r. r.1 ≤ budget) }
    ensures refused { IfErr result (λ r. SameNumbers tasks.items r.0.items × AllIn J.board J.came r.0.items) }
{
    let count = tasks.len();
    if count == 0 {
        return Ok((tasks, 0));
    }
    // twice the room, so that whoever puts a task back need not wait for another to be taken out of the same place
    let Ok((queue, mut pass)) = Queue::<W, J>::ruled(alloc, count * 2) else {
        return Err((tasks, AllocError));
    };
    let mut tasks = tasks;
    put_in(rt, &queue, &mut pass, &mut tasks);
    let bell = Bell::new();
    // no more than there are tasks for
    let workers = workers.min(count);
    let share = Share {
        chunk: (count - 1) / workers + 1,
        tasks: count,
        budget,
    };
    let (mut pass, done) = crew(
        rt, alloc, board, &queue, &bell, hours, pass, workers, share, gate,
    );
    take_out(rt, &queue, &mut pass, &mut tasks);
    if done.refused {
        return Err((tasks, AllocError));
    }
    Ok((tasks, done.events))
}

/// Turns the tasks of a board on so many threads, 1 to 64 but no more than there are tasks, until none moves or the budget is used, and
/// tells how many events were done: at most so many. Each task comes back once, in any order, and its journal goes on from where it was.
///
/// A round that did no event has found nothing to do, unless the budget is 0. A round that did some may end with events left to do: each
/// worker has a share of the budget, and ends when that is used. So call it again, until a round does none.
///
/// Errors: memory is out. All tasks come back then too, and the events that were done stay done.
///
/// Each job goes through the gate. Before it does a job of a lane, a worker puts back all other tasks that it holds, so whatever the gate
/// waits for may be done by the others.
///
/// It waits for its workers. A worker that finds nothing to do sleeps until another has moved a task, a millisecond at most at a time.
pub fn turn_round<W: Runs + Send + Sync, R: Threads + Wait + Clock + Sync, G: Gate + Sync>(
    rt: &R,
    alloc: Global,
    board: &Board<W>,
    tasks: Vec<Task<W>>,
    workers: usize,
    gate: &G,
    budget: u64,
) -> Result<(Vec<Task<W>>, u64), (Vec<Task<W>>, AllocError)>
    requires workers { (0 < workers) × (workers ≤ 64) }
    requires of { AllTasksOf board.now tasks.items }
    ensures back { IfOk result (λ r. ComeBack board.now tasks.items r.0.items) }
    ensures within { IfOk result (λ r. r.1 ≤ budget) }
    ensures refused { IfErr result (λ r. ComeBack board.now tasks.items r.0.items) }
{
    turn_for(
        rt,
        alloc,
        board,
        tasks,
        workers,
        gate,
        &Hours::begin(rt, None),
        budget,
    )
}

/// The same, until the hours are over.
pub(crate) fn turn_for<W: Runs + Send + Sync, R: Threads + Wait + Clock + Sync, G: Gate + Sync>(
    rt: &R,
    alloc: Global,
    board: &Board<W>,
    tasks: Vec<Task<W>>,
    workers: usize,
    gate: &G,
    hours: &Hours,
    budget: u64,
) -> Result<(Vec<Task<W>>, u64), (Vec<Task<W>>, AllocError)>
    requires workers { (0 < workers) × (workers ≤ 64) }
    requires of { AllTasksOf board.now tasks.items }
    ensures back { IfOk result (λ r. ComeBack board.now tasks.items r.0.items) }
    ensures within { IfOk result (λ r. r.1 ≤ budget) }
    ensures refused { IfErr result (λ r. ComeBack board.now tasks.items r.0.items) }
{
    turn_in::<W, Brand, R, G>(rt, alloc, board, tasks, workers, gate, hours, budget)
}
