//! Networks on a board: scattered, turned, and gathered.
ghost use Rattle.std.specs.Prelude.{◌≡◌, IfOk};
ghost use Rattle.flow_board.specs.Parts.{AllEntriesOf, AllExitsOf, AllTasksOf, board_of};

use crate::again::{Stop, again, refused, wrong};
use crate::networks::{BOTH, ENOUGH, Example, fresh, is_reported, marks};
use flow_board::{Board, GatherFault, OpenGate, Parts, Scattered, Task, gather, scatter};
use flow_crew::{RunFault, run_workers, turn_round};
use flow_net::{Net, Settled};
use flow_poll::TurnState;
use flow_value::Steps;
use std::alloc::Global;
use std::sync::Wait;
use std::thread::Threads;
use std::time::Clock;

fn scatter_all(rt: &impl Print, alloc: Global, net: Net<Steps>) -> Result<Scattered<Steps>, Stop>
    ensures tasks_of { IfOk result (λ all. AllTasksOf all.board all.tasks.items) }
    ensures entries_of { IfOk result (λ all. AllEntriesOf all.board all.entries.items) }
    ensures exits_of { IfOk result (λ all. AllExitsOf all.board all.exits.items) }
{
    let before = marks(&net);
    again!(rt, "scatter", scatter(alloc, net), only (net, _) => marks(&net) == before)
}

/// The parts of a network.
pub(crate) fn scattered(
    rt: &impl Print,
    alloc: Global,
    net: Net<Steps>,
) -> Result<Parts<Steps>, Stop>
    ensures tasks_of { IfOk result (λ parts. AllTasksOf parts.board parts.tasks.items) }
    ensures entries_of { IfOk result (λ parts. AllEntriesOf parts.board parts.entries.items) }
    ensures exits_of { IfOk result (λ parts. AllExitsOf parts.board parts.exits.items) }
{
    let (parts, _) = scatter_all(rt, alloc, net)?.into_parts();
    Ok(parts)
}

/// How many tasks, entries and exits there are.
fn counts(parts: &Parts<Steps>) -> (usize, usize, usize) {
    (parts.tasks.len(), parts.entries.len(), parts.exits.len())
}

/// The network of these parts.
pub(crate) fn gathered(
    rt: &impl Print,
    alloc: Global,
    parts: Parts<Steps>,
) -> Result<Net<Steps>, Stop>
    requires tasks_of { AllTasksOf parts.board parts.tasks.items }
    requires entries_of { AllEntriesOf parts.board parts.entries.items }
    requires exits_of { AllExitsOf parts.board parts.exits.items }
{
    let before = counts(&parts);
    again!(rt, "gather", gather(alloc, parts), (parts, GatherFault::Memory) => counts(&parts) == before)
}

/// Turns the task once, with one event, and tells how that was.
fn turn(
    rt: &impl Print,
    alloc: Global,
    board: &Board<Steps>,
    task: &mut Task<Steps>,
) -> Result<TurnState, Stop>
    requires of { board_of task.old ≡ board.now }
    ensures of { board_of task.new ≡ board_of task.old }
{
    let before = task.journal().len();
    match task.turn(alloc, board, 1) {
        Ok(turned) => Ok(turned.state),
        Err(_) => {
            refused(rt, "Task::turn", task.journal().len() == before);
            turn_again(alloc, board, task)
        }
    }
}

fn turn_again(
    alloc: Global,
    board: &Board<Steps>,
    task: &mut Task<Steps>,
) -> Result<TurnState, Stop>
    requires of { board_of task.old ≡ board.now }
    ensures of { board_of task.new ≡ board_of task.old }
{
    let turned = task.turn(alloc, board, 1)?;
    Ok(turned.state)
}

/// Turns each task once, with one event, and tells how that was for all together.
fn turn_each(
    rt: &impl Print,
    alloc: Global,
    board: &Board<Steps>,
    tasks: &mut Vec<Task<Steps>>,
) -> Result<TurnState, Stop>
    requires of { AllTasksOf board.now tasks.old.items }
    ensures of { AllTasksOf board.now tasks.new.items }
{
    let mut state = TurnState::Ended;
    for place in 0..tasks.len() {
        let turned = turn(rt, alloc, board, &mut tasks[place])?;
        state = state.joint(turned);
    }
    Ok(state)
}

/// Turns all tasks, one event each, until none moves.
pub(crate) fn turn_all(
    rt: &impl Print,
    alloc: Global,
    board: &Board<Steps>,
    tasks: &mut Vec<Task<Steps>>,
) -> Result<(), Stop>
    requires of { AllTasksOf board.now tasks.old.items }
    ensures of { AllTasksOf board.now tasks.new.items }
{
    for _ in 0..ENOUGH {
        match turn_each(rt, alloc, board, tasks)? {
            TurnState::Moved => {}
            TurnState::Idle | TurnState::Ended => return Ok(()),
        }
    }
    Err(wrong(rt, "Task::turn"))
}

/// The example's network comes to its end by single turns.
fn turn_through(rt: &impl Print, alloc: Global, example: Example) -> Result<(), Stop> {
    let net = fresh(rt, alloc, example)?;
    let mut parts = scattered(rt, alloc, net)?;
    let turned = turn_all(rt, alloc, &parts.board, &mut parts.tasks);
    let net = gathered(rt, alloc, parts)?;
    turned?;
    is_reported(rt, alloc, &net, Settled::Quiet, example)
}

/// Tasks are turned by the thread that calls.
pub(crate) fn turns(rt: &impl Print, alloc: Global) -> Result<(), Stop> {
    for example in BOTH {
        turn_through(rt, alloc, example)?;
    }
    Ok(())
}

/// How many marks the journals of the tasks have, together.
fn marks_of(tasks: &[Task<Steps>]) -> usize {
    let mut count = 0usize;
    for task in tasks {
        count = count.saturating_add(task.journal().len());
    }
    count
}

/// Two workers turn the tasks, by at most so many events as a round has here; and how many they did.
fn round<R: Print + Threads + Wait + Clock + Sync>(
    rt: &R,
    alloc: Global,
    board: &Board<Steps>,
    tasks: Vec<Task<Steps>>,
) -> Result<(Vec<Task<Steps>>, u64), Stop>
    requires of { AllTasksOf board.now tasks.items }
    ensures of { IfOk result (λ done. AllTasksOf board.now done.0.items) }
{
    let (count, marks) = (tasks.len(), marks_of(&tasks));
    again!(rt, "turn_round", turn_round(rt, alloc, board, tasks, 2, &OpenGate, 20), only (tasks, _) =>
        tasks.len() == count && marks_of(&tasks) >= marks)
}

/// Two workers turn the tasks in rounds, until a round does nothing.
fn turn_rounds<R: Print + Threads + Wait + Clock + Sync>(
    rt: &R,
    alloc: Global,
    board: &Board<Steps>,
    tasks: Vec<Task<Steps>>,
) -> Result<Vec<Task<Steps>>, Stop>
    requires of { AllTasksOf board.now tasks.items }
    ensures of { IfOk result (λ tasks. AllTasksOf board.now tasks.items) }
{
    let mut tasks = tasks;
    for _ in 0..ENOUGH {
        let (back, events) = round(rt, alloc, board, tasks)?;
        tasks = back;
        if events == 0 {
            return Ok(tasks);
        }
    }
    Err(wrong(rt, "turn_round"))
}

/// A network comes to its end in rounds.
pub(crate) fn rounds<R: Print + Threads + Wait + Clock + Sync>(
    rt: &R,
    alloc: Global,
) -> Result<(), Stop> {
    let example = Example::ParseThree;
    let net = fresh(rt, alloc, example)?;
    let Parts {
        board,
        tasks,
        entries,
        exits,
    } = scattered(rt, alloc, net)?;
    let tasks = turn_rounds(rt, alloc, &board, tasks)?;
    let parts = Parts {
        board,
        tasks,
        entries,
        exits,
    };
    let net = gathered(rt, alloc, parts)?;
    is_reported(rt, alloc, &net, Settled::Quiet, example)
}

/// Two workers run the network, and once more where memory is refused.
fn run<R: Print + Threads + Wait + Clock + Sync>(
    rt: &R,
    alloc: Global,
    net: Net<Steps>,
) -> Result<(Net<Steps>, Settled), Stop> {
    let net = match run_workers(rt, alloc, net, 2, &OpenGate, ENOUGH) {
        Ok(ran) => return Ok(ran),
        Err(RunFault::Net(net)) => net,
        Err(RunFault::Parts(parts)) => gathered(rt, alloc, parts)?,
        Err(RunFault::Ids(_)) => return Err(wrong(rt, "run_workers")),
    };
    refused(rt, "run_workers", net.plan().block_count() > 2);
    match run_workers(rt, alloc, net, 2, &OpenGate, ENOUGH) {
        Ok(ran) => Ok(ran),
        Err(_) => Err(Stop::Memory),
    }
}

/// The networks are run by two workers.
pub(crate) fn crews<R: Print + Threads + Wait + Clock + Sync>(
    rt: &R,
    alloc: Global,
) -> Result<(), Stop> {
    for example in BOTH {
        let net = fresh(rt, alloc, example)?;
        let (net, settled) = run(rt, alloc, net)?;
        is_reported(rt, alloc, &net, settled, example)?;
    }
    Ok(())
}
