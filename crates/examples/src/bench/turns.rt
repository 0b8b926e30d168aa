//! The chain's tasks turned by one thread.
ghost use Rattle.flow_board.specs.Parts.{AllTasksOf};

use crate::bench::chain::{chain, in_turn};
use crate::bench::timed::Timed;
use anyhow::{Result, bail};
use flow_board::{Board, Task, gather, scatter};
use flow_poll::TurnState;
use flow_value::Steps;
use std::alloc::{AllocError, Global};
use std::time::{Clock, Duration, Instant};

/// How many events a task does in a turn, at most.
const BUDGET: u32 = 64;

/// Sends so many numbers through the chain, all of whose tasks one thread turns.
pub(crate) fn by_one_thread<R: Clock>(rt: &R, alloc: Global, count: u32) -> Result<Timed> {
    let Ok(scattered) = scatter(alloc, chain(alloc, count)?) else {
        bail!("out of memory");
    };
    let (mut parts, _) = scattered.into_parts();
    let taken = turn_all(rt, alloc, &parts.board, &mut parts.tasks);
    match gather(alloc, parts) {
        Ok(net) => Ok(Timed {
            in_turn: in_turn(&net),
            taken: taken?,
        }),
        Err(_) => bail!("the parts are not gathered"),
    }
}

/// Turns all tasks in rounds, until one in which none moves: how long that takes.
fn turn_all<R: Clock>(
    rt: &R,
    alloc: Global,
    board: &Board<Steps>,
    tasks: &mut Vec<Task<Steps>>,
) -> Result<Duration>
    requires of { AllTasksOf board.now tasks.old.items }
    ensures of { AllTasksOf board.now tasks.new.items }
{
    let begun = Instant::now(rt)?;
    for _ in 0..u64::MAX {
        match turn_each(alloc, board, tasks)? {
            TurnState::Moved => {}
            TurnState::Idle | TurnState::Ended => break,
        }
    }
    Ok(begun.elapsed(rt)?)
}

/// Turns each task once: how that was for all together.
fn turn_each(
    alloc: Global,
    board: &Board<Steps>,
    tasks: &mut Vec<Task<Steps>>,
) -> Result<TurnState, AllocError>
    requires of { AllTasksOf board.now tasks.old.items }
    ensures of { AllTasksOf board.now tasks.new.items }
{
    let mut state = TurnState::Ended;
    for place in 0..tasks.len() {
        let turned = tasks[place].turn(alloc, board, BUDGET)?;
        state = state.joint(turned.state);
    }
    Ok(state)
}
