//! Tasks are turned in rounds, and gathered.
ghost use Rattle.flow_board.specs.Parts.{AllEntriesOf, AllExitsOf, AllTasksOf};

use crate::networks::gathered;
use flow_board::{Board, Parts, Task};
use flow_net::Net;
use flow_poll::TurnState;
use flow_value::Steps;
use std::alloc::{AllocError, Global};
use std::process::Abort;

/// As many tasks as there are.
pub(crate) const ALL: usize = usize::MAX;

/// Turns so many of these tasks once, leaves the others, and tells how that was for all together.
fn turn_each(
    alloc: Global,
    board: &Board<Steps>,
    tasks: &mut Vec<Task<Steps>>,
    count: usize,
    budget: u32,
) -> Result<TurnState, AllocError>
    requires of { AllTasksOf board.now tasks.old.items }
    ensures of { AllTasksOf board.now tasks.new.items }
{
    let mut state = TurnState::Ended;
    for place in 0..tasks.len() {
        if place >= count {
            break;
        }
        let turned = tasks[place].turn(alloc, board, budget)?;
        state = state.joint(turned.state);
    }
    Ok(state)
}

/// Turns so many of these tasks in rounds, until a round in which none moved, or as many as these, and leaves the others. Tells how the last
/// round was for all together.
pub(crate) fn turn(
    rt: &impl Abort,
    alloc: Global,
    board: &Board<Steps>,
    tasks: &mut Vec<Task<Steps>>,
    count: usize,
    budget: u32,
    rounds: usize,
) -> TurnState
    requires of { AllTasksOf board.now tasks.old.items }
    ensures of { AllTasksOf board.now tasks.new.items }
{
    for _ in 0..rounds {
        match turn_each(alloc, board, tasks, count, budget) {
            Ok(TurnState::Moved) => {}
            Ok(state) => return state,
            Err(_) => panic!(rt; "out of memory"),
        }
    }
    TurnState::Moved
}

/// The network of these parts, gathered once so many tasks were turned so, and how that was for all together.
pub(crate) fn turned(
    rt: &impl Abort,
    alloc: Global,
    parts: Parts<Steps>,
    count: usize,
    budget: u32,
    rounds: usize,
) -> (Net<Steps>, TurnState)
    requires tasks_of { AllTasksOf parts.board parts.tasks.items }
    requires entries_of { AllEntriesOf parts.board parts.entries.items }
    requires exits_of { AllExitsOf parts.board parts.exits.items }
{
    let mut parts = parts;
    let state = turn(
        rt,
        alloc,
        &parts.board,
        &mut parts.tasks,
        count,
        budget,
        rounds,
    );
    (gathered(rt, alloc, parts), state)
}
