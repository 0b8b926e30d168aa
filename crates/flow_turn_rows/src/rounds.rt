//! Tasks are turned in rounds.
ghost use Rattle.flow_board.specs.Parts.{AllTasksOf};

use flow_board::{Board, Task};
use flow_poll::TurnState;
use flow_value::Steps;
use std::alloc::{AllocError, Global};

/// How a thread turns its tasks.
#[derive(Clone, Copy)]
pub(crate) struct Pace {
    /// The most events of a task in a round.
    pub(crate) budget: u32,
    /// The most rounds.
    pub(crate) rounds: u32,
    /// After how many rounds without a move, one behind another, it stops.
    pub(crate) patience: u32,
}

/// Turns each task once, and tells how that was for all together.
pub(crate) fn turn_each(
    alloc: Global,
    board: &Board<Steps>,
    tasks: &mut Vec<Task<Steps>>,
    budget: u32,
) -> Result<TurnState, AllocError>
    requires of { AllTasksOf board.now tasks.old.items }
    ensures of { AllTasksOf board.now tasks.new.items }
{
    let mut state = TurnState::Ended;
    for place in 0..tasks.len() {
        let turned = tasks[place].turn(alloc, board, budget)?;
        state = state.joint(turned.state);
    }
    Ok(state)
}

/// Turns the tasks in rounds, and tells whether one of them moved.
pub(crate) fn turn_in_rounds(
    alloc: Global,
    board: &Board<Steps>,
    tasks: &mut Vec<Task<Steps>>,
    pace: Pace,
) -> Result<bool, AllocError>
    requires of { AllTasksOf board.now tasks.old.items }
    ensures of { AllTasksOf board.now tasks.new.items }
{
    let mut moved = false;
    let mut still = 0u32;
    for _ in 0..pace.rounds {
        if turn_each(alloc, board, tasks, pace.budget)? == TurnState::Moved {
            moved = true;
            still = 0;
        } else {
            still = still.saturating_add(1);
        }
        if still >= pace.patience {
            break;
        }
    }
    Ok(moved)
}

/// Turns the task whose turn it is where each has one turn after another, and lets it do one event.
fn turn_next(
    alloc: Global,
    board: &Board<Steps>,
    tasks: &mut Vec<Task<Steps>>,
    turn: usize,
) -> Result<(), AllocError>
    requires of { AllTasksOf board.now tasks.old.items }
    ensures of { AllTasksOf board.now tasks.new.items }
{
    let Some(place) = turn.checked_rem(tasks.len()) else {
        return Ok(());
    };
    tasks[place].turn(alloc, board, 1)?;
    Ok(())
}

/// Turns one task after another, round and round, so many times in all, and lets each do one event.
pub(crate) fn turn_singly(
    alloc: Global,
    board: &Board<Steps>,
    tasks: &mut Vec<Task<Steps>>,
    turns: usize,
) -> Result<(), AllocError>
    requires of { AllTasksOf board.now tasks.old.items }
    ensures of { AllTasksOf board.now tasks.new.items }
{
    for turn in 0..turns {
        turn_next(alloc, board, tasks, turn)?;
    }
    Ok(())
}

/// Turns one of these tasks after another, round and round, so many times in all, and lets each do one event.
pub(crate) fn turn_chosen(
    alloc: Global,
    board: &Board<Steps>,
    tasks: &mut Vec<Task<Steps>>,
    chosen: &[usize],
    turns: usize,
) -> Result<(), AllocError>
    requires of { AllTasksOf board.now tasks.old.items }
    ensures of { AllTasksOf board.now tasks.new.items }
{
    for turn in 0..turns {
        let Some(step) = turn.checked_rem(chosen.len()) else {
            return Ok(());
        };
        turn_next(alloc, board, tasks, chosen[step])?;
    }
    Ok(())
}
