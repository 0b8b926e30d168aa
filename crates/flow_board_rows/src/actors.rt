//! The tasks of a network as actors, each at its board.
ghost use Rattle.flow_board.specs.At.{AllAt};
ghost use Rattle.flow_board.specs.Parts.{AllTasksOf};

use crate::networks::{CHAIN, NUMBERS, gathered, journal, scattered};
use crate::told::{has_recorded, is_done};
use flow_board::{Board, Parts, Task, TaskAt};
use flow_poll::{Crew, TurnState};
use flow_value::Steps;
use futures::executor::block_on;
use std::alloc::{AllocGlobal, Global};
use std::process::Abort;
use std::random::RandomSource;
use std::sync::Wait;

/// These tasks, each at its board.
fn at_board<'b>(
    rt: &impl Abort,
    alloc: Global,
    board: &'b Board<Steps>,
    tasks: Vec<Task<Steps>>,
) -> Vec<TaskAt<'b, Steps>>
    requires of { AllTasksOf board.now tasks.items }
    ensures at { AllAt board.now result.items }
{
    let mut all = Vec::new(alloc);
    for task in tasks {
        let Ok(()) = all.push(TaskAt::new(board, task)) else {
            panic!(rt; "out of memory");
        };
    }
    all
}

/// The tasks of these.
fn tasks_of(
    rt: &impl Abort,
    alloc: Global,
    board: &Board<Steps>,
    all: Vec<TaskAt<'_, Steps>>,
) -> Vec<Task<Steps>>
    requires at { AllAt board.now all.items }
    ensures of { AllTasksOf board.now result.items }
{
    let _ = board;
    let mut tasks = Vec::new(alloc);
    for at in all {
        let Ok(()) = tasks.push(at.into_task()) else {
            panic!(rt; "out of memory");
        };
    }
    tasks
}

/// Drives tasks as a crew, until all have ended.
fn crew_ended(
    rt: &(impl Abort + Wait + RandomSource + AllocGlobal),
    alloc: Global,
    board: &Board<Steps>,
    tasks: Vec<Task<Steps>>,
) -> Vec<Task<Steps>>
    requires of { AllTasksOf board.now tasks.items }
    ensures of { AllTasksOf board.now result.items }
{
    let all = at_board(rt, alloc, board, tasks);
    let Ok((all, state)) = block_on(rt, Crew::new(alloc, all, 2, 100)) else {
        panic!(rt; "not driven");
    };
    assert!(rt; matches!(state, Ok(TurnState::Ended)));
    tasks_of(rt, alloc, board, all)
}

#[test]
fn tasks_at_their_board_end_and_are_gathered(rt: HostRuntime) {
    let alloc = rt.alloc();
    let Parts {
        board,
        tasks,
        entries,
        exits,
    } = scattered(&rt, alloc, CHAIN, NUMBERS);
    let tasks = crew_ended(&rt, alloc, &board, tasks);
    let parts = Parts {
        board,
        tasks,
        entries,
        exits,
    };
    let net = gathered(&rt, alloc, parts);
    is_done(&rt, journal(&rt, &net, "in"), &[1, 2, 3], &[1, 2, 3]);
    is_done(&rt, journal(&rt, &net, "double"), &[1, 2, 3], &[2, 4, 6]);
    has_recorded(&rt, &net);
}
