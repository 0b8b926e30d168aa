//! Tasks are turned by two threads, each of which has one half of them.
ghost use Rattle.flow_board.specs.Parts.{AllTasksOf};

use crate::rounds::{Pace, turn_in_rounds};
use flow_board::{Board, Task, boards_are_shared, tasks_cross};
use flow_value::Steps;
use std::alloc::{AllocError, Global};
use std::hint::spin_loop;
use std::process::Abort;
use std::sync::atomic::{AtomicU64, Ordering};
use std::thread::{Threads, join_mut};

/// How often a thread looks whether the other has begun.
const LOOKS: u32 = 10_000;

/// Waits until two threads have come here, but not for long, so that neither is through before the other begins.
fn meet(come: &AtomicU64) {
    come.fetch_add(1, Ordering::SeqCst);
    for _ in 0..LOOKS {
        if come.load(Ordering::SeqCst) >= 2 {
            return;
        }
        spin_loop();
    }
}

/// Turns some tasks in one thread and others in another at once, and tells whether one of them moved.
fn turn_both(
    rt: &(impl Threads + Sync),
    alloc: Global,
    board: &Board<Steps>,
    first: &mut Vec<Task<Steps>>,
    second: &mut Vec<Task<Steps>>,
    pace: Pace,
) -> Result<bool, AllocError>
    requires first { AllTasksOf board.now first.old.items }
    requires second { AllTasksOf board.now second.old.items }
    ensures first { AllTasksOf board.now first.new.items }
    ensures second { AllTasksOf board.now second.new.items }
{
    tasks_cross::<Steps>();
    boards_are_shared::<Steps>();
    let come = AtomicU64::new(0);
    let meeting = &come;
    let (one, other) = join_mut(
        rt,
        &mut || -> Result<bool, AllocError>
            requires { AllTasksOf board.now first.now.items }
            ensures { AllTasksOf board.entry.now first.exit.now.items }
        {
            meet(meeting);
            turn_in_rounds(alloc, board, first, pace)
        },
        &mut || -> Result<bool, AllocError>
            requires { AllTasksOf board.now second.now.items }
            ensures { AllTasksOf board.entry.now second.exit.now.items }
        {
            meet(meeting);
            turn_in_rounds(alloc, board, second, pace)
        },
    );
    let one = one?;
    let other = other?;
    Ok(one || other)
}

/// The same again and again, until none of the tasks moves, or so many times.
fn turn_on(
    rt: &(impl Threads + Sync),
    alloc: Global,
    board: &Board<Steps>,
    first: &mut Vec<Task<Steps>>,
    second: &mut Vec<Task<Steps>>,
    pace: Pace,
    times: u32,
) -> Result<(), AllocError>
    requires first { AllTasksOf board.now first.old.items }
    requires second { AllTasksOf board.now second.old.items }
    ensures first { AllTasksOf board.now first.new.items }
    ensures second { AllTasksOf board.now second.new.items }
{
    for _ in 0..times {
        if !turn_both(rt, alloc, board, first, second, pace)? {
            break;
        }
    }
    Ok(())
}

/// Turns all tasks by two threads, each of which has one half of them, until none moves, or so many times.
pub(crate) fn turn_by_two(
    rt: &(impl Abort + Threads + Sync),
    alloc: Global,
    board: &Board<Steps>,
    tasks: Vec<Task<Steps>>,
    pace: Pace,
    times: u32,
) -> Vec<Task<Steps>>
    requires of { AllTasksOf board.now tasks.items }
    ensures of { AllTasksOf board.now result.items }
{
    let mut first = tasks;
    let Ok(mut second) = first.split_off(first.len() / 2) else {
        panic!(rt; "out of memory");
    };
    assert!(rt; turn_on(rt, alloc, board, &mut first, &mut second, pace, times).is_ok());
    let Ok(()) = first.append(&mut second) else {
        panic!(rt; "out of memory");
    };
    first
}
