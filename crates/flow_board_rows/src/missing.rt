//! Parts that are kept back when the others are gathered: each by itself, and each two.
ghost use Rattle.std.specs.Prelude.{◌≡◌};
ghost use Rattle.flow_board.specs.Parts.{AllEntriesOf, AllExitsOf, AllTasksOf};

use crate::networks::{EACH_POSTED, EACH_SORT, READS, TEXTS, gathered, journal, scattered, settle};
use crate::offers::has_read;
use crate::rounds::{ALL, turn};
use flow_board::{Board, Entry, Exit, GatherFault, Parts, Task, gather};
use flow_link::Mark;
use flow_net::Net;
use flow_value::Steps;
use std::alloc::Global;
use std::process::Abort;

/// How many of the parts are tasks. The others are the entry and the exit.
const TASKS: usize = 6;

const ENTRY: usize = 6;

const EXIT: usize = 7;

/// How many parts there are.
const PARTS: usize = 8;

/// Asserts that parts are not gathered since the one with this number is missing, and gives them back.
fn refused(rt: &impl Abort, alloc: Global, parts: Parts<Steps>, number: usize) -> Parts<Steps>
    requires tasks_of { AllTasksOf parts.board parts.tasks.items }
    requires entries_of { AllEntriesOf parts.board parts.entries.items }
    requires exits_of { AllExitsOf parts.board parts.exits.items }
    ensures board { result.board ≡ parts.board }
    ensures tasks_of { AllTasksOf parts.board result.tasks.items }
    ensures entries_of { AllEntriesOf parts.board result.entries.items }
    ensures exits_of { AllExitsOf parts.board result.exits.items }
{
    let there = (parts.tasks.len(), parts.entries.len(), parts.exits.len());
    let Err((parts, fault)) = gather(alloc, parts) else {
        panic!(rt; "parts are gathered though one is missing");
    };
    assert!(rt; fault == GatherFault::Missing(number));
    assert!(rt; fault.number() == Some(1));
    assert!(rt; (parts.tasks.len(), parts.entries.len(), parts.exits.len()) == there);
    parts
}

/// Takes the task at this place out, if there is one, and gives it alone.
fn keep_task(
    rt: &impl Abort,
    alloc: Global,
    board: &Board<Steps>,
    tasks: &mut Vec<Task<Steps>>,
    place: usize,
) -> Vec<Task<Steps>>
    requires of { AllTasksOf board.now tasks.old.items }
    ensures of { AllTasksOf board.now tasks.new.items }
    ensures kept_of { AllTasksOf board.now result.items }
{
    let _ = board;
    if place >= tasks.len() {
        return Vec::new(alloc);
    }
    let Ok(mut kept) = tasks.split_off(place) else {
        panic!(rt; "out of memory");
    };
    let Ok(mut others) = kept.split_off(1) else {
        panic!(rt; "out of memory");
    };
    let Ok(()) = tasks.append(&mut others) else {
        panic!(rt; "out of memory");
    };
    kept
}

/// The entries that are not kept back, and those that are: all of them or none.
fn keep_entries(
    alloc: Global,
    board: &Board<Steps>,
    entries: Vec<Entry<Steps>>,
    are_kept: bool,
) -> (Vec<Entry<Steps>>, Vec<Entry<Steps>>)
    requires of { AllEntriesOf board.now entries.items }
    ensures of { AllEntriesOf board.now result.0.items }
    ensures kept_of { AllEntriesOf board.now result.1.items }
{
    let _ = board;
    if are_kept {
        (Vec::new(alloc), entries)
    } else {
        (entries, Vec::new(alloc))
    }
}

/// The same of exits.
fn keep_exits(
    alloc: Global,
    board: &Board<Steps>,
    exits: Vec<Exit<Steps>>,
    are_kept: bool,
) -> (Vec<Exit<Steps>>, Vec<Exit<Steps>>)
    requires of { AllExitsOf board.now exits.items }
    ensures of { AllExitsOf board.now result.0.items }
    ensures kept_of { AllExitsOf board.now result.1.items }
{
    let _ = board;
    if are_kept {
        (Vec::new(alloc), exits)
    } else {
        (exits, Vec::new(alloc))
    }
}

/// Asserts that parts without these two, or without the one where they are the same, are not gathered, since the first is missing. Gathers
/// them once those are back.
fn are_missing(
    rt: &impl Abort,
    alloc: Global,
    parts: Parts<Steps>,
    first: usize,
    second: usize,
) -> Net<Steps>
    requires tasks_of { AllTasksOf parts.board parts.tasks.items }
    requires entries_of { AllEntriesOf parts.board parts.entries.items }
    requires exits_of { AllExitsOf parts.board parts.exits.items }
{
    let Parts {
        board,
        mut tasks,
        entries,
        exits,
    } = parts;
    let mut later = keep_task(rt, alloc, &board, &mut tasks, second);
    let other = if first == second { PARTS } else { first };
    let mut sooner = keep_task(rt, alloc, &board, &mut tasks, other);
    let is_entry = first == ENTRY || second == ENTRY;
    let (entries, mut kept_entries) = keep_entries(alloc, &board, entries, is_entry);
    let (exits, mut kept_exits) = keep_exits(alloc, &board, exits, second == EXIT);
    let parts = Parts {
        board,
        tasks,
        entries,
        exits,
    };
    let mut parts = refused(rt, alloc, parts, first);
    let Ok(()) = parts.tasks.append(&mut later) else {
        panic!(rt; "out of memory");
    };
    let Ok(()) = parts.tasks.append(&mut sooner) else {
        panic!(rt; "out of memory");
    };
    let Ok(()) = parts.entries.append(&mut kept_entries) else {
        panic!(rt; "out of memory");
    };
    let Ok(()) = parts.exits.append(&mut kept_exits) else {
        panic!(rt; "out of memory");
    };
    gathered(rt, alloc, parts)
}

/// Asserts so in the middle of a run whose parts are of each sort.
fn are_missing_midway(rt: &impl Abort, alloc: Global, first: usize, second: usize) {
    let mut parts = scattered(rt, alloc, EACH_SORT, EACH_POSTED);
    assert!(rt; parts.tasks.len() == TASKS && parts.entries.len() == 1 && parts.exits.len() == 1);
    turn(rt, alloc, &parts.board, &mut parts.tasks, ALL, 1, 8);
    let mut net = are_missing(rt, alloc, parts, first, second);
    settle(rt, alloc, &mut net);
    assert!(rt; net.plan().block_count() == 3);
    let (left, more) = net.left(2);
    assert!(rt; left.len().saturating_add(more.len()) == 2);
}

#[test]
fn parts_that_are_kept_back_are_missing(rt: HostRuntime) {
    for pair in 0..PARTS * PARTS {
        let (first, second) = (pair / PARTS, pair % PARTS);
        if first <= second {
            are_missing_midway(&rt, rt.alloc(), first, second);
        }
    }
}

// Nothing has happened yet in this network, and it has tasks alone.
#[test]
fn the_second_task_is_missing(rt: HostRuntime) {
    let alloc = rt.alloc();
    let parts = scattered(&rt, alloc, READS, TEXTS);
    assert!(rt; parts.tasks.len() == 4 && parts.entries.is_empty() && parts.exits.is_empty());
    let mut net = are_missing(&rt, alloc, parts, 1, 1);
    settle(&rt, alloc, &mut net);
    has_read(&rt, &net);
    for name in ["in", "t", "out"] {
        assert!(rt; matches!(journal(&rt, &net, name).last(), Some(Mark::Done)));
    }
}
