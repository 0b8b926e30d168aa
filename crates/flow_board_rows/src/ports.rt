//! The entry and the exit of a network that has one of each.
ghost use Rattle.std.specs.Prelude.{◌≡◌};
ghost use Rattle.flow_board.specs.Parts.{AllEntriesOf, AllExitsOf, AllTasksOf, entry_board, exit_board};

use crate::rounds::{ALL, turn};
use flow_board::{Board, Entry, Exit, Task};
use flow_poll::{Received, Sent};
use flow_value::{Steps, Value};
use std::alloc::Global;
use std::process::Abort;

/// The only entry of these.
pub(crate) fn only_entry(
    rt: &impl Abort,
    board: &Board<Steps>,
    entries: Vec<Entry<Steps>>,
) -> Entry<Steps>
    requires of { AllEntriesOf board.now entries.items }
    ensures of { entry_board result ≡ board.now }
{
    let _ = board;
    let Some(entry) = entries.into_iter().next() else {
        panic!(rt; "no entry");
    };
    entry
}

/// This entry alone.
pub(crate) fn entry_alone(
    rt: &impl Abort,
    alloc: Global,
    board: &Board<Steps>,
    entry: Entry<Steps>,
) -> Vec<Entry<Steps>>
    requires of { entry_board entry ≡ board.now }
    ensures of { AllEntriesOf board.now result.items }
{
    let _ = board;
    let mut entries = Vec::new(alloc);
    let Ok(()) = entries.push(entry) else {
        panic!(rt; "out of memory");
    };
    entries
}

/// The only exit of these.
pub(crate) fn only_exit(
    rt: &impl Abort,
    board: &Board<Steps>,
    exits: Vec<Exit<Steps>>,
) -> Exit<Steps>
    requires of { AllExitsOf board.now exits.items }
    ensures of { exit_board result ≡ board.now }
{
    let _ = board;
    let Some(exit) = exits.into_iter().next() else {
        panic!(rt; "no exit");
    };
    exit
}

/// This exit alone.
pub(crate) fn exit_alone(
    rt: &impl Abort,
    alloc: Global,
    board: &Board<Steps>,
    exit: Exit<Steps>,
) -> Vec<Exit<Steps>>
    requires of { exit_board exit ≡ board.now }
    ensures of { AllExitsOf board.now result.items }
{
    let _ = board;
    let mut exits = Vec::new(alloc);
    let Ok(()) = exits.push(exit) else {
        panic!(rt; "out of memory");
    };
    exits
}

/// Looks at an entry, and has the tasks turned until something is told of the value under way, for at most ten rounds.
pub(crate) fn look(
    rt: &impl Abort,
    alloc: Global,
    board: &Board<Steps>,
    tasks: &mut Vec<Task<Steps>>,
    entry: &mut Entry<Steps>,
) -> Sent
    requires of { AllTasksOf board.now tasks.old.items }
    requires entry_of { entry_board entry.old ≡ board.now }
    ensures of { AllTasksOf board.now tasks.new.items }
    ensures entry_of { entry_board entry.new ≡ entry_board entry.old }
{
    for _ in 0..10 {
        let sent = entry.look(board);
        if !matches!(sent, Sent::Waiting) {
            return sent;
        }
        turn(rt, alloc, board, tasks, ALL, 64, 10);
    }
    Sent::Waiting
}

/// Begins to send a value, which may be put off, or to post it, and looks what becomes of it.
pub(crate) fn became(
    rt: &impl Abort,
    alloc: Global,
    board: &Board<Steps>,
    tasks: &mut Vec<Task<Steps>>,
    entry: &mut Entry<Steps>,
    value: Value,
    may_wait: bool,
) -> Sent
    requires of { AllTasksOf board.now tasks.old.items }
    requires entry_of { entry_board entry.old ≡ board.now }
    ensures of { AllTasksOf board.now tasks.new.items }
    ensures entry_of { entry_board entry.new ≡ entry_board entry.old }
{
    let begun = if may_wait {
        entry.begin_send(alloc, board, value)
    } else {
        entry.begin_post(alloc, board, value)
    };
    assert!(rt; begun.is_ok());
    look(rt, alloc, board, tasks, entry)
}

/// Receives at an exit, and has the tasks turned until something has come, for at most ten rounds.
pub(crate) fn receive(
    rt: &impl Abort,
    alloc: Global,
    board: &Board<Steps>,
    tasks: &mut Vec<Task<Steps>>,
    exit: &mut Exit<Steps>,
) -> Received
    requires of { AllTasksOf board.now tasks.old.items }
    requires exit_of { exit_board exit.old ≡ board.now }
    ensures of { AllTasksOf board.now tasks.new.items }
    ensures exit_of { exit_board exit.new ≡ exit_board exit.old }
{
    for _ in 0..10 {
        let Ok(received) = exit.try_receive(alloc, board) else {
            panic!(rt; "out of memory");
        };
        if !matches!(received, Received::Waiting) {
            return received;
        }
        turn(rt, alloc, board, tasks, ALL, 64, 10);
    }
    Received::Waiting
}
