//! The entry and the exit of a buffer on a board.
ghost use Rattle.std.specs.Prelude.{◌≡◌};
ghost use Rattle.flow_board.specs.Parts.{AllEntriesOf, AllExitsOf, AllTasksOf, entry_board, exit_board};

use crate::again::{Stop, again, check, wrong};
use crate::boards::{gathered, scattered, turn_all};
use crate::networks::marks;
use crate::ports::{buffer, is_number};
use flow_board::{Board, Entry, Exit, Task};
use flow_poll::{Received, SendFault, Sent};
use flow_value::{Steps, Value};
use std::alloc::Global;

/// The number that is posted; another is sent.
const POSTED: i64 = 1;

fn post(
    rt: &impl Print,
    alloc: Global,
    board: &Board<Steps>,
    entry: &mut Entry<Steps>,
    number: i64,
) -> Result<(), Stop>
    requires of { entry_board entry.old ≡ board.now }
    ensures of { entry_board entry.new ≡ entry_board entry.old }
{
    let value = Value::Int(number);
    let told = entry.accepted().len();
    again!(rt, "Entry::begin_post", entry.begin_post(alloc, board, value), (value, SendFault::Memory) =>
        is_number(&value, number) && entry.accepted().len() == told)
}

fn send(
    rt: &impl Print,
    alloc: Global,
    board: &Board<Steps>,
    entry: &mut Entry<Steps>,
    number: i64,
) -> Result<(), Stop>
    requires of { entry_board entry.old ≡ board.now }
    ensures of { entry_board entry.new ≡ entry_board entry.old }
{
    let value = Value::Int(number);
    let told = entry.accepted().len();
    again!(rt, "Entry::begin_send", entry.begin_send(alloc, board, value), (value, SendFault::Memory) =>
        is_number(&value, number) && entry.accepted().len() == told)
}

/// The first entry begins a number.
fn begin(
    rt: &impl Print,
    alloc: Global,
    board: &Board<Steps>,
    entries: &mut Vec<Entry<Steps>>,
    number: i64,
) -> Result<(), Stop>
    requires of { AllEntriesOf board.now entries.old.items }
    ensures of { AllEntriesOf board.now entries.new.items }
{
    let Some(entry) = entries.first_mut() else {
        return Err(wrong(rt, "scatter"));
    };
    if number == POSTED {
        post(rt, alloc, board, entry, number)
    } else {
        send(rt, alloc, board, entry, number)
    }
}

/// Whether the first entry tells that its number is accepted.
fn is_accepted(board: &Board<Steps>, entries: &mut Vec<Entry<Steps>>) -> bool
    requires of { AllEntriesOf board.now entries.old.items }
    ensures of { AllEntriesOf board.now entries.new.items }
{
    let Some(entry) = entries.first_mut() else {
        return false;
    };
    matches!(entry.look(board), Sent::Accepted)
}

fn available(
    rt: &impl Print,
    alloc: Global,
    board: &Board<Steps>,
    exit: &mut Exit<Steps>,
) -> Result<Option<bool>, Stop>
    requires of { exit_board exit.old ≡ board.now }
    ensures of { exit_board exit.new ≡ exit_board exit.old }
{
    let came = exit.received().len();
    again!(rt, "Exit::available", exit.available(alloc, board), only _ => exit.received().len() == came)
}

fn try_receive(
    rt: &impl Print,
    alloc: Global,
    board: &Board<Steps>,
    exit: &mut Exit<Steps>,
) -> Result<Received, Stop>
    requires of { exit_board exit.old ≡ board.now }
    ensures of { exit_board exit.new ≡ exit_board exit.old }
{
    let came = exit.received().len();
    again!(rt, "Exit::try_receive", exit.try_receive(alloc, board), only _ => exit.received().len() == came)
}

/// Whether a number comes out of the first exit; the exit may want it first.
fn has_come(
    rt: &impl Print,
    alloc: Global,
    board: &Board<Steps>,
    exits: &mut Vec<Exit<Steps>>,
) -> Result<bool, Stop>
    requires of { AllExitsOf board.now exits.old.items }
    ensures of { AllExitsOf board.now exits.new.items }
{
    let Some(exit) = exits.first_mut() else {
        return Err(wrong(rt, "scatter"));
    };
    available(rt, alloc, board, exit)?;
    let received = try_receive(rt, alloc, board, exit)?;
    Ok(matches!(received, Received::Message(_)))
}

/// A number goes in, through the buffer, and out.
fn pass(
    rt: &impl Print,
    alloc: Global,
    board: &Board<Steps>,
    tasks: &mut Vec<Task<Steps>>,
    entries: &mut Vec<Entry<Steps>>,
    exits: &mut Vec<Exit<Steps>>,
    number: i64,
) -> Result<(), Stop>
    requires tasks_of { AllTasksOf board.now tasks.old.items }
    requires entries_of { AllEntriesOf board.now entries.old.items }
    requires exits_of { AllExitsOf board.now exits.old.items }
    ensures tasks_of { AllTasksOf board.now tasks.new.items }
    ensures entries_of { AllEntriesOf board.now entries.new.items }
    ensures exits_of { AllExitsOf board.now exits.new.items }
{
    begin(rt, alloc, board, entries, number)?;
    let (mut accepted, mut come) = (false, false);
    for _ in 0..6 {
        turn_all(rt, alloc, board, tasks)?;
        let is_told = is_accepted(board, entries);
        let is_there = has_come(rt, alloc, board, exits)?;
        accepted = accepted || is_told;
        come = come || is_there;
    }
    check(rt, "Entry::look", accepted);
    check(rt, "Exit::try_receive", come);
    Ok(())
}

/// A number goes through a buffer on a board.
fn through(rt: &impl Print, alloc: Global, number: i64) -> Result<(), Stop> {
    let mut parts = scattered(rt, alloc, buffer(rt, alloc)?)?;
    let passed = pass(
        rt,
        alloc,
        &parts.board,
        &mut parts.tasks,
        &mut parts.entries,
        &mut parts.exits,
        number,
    );
    let net = gathered(rt, alloc, parts)?;
    passed?;
    check(rt, "gather", marks(&net) == 2);
    Ok(())
}

/// One number is posted, another sent.
pub(crate) fn on_board(rt: &impl Print, alloc: Global) -> Result<(), Stop> {
    through(rt, alloc, POSTED)?;
    through(rt, alloc, 2)
}
