//! What becomes of values at an entry, by its calls, while tasks are turned.
ghost use Rattle.std.specs.Prelude.{◌≡◌};
ghost use Rattle.flow_board.specs.Parts.{AllTasksOf, entry_board};

use crate::networks::{BUFFER, ONCE, READER, gathered, scattered, watched};
use crate::ports::{became, entry_alone, look, only_entry};
use flow_board::{Board, Entry, Parts, Task};
use flow_link::{Ending, Mark, Outcome, Phase};
use flow_net::Settled;
use flow_poll::{SendFault, Sent};
use flow_value::{Steps, Text, Value};
use std::alloc::Global;
use std::process::Abort;

#[test]
fn values_that_wait_when_it_is_scattered_are_told_in_turn(rt: HostRuntime) {
    let alloc = rt.alloc();
    let Parts {
        board,
        mut tasks,
        entries,
        exits,
    } = scattered(&rt, alloc, BUFFER, "b=1 b=2 b?");
    let mut entry = only_entry(&rt, &board, entries);
    let sent = look(&rt, alloc, &board, &mut tasks, &mut entry);
    assert!(rt; matches!(sent, Sent::Accepted));
    assert!(rt; matches!(entry.accepted(), [Value::Int(1)]));
    let sent = look(&rt, alloc, &board, &mut tasks, &mut entry);
    assert!(rt; matches!(sent, Sent::Accepted));
    assert!(rt; matches!(entry.look(&board), Sent::Idle));
    assert!(rt; matches!(entry.accepted(), [Value::Int(1), Value::Int(2)]));
    let entries = entry_alone(&rt, alloc, &board, entry);
    let parts = Parts {
        board,
        tasks,
        entries,
        exits,
    };
    drop(gathered(&rt, alloc, parts));
}

#[test]
fn an_entry_is_busy_while_a_value_is_under_way(rt: HostRuntime) {
    let alloc = rt.alloc();
    let Parts {
        board,
        mut tasks,
        entries,
        ..
    } = scattered(&rt, alloc, BUFFER, "b?");
    let mut entry = only_entry(&rt, &board, entries);
    assert!(rt; entry.begin_send(alloc, &board, Value::Int(1)).is_ok());
    let posted = entry.begin_post(alloc, &board, Value::Int(2));
    assert!(rt; matches!(posted, Err((Value::Int(2), SendFault::Busy))));
    let sent = entry.begin_send(alloc, &board, Value::Int(3));
    assert!(rt; matches!(sent, Err((Value::Int(3), SendFault::Busy))));
    assert!(rt; entry.finish(&board, Ending::Complete) == Err(SendFault::Busy));
    let sent = look(&rt, alloc, &board, &mut tasks, &mut entry);
    assert!(rt; matches!(sent, Sent::Accepted));
    assert!(rt; matches!(entry.accepted(), [Value::Int(1)]));
    assert!(rt; entry.finish(&board, Ending::Complete).is_ok());
}

// Its link is in a phase that no turn of a task brings about.
#[test]
fn a_value_that_is_posted_when_it_is_gathered_is_taken(rt: HostRuntime) {
    let alloc = rt.alloc();
    let Parts {
        board,
        tasks,
        entries,
        exits,
    } = scattered(&rt, alloc, BUFFER, "b?");
    let mut entry = only_entry(&rt, &board, entries);
    assert!(rt; entry.begin_post(alloc, &board, Value::Int(7)).is_ok());
    let parts = Parts {
        entries: entry_alone(&rt, alloc, &board, entry),
        board,
        tasks,
        exits,
    };
    let mut net = gathered(&rt, alloc, parts);
    assert!(rt; net.plan().link_count() == 2 && matches!(net.phase(0), Phase::Posted(_)));
    assert!(rt; net.settle(alloc, 1_000) == Ok(Settled::Quiet));
    assert!(rt; net.plan().block_count() == 1);
    assert!(rt; matches!(net.journal(0).first(), Some(Mark::Took(..))));
}

/// Asserts that this number is sent or posted in vain, and comes back for good.
fn comes_back(
    rt: &impl Abort,
    alloc: Global,
    board: &Board<Steps>,
    tasks: &mut Vec<Task<Steps>>,
    entry: &mut Entry<Steps>,
    number: i64,
    may_wait: bool,
)
    requires of { AllTasksOf board.now tasks.old.items }
    requires entry_of { entry_board entry.old ≡ board.now }
    ensures of { AllTasksOf board.now tasks.new.items }
    ensures entry_of { entry_board entry.new ≡ entry_board entry.old }
{
    let value = Value::Int(number);
    let Sent::Permanently(Value::Int(back)) = became(
        rt, alloc, board, tasks, entry, value, may_wait,
    ) else {
        panic!(rt; "it does not come back");
    };
    assert!(rt; back == number);
}

#[test]
fn a_block_that_takes_one_value_sends_later_ones_back_for_good(rt: HostRuntime) {
    let alloc = rt.alloc();
    let (parts, mut watch) = watched(&rt, alloc, ONCE, "b?");
    let Parts {
        board,
        mut tasks,
        entries,
        ..
    } = parts;
    let mut entry = only_entry(&rt, &board, entries);
    let sent = became(
        &rt,
        alloc,
        &board,
        &mut tasks,
        &mut entry,
        Value::Int(7),
        false,
    );
    assert!(rt; matches!(sent, Sent::Accepted));
    comes_back(&rt, alloc, &board, &mut tasks, &mut entry, 8, false);
    comes_back(&rt, alloc, &board, &mut tasks, &mut entry, 9, true);
    assert!(rt; watch.read(&board) == Some(Outcome::Done));
}

// The action reads numbers, and the first value is a text that is none.
#[test]
fn a_block_that_has_faulted_sends_values_back_for_good(rt: HostRuntime) {
    let alloc = rt.alloc();
    let Ok(text) = Text::from_str(alloc, "x") else {
        panic!(rt; "out of memory");
    };
    let (parts, mut watch) = watched(&rt, alloc, READER, "b?");
    let Parts {
        board,
        mut tasks,
        entries,
        ..
    } = parts;
    let mut entry = only_entry(&rt, &board, entries);
    let sent = became(
        &rt,
        alloc,
        &board,
        &mut tasks,
        &mut entry,
        Value::Text(text),
        true,
    );
    assert!(rt; matches!(sent, Sent::Accepted));
    comes_back(&rt, alloc, &board, &mut tasks, &mut entry, 2, true);
    assert!(rt; watch.read(&board) == Some(Outcome::Faulted(1)));
}
