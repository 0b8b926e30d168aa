//! A buffer with room for one message, with an entry and an exit: what each call answers, where its task is turned between two of
//! them.
ghost use Rattle.std.specs.Prelude.{◌≡◌};
ghost use Rattle.flow_board.specs.Parts.{AllTasksOf, entry_board, exit_board, watched_board};

use crate::networks::{BOUNDED, gathered, journal, watched};
use crate::polls::{ready, send, send_later};
use crate::ports::{entry_alone, exit_alone, look, only_entry, only_exit};
use crate::rounds::{ALL, turn};
use crate::told::is_done;
use flow_board::{Board, Entry, EntryAt, Exit, ExitAt, Parts, Task, Watch, WatchAt};
use flow_link::{Ending, Outcome};
use flow_poll::{
    Completion, Delivery, OutputAvailable, Post, Receipt, Receive, SendFault, SendRefusal, Sent,
};
use flow_value::{Steps, Value};
use std::alloc::{AllocError, AllocGlobal, Global};
use std::process::Abort;
use std::random::RandomSource;

/// What became of a number that was sent.
#[derive(Clone, Copy, PartialEq)]
enum Became {
    Accepted,
    Declined,
    Permanently,
    Busy,
    Strange,
}

/// What became of a number, and the number where it came back.
fn outcome_of(answer: Result<Delivery, SendRefusal>) -> (Became, Option<i64>) {
    match answer {
        Ok(Delivery::Accepted) => (Became::Accepted, None),
        Ok(Delivery::Declined(value)) => (Became::Declined, value.as_int()),
        Ok(Delivery::Permanently(value)) => (Became::Permanently, value.as_int()),
        Err(SendRefusal::NotBegun(value, SendFault::Busy)) => (Became::Busy, value.as_int()),
        Err(_) => (Became::Strange, None),
    }
}

/// Whether this became of a number, which came back unless it was accepted.
fn is_so(answer: Result<Delivery, SendRefusal>, number: i64, became: Became) -> bool {
    let (told, back) = outcome_of(answer);
    match back {
        Some(back) => told == became && back == number,
        None => told == became && told == Became::Accepted,
    }
}

/// What came out: a number, or how the block ended.
fn received(rt: &impl Abort, receipt: Result<Receipt, AllocError>) -> Result<i64, Outcome> {
    match receipt {
        Ok(Receipt::Message(Value::Int(number))) => Ok(number),
        Ok(Receipt::Ended(how)) => Err(how),
        Ok(Receipt::Message(_)) | Err(_) => panic!(rt; "a strange receipt"),
    }
}

/// Posts a number, and this becomes of it.
fn posts(
    rt: &(impl Abort + RandomSource + AllocGlobal),
    alloc: Global,
    board: &Board<Steps>,
    tasks: &mut Vec<Task<Steps>>,
    entry: Entry<Steps>,
    number: i64,
    became: Became,
) -> Entry<Steps>
    requires of { AllTasksOf board.now tasks.old.items }
    requires entry_of { entry_board entry ≡ board.now }
    ensures of { AllTasksOf board.now tasks.new.items }
    ensures entry_of { entry_board result ≡ board.now }
{
    let posting = Post::new(alloc, EntryAt::new(board, entry), Value::Int(number));
    let (port, answer) = ready(rt, alloc, board, tasks, posting);
    if !is_so(answer, number, became) {
        panic!(rt; "something else becomes of a number");
    }
    port.into_entry()
}

/// Receives: this number, or how the block ended.
fn receives(
    rt: &(impl Abort + RandomSource + AllocGlobal),
    alloc: Global,
    board: &Board<Steps>,
    tasks: &mut Vec<Task<Steps>>,
    exit: Exit<Steps>,
    what: Result<i64, Outcome>,
) -> Exit<Steps>
    requires of { AllTasksOf board.now tasks.old.items }
    requires exit_of { exit_board exit ≡ board.now }
    ensures of { AllTasksOf board.now tasks.new.items }
    ensures exit_of { exit_board result ≡ board.now }
{
    let receiving = Receive::new(alloc, ExitAt::new(board, exit));
    let (port, receipt) = ready(rt, alloc, board, tasks, receiving);
    if received(rt, receipt) != what {
        panic!(rt; "something else comes");
    }
    port.into_exit()
}

/// There is output.
fn is_available(
    rt: &(impl Abort + RandomSource + AllocGlobal),
    alloc: Global,
    board: &Board<Steps>,
    tasks: &mut Vec<Task<Steps>>,
    exit: Exit<Steps>,
) -> Exit<Steps>
    requires of { AllTasksOf board.now tasks.old.items }
    requires exit_of { exit_board exit ≡ board.now }
    ensures of { AllTasksOf board.now tasks.new.items }
    ensures exit_of { exit_board result ≡ board.now }
{
    let watching = OutputAvailable::new(alloc, ExitAt::new(board, exit));
    let (port, told) = ready(rt, alloc, board, tasks, watching);
    assert!(rt; matches!(told, Ok(true)));
    port.into_exit()
}

/// The block is done.
fn completes(
    rt: &(impl Abort + RandomSource + AllocGlobal),
    alloc: Global,
    board: &Board<Steps>,
    tasks: &mut Vec<Task<Steps>>,
    watch: Watch<Steps>,
)
    requires of { AllTasksOf board.now tasks.old.items }
    requires watch_of { watched_board watch ≡ board.now }
    ensures of { AllTasksOf board.now tasks.new.items }
{
    let waiting = Completion::new(alloc, WatchAt::new(board, watch));
    let (_port, how) = ready(rt, alloc, board, tasks, waiting);
    assert!(rt; how == Outcome::Done);
}

/// 1 finds room, and 2 does not until 1 is received. Then 4 does.
fn goes_through(
    rt: &(impl Abort + RandomSource + AllocGlobal),
    alloc: Global,
    board: &Board<Steps>,
    tasks: &mut Vec<Task<Steps>>,
    entry: Entry<Steps>,
    exit: Exit<Steps>,
) -> (Entry<Steps>, Exit<Steps>)
    requires of { AllTasksOf board.now tasks.old.items }
    requires entry_of { entry_board entry ≡ board.now }
    requires exit_of { exit_board exit ≡ board.now }
    ensures of { AllTasksOf board.now tasks.new.items }
    ensures entry_of { entry_board result.0 ≡ board.now }
    ensures exit_of { exit_board result.1 ≡ board.now }
{
    let entry = posts(rt, alloc, board, tasks, entry, 1, Became::Accepted);
    let entry = posts(rt, alloc, board, tasks, entry, 2, Became::Declined);
    let port = send_later(rt, alloc, EntryAt::new(board, entry), Value::Int(2));
    turn(rt, alloc, board, tasks, ALL, 64, 10);
    let mut entry = posts(rt, alloc, board, tasks, port.into_entry(), 9, Became::Busy);
    let exit = receives(rt, alloc, board, tasks, exit, Ok(1));
    let sent = look(rt, alloc, board, tasks, &mut entry);
    assert!(rt; matches!(sent, Sent::Accepted));
    let exit = is_available(rt, alloc, board, tasks, exit);
    let exit = receives(rt, alloc, board, tasks, exit, Ok(2));
    let port = send(
        rt,
        alloc,
        board,
        tasks,
        EntryAt::new(board, entry),
        Value::Int(4),
    );
    let exit = receives(rt, alloc, board, tasks, exit, Ok(4));
    (port.into_entry(), exit)
}

/// The input ends with completion, and so the block does.
fn ends(
    rt: &(impl Abort + RandomSource + AllocGlobal),
    alloc: Global,
    board: &Board<Steps>,
    tasks: &mut Vec<Task<Steps>>,
    mut entry: Entry<Steps>,
    exit: Exit<Steps>,
    mut watch: Watch<Steps>,
) -> (Entry<Steps>, Exit<Steps>)
    requires of { AllTasksOf board.now tasks.old.items }
    requires entry_of { entry_board entry ≡ board.now }
    requires exit_of { exit_board exit ≡ board.now }
    requires watch_of { watched_board watch ≡ board.now }
    ensures of { AllTasksOf board.now tasks.new.items }
    ensures entry_of { entry_board result.0 ≡ board.now }
    ensures exit_of { exit_board result.1 ≡ board.now }
{
    assert!(rt; watch.read(board).is_none());
    assert!(rt; entry.finish(board, Ending::Complete).is_ok());
    let mut entry = posts(rt, alloc, board, tasks, entry, 3, Became::Permanently);
    assert!(rt; entry.finish(board, Ending::Fault(7)).is_ok());
    completes(rt, alloc, board, tasks, watch);
    let exit = receives(rt, alloc, board, tasks, exit, Err(Outcome::Done));
    (entry, exit)
}

#[test]
fn a_bounded_buffer_takes_what_it_has_room_for(rt: HostRuntime) {
    let alloc = rt.alloc();
    let (parts, watch) = watched(&rt, alloc, BOUNDED, "b?");
    let Parts {
        board,
        mut tasks,
        entries,
        exits,
    } = parts;
    let entry = only_entry(&rt, &board, entries);
    let exit = only_exit(&rt, &board, exits);
    let (entry, exit) = goes_through(&rt, alloc, &board, &mut tasks, entry, exit);
    assert!(rt;
        matches!(
            entry.accepted(),
            [Value::Int(1), Value::Int(2), Value::Int(4)]
        )
    );
    let (entry, exit) = ends(&rt, alloc, &board, &mut tasks, entry, exit, watch);
    assert!(rt;
        matches!(
            exit.received(),
            [Value::Int(1), Value::Int(2), Value::Int(4)]
        )
    );
    let entries = entry_alone(&rt, alloc, &board, entry);
    let exits = exit_alone(&rt, alloc, &board, exit);
    let parts = Parts {
        board,
        tasks,
        entries,
        exits,
    };
    let net = gathered(&rt, alloc, parts);
    is_done(&rt, journal(&rt, &net, "b"), &[1, 2, 4], &[1, 2, 4]);
}
