//! `Receive` and `OutputAvailable`, poll by poll.
use crate::check::{Came, comes, has_cases};
use crate::driven::{ready, wait};
use crate::sending::number_in;
use crate::shelf::Shelf;
use flow_link::Outcome;
use flow_poll::{OutputAvailable, Receipt, Receive};
use flow_value::Value;
use flow_words::cells;
use std::alloc::{AllocError, AllocGlobal, Global};
use std::process::Abort;
use std::random::RandomSource;

/// Behind the name of a case stands what the shelf keeps, and whether it ends by a fault behind that. What is left is pending
/// at one poll.
const RECEIPTS: &str = "
case a message is received | a message | it ends
available = there
receive = message 7
noted = values 1
case behind the messages comes the end | nothing | it ends
available = over
receive = faulted 3
noted = values 0
case an empty shelf is waited at | nothing | it is open
leave receive = waits
leave available = waits
noted = values 0
case without memory nothing is received | a message | it has no memory
receive = memory
available = memory
kept = values 1
";

#[test]
fn messages_are_received(rt: HostRuntime) {
    has_cases(&rt, RECEIPTS, 4);
    for case in RECEIPTS.split("\ncase ").skip(1) {
        run_case(&rt, rt.alloc(), case);
    }
}

/// Does the calls of a case, each at the shelf that the one before gave back.
fn run_case<R: Abort + Print + RandomSource + AllocGlobal>(rt: &R, alloc: Global, case: &str) {
    let Some((head, lines)) = case.split_once("\n") else {
        panic!(rt; "no case: {case}");
    };
    let mut shelf = shelf_of(rt, alloc, head);
    for line in lines.lines() {
        let Some((call, wanted)) = line.split_once(" = ") else {
            panic!(rt; "no call: {line}");
        };
        let (next, came) = called(rt, alloc, shelf, call);
        shelf = next;
        comes(rt, head, call, wanted, came);
    }
}

/// The shelf that the head of a case tells of.
fn shelf_of(rt: &(impl Abort + Print), alloc: Global, head: &str) -> Shelf {
    let Some((_, keeps, ends)) = cells(head) else {
        panic!(rt; "no case: {head}");
    };
    let (ends, has_memory) = match ends {
        "it ends" => (Some(Outcome::Faulted(3)), true),
        "it is open" => (None, true),
        "it has no memory" => (None, false),
        _ => panic!(rt; "no case: {head}"),
    };
    let mut kept = Vec::new(alloc);
    let is_kept = match keeps {
        "a message" => kept.push(Value::Int(7)).is_ok(),
        "nothing" => true,
        _ => false,
    };
    assert!(rt; is_kept, "no case, or out of memory: {head}");
    Shelf {
        kept,
        received: Vec::new(alloc),
        ends,
        has_memory,
    }
}

/// The shelf after a call, and what came of it.
fn called<R: Abort + Print + RandomSource + AllocGlobal>(
    rt: &R,
    alloc: Global,
    shelf: Shelf,
    call: &str,
) -> (Shelf, Came) {
    match call {
        "receive" => {
            let (shelf, came) = ready(rt, call, Receive::new(alloc, shelf));
            (shelf, received(&came))
        }
        "available" => {
            let (shelf, came) = ready(rt, call, OutputAvailable::new(alloc, shelf));
            (shelf, available(came))
        }
        "leave receive" => {
            let mut receive = Receive::new(alloc, shelf);
            wait(rt, call, &mut receive);
            (receive.into_port(), ("waits", 0))
        }
        "leave available" => {
            let mut available = OutputAvailable::new(alloc, shelf);
            wait(rt, call, &mut available);
            (available.into_port(), ("waits", 0))
        }
        "noted" => {
            let noted = shelf.received.len().min(99) as i64;
            (shelf, ("values", noted))
        }
        "kept" => {
            let kept = shelf.kept.len().min(99) as i64;
            (shelf, ("values", kept))
        }
        _ => panic!(rt; "no such call: {call}"),
    }
}

fn received(came: &Result<Receipt, AllocError>) -> Came {
    match came {
        Ok(Receipt::Message(value)) => ("message", number_in(value)),
        Ok(Receipt::Ended(Outcome::Done)) => ("done", 0),
        Ok(Receipt::Ended(Outcome::Faulted(number))) => ("faulted", i64::from(*number)),
        Err(_) => ("memory", 0),
    }
}

fn available(came: Result<bool, AllocError>) -> Came {
    match came {
        Ok(true) => ("there", 0),
        Ok(false) => ("over", 0),
        Err(_) => ("memory", 0),
    }
}
