//! `Post` and `SendAsync`, poll by poll.
use crate::check::{Came, check, comes, count, has_cases, number};
use crate::desk::{Desk, house_named};
use crate::driven::{after, ready, wait};
use flow_poll::{Delivery, Post, SendAsync, SendFault, SendPort, SendRefusal, Sent};
use flow_value::Value;
use flow_words::cells;
use std::alloc::{AllocGlobal, Global};
use std::process::Abort;
use std::random::RandomSource;

/// Behind the name of a case stands the house of the desk, and for how many looks it is full and for how many calls it has
/// memory. A send is pending at as many polls as stand behind `after`; one that is left is pending at one poll, and its
/// value stays under way; a post that is let go is never polled.
const SENDS: &str = "
case a post is taken or comes back | open | 1 9
post 1 = declined 1
taken = values 0
post 2 = accepted
taken = values 1
last = value 2
case a closed port gives the value back | closed | 0 9
post 3 = permanently 3
taken = values 0
case a send waits and is taken | open | 2 9
send 1 after 2 = accepted
taken = values 1
last = value 1
case a value that waits keeps the port busy | open | 1 9
leave 1 = waits
post 9 = busy 9
look = accepted
look = idle
let go 3 = unsent
taken = values 1
last = value 1
case a value without an id comes back | without ids | 0 9
send 1 after 0 = without_id 1
case a value without memory comes back | open | 0 0
send 2 after 0 = without_memory 2
case without memory for a look the value stays under way | open | 0 1
post 1 = memory
post 2 = busy 2
";

#[test]
fn values_are_sent(rt: HostRuntime) {
    has_cases(&rt, SENDS, 7);
    for case in SENDS.split("\ncase ").skip(1) {
        run_case(&rt, rt.alloc(), case);
    }
}

/// Does the calls of a case, each at the desk that the one before gave back.
fn run_case<R: Abort + Print + RandomSource + AllocGlobal>(rt: &R, alloc: Global, case: &str) {
    let Some((head, lines)) = case.split_once("\n") else {
        panic!(rt; "no case: {case}");
    };
    let Some((_, house, numbers)) = cells(head) else {
        panic!(rt; "no case: {head}");
    };
    let house = house_named(rt, house);
    let (full_for, memory_for) = numbers.split_once(" ").unwrap_or((numbers, ""));
    let mut desk = Desk::new(alloc, &house, count(rt, full_for), count(rt, memory_for));
    for line in lines.lines() {
        let Some((call, wanted)) = line.split_once(" = ") else {
            panic!(rt; "no call: {line}");
        };
        let (next, came) = called(rt, alloc, desk, call);
        desk = next;
        comes(rt, head, call, wanted, came);
    }
}

/// The desk after a call, and what came of it.
fn called<'a, R: Abort + Print + RandomSource + AllocGlobal>(
    rt: &R,
    alloc: Global,
    desk: Desk<'a>,
    call: &str,
) -> (Desk<'a>, Came) {
    match call {
        "look" => look(alloc, desk),
        "taken" => {
            let taken = desk.accepted.len().min(99) as i64;
            (desk, ("values", taken))
        }
        "last" => {
            let last = last_of(&desk.accepted);
            (desk, ("value", last))
        }
        _ => sent(rt, alloc, desk, call),
    }
}

/// The desk after a value was sent, and what came of it.
fn sent<'a, R: Abort + Print + RandomSource + AllocGlobal>(
    rt: &R,
    alloc: Global,
    desk: Desk<'a>,
    call: &str,
) -> (Desk<'a>, Came) {
    if let Some(digits) = call.strip_prefix("post ") {
        let post = Post::new(alloc, desk, Value::Int(number(rt, digits)));
        let (desk, answer) = ready(rt, call, post);
        (desk, told(&answer))
    } else if let Some(digits) = call.strip_prefix("let go ") {
        let post = Post::new(alloc, desk, Value::Int(number(rt, digits)));
        (post.into_port(), ("unsent", 0))
    } else if let Some(digits) = call.strip_prefix("leave ") {
        let mut send = SendAsync::new(alloc, desk, Value::Int(number(rt, digits)));
        wait(rt, call, &mut send);
        (send.into_port(), ("waits", 0))
    } else {
        let Some((word, waits)) = call.split_once(" after ") else {
            panic!(rt; "no such call: {call}");
        };
        let digits = word.strip_prefix("send ").unwrap_or("");
        let send = SendAsync::new(alloc, desk, Value::Int(number(rt, digits)));
        let (desk, answer) = after(rt, call, send, count(rt, waits));
        (desk, told(&answer))
    }
}

fn look(alloc: Global, mut desk: Desk<'_>) -> (Desk<'_>, Came) {
    let came = match desk.look(alloc) {
        Ok(sent) => seen(&sent),
        Err(_) => ("memory", 0),
    };
    (desk, came)
}

fn seen(sent: &Sent) -> Came {
    match sent {
        Sent::Idle => ("idle", 0),
        Sent::Waiting => ("waits", 0),
        Sent::Accepted => ("accepted", 0),
        Sent::Declined(value) => ("declined", number_in(value)),
        Sent::Permanently(value) => ("permanently", number_in(value)),
    }
}

fn told(answer: &Result<Delivery, SendRefusal>) -> Came {
    match answer {
        Ok(Delivery::Accepted) => ("accepted", 0),
        Ok(Delivery::Declined(value)) => ("declined", number_in(value)),
        Ok(Delivery::Permanently(value)) => ("permanently", number_in(value)),
        Err(SendRefusal::NotBegun(value, fault)) => (why(*fault), number_in(value)),
        Err(SendRefusal::Memory) => ("memory", 0),
    }
}

fn why(fault: SendFault) -> &'static str {
    match fault {
        SendFault::Busy => "busy",
        SendFault::Ids => "without_id",
        SendFault::Memory => "without_memory",
    }
}

/// The number that a value is, and -1 where it is none.
pub(crate) fn number_in(value: &Value) -> i64 {
    value.as_int().unwrap_or(-1)
}

/// The number that the last of these values is, and -1 where there is none.
fn last_of(values: &[Value]) -> i64 {
    match values.last() {
        Some(value) => number_in(value),
        None => -1,
    }
}

#[test]
fn the_faults_have_their_numbers(rt: HostRuntime) {
    check(&rt, "busy", SendFault::Busy.number() == Some(1));
    check(&rt, "no id", SendFault::Ids.number() == Some(2));
    check(&rt, "no memory", SendFault::Memory.number().is_none());
}
