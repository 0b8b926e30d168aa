//! A port by itself, where the test plays the far ends of its links.
use crate::check::check;
use crate::shared::{header, text};
use flow_intake::Intake;
use flow_link::LinkId;
use flow_value::{MessageHeader, MessageStatus, Parcel, Value};
use std::alloc::Global;
use std::process::Abort;

/// The port answers so to the first message, offered over a link that is free.
fn answers(
    rt: &impl Abort,
    port: &mut Intake,
    link: LinkId,
    may_postpone: bool,
    status: MessageStatus,
) {
    if !port.is_free_over(link) {
        panic!(rt; "the link is not free");
    }
    let Ok(answer) = port.answer(link, header(rt, 1), may_postpone) else {
        panic!(rt; "out of memory");
    };
    if answer != status {
        panic!(rt; "it answers otherwise");
    }
}

/// A text arrives over a link that it is wanted from.
fn arrives(rt: &impl Abort, alloc: Global, port: &mut Intake, link: LinkId, words: &str) {
    let Ok(parcel) = Parcel::new(alloc, Value::Text(text(rt, alloc, words))) else {
        panic!(rt; "out of memory");
    };
    if !port.is_wanted_over(link) {
        panic!(rt; "nothing is wanted over the link");
    }
    port.arrive(link, parcel);
}

/// The text that waits longest is exchanged for the number.
fn swaps(rt: &impl Abort, port: &mut Intake, text: &str, number: i64) {
    if port.waiting().is_empty() {
        panic!(rt; "nothing waits");
    }
    let value = port.swap_first(Value::Int(number));
    if value.as_str() != Some(text) {
        panic!(rt; "something else waits");
    }
}

/// An offer over a link is withdrawn.
fn withdraw(rt: &impl Abort, port: &mut Intake, link: LinkId) {
    if !port.may_drop(link) {
        panic!(rt; "no offer waits over the link");
    }
    port.drop_postponed(link);
}

/// The room of some messages comes back.
fn give_room(rt: &impl Abort, port: &mut Intake, count: usize) {
    if count > port.room_out() {
        panic!(rt; "so much room is not out");
    }
    port.give_room(count);
}

/// Whether the port would come back next for this message.
fn comes_back(port: &mut Intake, offer: Option<(LinkId, MessageHeader)>) -> bool {
    port.next_postponed() == offer
}

#[test]
fn intake_answers(rt: HostRuntime) {
    let (rt, alloc) = (&rt, rt.alloc());
    let one = header(rt, 1);
    let mut port = Intake::new(alloc, Some(1));

    // There is room for one message. The next offer waits, and one that may not wait is declined.
    answers(rt, &mut port, 0, true, MessageStatus::Accepted);
    answers(rt, &mut port, 1, true, MessageStatus::Postponed);
    answers(rt, &mut port, 2, false, MessageStatus::Declined);

    // The message has its room until that comes back.
    arrives(rt, alloc, &mut port, 0, "a");
    swaps(rt, &mut port, "a", 1);
    check(rt, "it is taken", port.take_next() == Some(Value::Int(1)));
    check(rt, "it has its room", comes_back(&mut port, None));
    give_room(rt, &mut port, 1);
    check(rt, "there is room", comes_back(&mut port, Some((1, one))));

    // The offer is withdrawn, so there is room for another.
    withdraw(rt, &mut port, 1);
    answers(rt, &mut port, 2, true, MessageStatus::Accepted);
    port.close_port();
    answers(rt, &mut port, 0, true, MessageStatus::DecliningPermanently);
}
