//! A spread by itself, with the test in the place of its targets.
use crate::check::check;
use crate::shared::{header, two_rules};
use flow_link::LinkId;
use flow_spread::Spread;
use flow_value::{MessageHeader, MessageStatus, Value};
use std::alloc::Global;
use std::process::Abort;

/// A spread over the links 0 and 1, whose next id is 1, with this number for both.
fn spread(rt: &impl Abort, alloc: Global, number: i64) -> Spread {
    let rules = two_rules(rt, alloc, 0, 1);
    let Ok(mut spread) = Spread::new(alloc, rules, header(rt, 1)) else {
        panic!(rt; "out of memory");
    };
    if !spread.is_free() {
        panic!(rt; "it may not take an element");
    }
    let Ok(()) = spread.put(Value::Int(number)) else {
        panic!(rt; "no id");
    };
    spread
}

/// It offers its element, the first, over this link, and the target accepts it.
fn offer(rt: &impl Abort, alloc: Global, spread: &mut Spread, link: LinkId) -> MessageHeader {
    let Ok(Some((over, header))) = spread.next_offer(alloc) else {
        panic!(rt; "nothing is offered");
    };
    if over != link || header.id() != 1 || !spread.is_asked(link, header) {
        panic!(rt; "something else is offered");
    }
    spread.note_answer(link, header, MessageStatus::Accepted);
    header
}

/// The link's target is given this number for the message.
fn gives(rt: &impl Abort, spread: &mut Spread, link: LinkId, header: MessageHeader, number: i64) {
    if !spread.may_consume(link, header) {
        panic!(rt; "it is not to be consumed");
    }
    let Some(parcel) = spread.consume_message(link, header) else {
        panic!(rt; "it is there no more");
    };
    if parcel.value().as_int() != Some(number) {
        panic!(rt; "it is another number");
    }
}

#[test]
fn each_link_is_given_a_copy(rt: HostRuntime) {
    let (rt, alloc) = (&rt, rt.alloc());
    let mut spread = spread(rt, alloc, 4);
    let first = offer(rt, alloc, &mut spread, 0);
    let second = offer(rt, alloc, &mut spread, 1);
    check(
        rt,
        "no more is offered",
        matches!(spread.next_offer(alloc), Ok(None)),
    );
    gives(rt, &mut spread, 0, first, 4);
    check(rt, "a copy is left", !spread.is_free());
    gives(rt, &mut spread, 1, second, 4);
    check(
        rt,
        "no copy is left",
        spread.is_free() && spread.left().is_none(),
    );
}
