//! A port, an outlet and a spread by themselves: the case plays the far ends of their links.
use crate::again::{Stop, again, check, wrong};
use flow_intake::Intake;
use flow_link::LinkId;
use flow_outlet::{LinkRule, Outlet, OutletFault};
use flow_spread::Spread;
use flow_value::{MessageHeader, MessageStatus, Value, When};
use std::alloc::{AllocError, Global};

/// A link that carries every message.
fn link(id: LinkId) -> LinkRule {
    LinkRule {
        id,
        when: When::Any,
        max: None,
        passes: true,
        steady: false,
        sole: false,
    }
}

/// The header of a first message.
pub(crate) fn header(rt: &impl Print) -> Result<MessageHeader, Stop> {
    match MessageHeader::new(1) {
        Some(header) => Ok(header),
        None => Err(wrong(rt, "MessageHeader::new")),
    }
}

/// The port answers to a message over this link, which has to be free.
fn answer(
    port: &mut Intake,
    link: LinkId,
    header: MessageHeader,
) -> Result<MessageStatus, AllocError> {
    if !port.is_free_over(link) {
        return Ok(MessageStatus::NotAvailable);
    }
    port.answer(link, header, true)
}

fn answered(
    rt: &impl Print,
    port: &mut Intake,
    link: LinkId,
    header: MessageHeader,
) -> Result<MessageStatus, Stop> {
    again!(rt, "Intake::answer", answer(port, link, header), only _ => port.is_free_over(link))
}

/// A port takes one message, and puts off another.
pub(crate) fn port(rt: &impl Print, alloc: Global) -> Result<(), Stop> {
    let header = header(rt)?;
    let mut port = Intake::new(alloc, Some(1));
    let first = answered(rt, &mut port, 0, header)?;
    check(rt, "Intake::answer", first == MessageStatus::Accepted);
    let second = answered(rt, &mut port, 1, header)?;
    check(rt, "Intake::answer", second == MessageStatus::Postponed);
    Ok(())
}

fn new_outlet(rt: &impl Print, alloc: Global) -> Result<Outlet, Stop> {
    let header = header(rt)?;
    let rules = vec![in alloc; link(0), link(1)]?;
    again!(rt, "Outlet::new", Outlet::new(alloc, rules, header), only rules => rules.len() == 2)
}

/// The outlet is given two values, unless it has some already.
fn put(outlet: &mut Outlet, values: Vec<Value>) -> Result<(), (Vec<Value>, OutletFault)> {
    if outlet.weight() > 0 {
        return Err((values, OutletFault::Ids));
    }
    outlet.put(values, 2)
}

fn put_two(rt: &impl Print, alloc: Global, outlet: &mut Outlet) -> Result<(), Stop> {
    let values = vec![in alloc; Value::Int(5), Value::Int(6)]?;
    again!(rt, "Outlet::put", put(outlet, values), (values, OutletFault::Memory) =>
        values.len() == 2 && outlet.left().is_empty())
}

fn offered(
    rt: &impl Print,
    alloc: Global,
    outlet: &mut Outlet,
) -> Result<Option<(LinkId, MessageHeader)>, Stop> {
    again!(rt, "Outlet::next_offer", outlet.next_offer(alloc), only _ => outlet.left().len() == 2)
}

/// Whether this is the first message, over the first link.
fn is_first(offer: Option<(LinkId, MessageHeader)>) -> bool {
    match offer {
        Some((link, header)) => link == 0 && header.id() == 1,
        None => false,
    }
}

/// An outlet offers the first of two messages.
pub(crate) fn outlet(rt: &impl Print, alloc: Global) -> Result<(), Stop> {
    let mut outlet = new_outlet(rt, alloc)?;
    put_two(rt, alloc, &mut outlet)?;
    let offer = offered(rt, alloc, &mut outlet)?;
    check(rt, "Outlet::next_offer", is_first(offer));
    Ok(())
}

fn new_spread(rt: &impl Print, alloc: Global) -> Result<Spread, Stop> {
    let header = header(rt)?;
    let rules = vec![in alloc; link(0), link(1)]?;
    again!(rt, "Spread::new", Spread::new(alloc, rules, header), only rules => rules.len() == 2)
}

/// The spread is given a value, if it may take one.
fn spread_out(spread: &mut Spread, value: Value) -> Result<(), Value> {
    if !spread.is_free() {
        return Err(value);
    }
    spread.put(value)
}

fn spread_five(rt: &impl Print, spread: &mut Spread) -> Result<(), Stop> {
    let value = Value::Int(5);
    again!(rt, "Spread::put", spread_out(spread, value), only value => spread.is_free() && value.as_int() == Some(5))
}

fn next_copy(
    rt: &impl Print,
    alloc: Global,
    spread: &mut Spread,
) -> Result<Option<(LinkId, MessageHeader)>, Stop> {
    again!(rt, "Spread::next_offer", spread.next_offer(alloc), only _ => spread.element().is_some())
}

/// A spread offers a copy over its first link.
pub(crate) fn spread(rt: &impl Print, alloc: Global) -> Result<(), Stop> {
    let mut spread = new_spread(rt, alloc)?;
    spread_five(rt, &mut spread)?;
    let offer = next_copy(rt, alloc, &mut spread)?;
    check(rt, "Spread::next_offer", is_first(offer));
    Ok(())
}
