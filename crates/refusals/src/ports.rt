//! Ways in and out of a buffer with room for one message, which the network owns, and futures over them.
use crate::again::{Stop, again, check, refused, wrong};
use flow_front::Inputs;
use flow_link::{BlockDef, BlockKind, Draft, Ending};
use flow_net::{Net, NetEntry, NetExit};
use flow_poll::{
    Delivery, OutputAvailable, Post, Receipt, Receive, ReceivePort, Received, SendAsync, SendFault,
    SendPort, SendRefusal, Sent,
};
use flow_value::{Steps, Value};
use futures::Future;
use futures::task::{Doorbell, Poll, Solo};
use std::alloc::{AllocError, AllocGlobal, Global};
use std::random::RandomSource;

/// The most events of a look.
const STEPS: u64 = 1_000;

/// A buffer whose input stays open, with an exit.
fn inputs(alloc: Global) -> Result<Inputs<Steps>, Stop> {
    let block = BlockDef::named(alloc, "b", BlockKind::Buffer)?;
    let draft = Draft::new(alloc).block(block.input().output().capacity(1))?;
    let Ok(plan) = draft.check(alloc) else {
        return Err(Stop::Memory);
    };
    let inputs = Inputs::of(alloc, plan)?;
    Ok(inputs)
}

/// A network with that buffer.
pub(crate) fn buffer(rt: &impl Print, alloc: Global) -> Result<Net<Steps>, Stop> {
    let mut inputs = inputs(alloc)?;
    match inputs.end("b", Ending::Open) {
        Ok(()) => Ok(inputs.start(alloc)?),
        Err(_) => Err(wrong(rt, "Inputs::end")),
    }
}

fn entry(rt: &impl Print, net: Net<Steps>) -> Result<NetEntry<Steps>, Stop> {
    match net.entry(0, STEPS) {
        Ok(port) => Ok(port),
        Err(_) => Err(wrong(rt, "Net::entry")),
    }
}

fn exit(rt: &impl Print, net: Net<Steps>) -> Result<NetExit<Steps>, Stop> {
    match net.exit(0, STEPS) {
        Ok(port) => Ok(port),
        Err(_) => Err(wrong(rt, "Net::exit")),
    }
}

/// Whether the value is this number.
pub(crate) fn is_number(value: &Value, number: i64) -> bool {
    value.as_int() == Some(number)
}

fn begin(
    rt: &impl Print,
    alloc: Global,
    port: &mut NetEntry<Steps>,
    number: i64,
    may_postpone: bool,
) -> Result<(), Stop> {
    let value = Value::Int(number);
    let told = port.accepted().len();
    again!(rt, "SendPort::begin", port.begin(alloc, value, may_postpone), (value, SendFault::Memory) =>
        is_number(&value, number) && port.accepted().len() == told)
}

/// A number is begun.
fn begun(
    rt: &impl Print,
    alloc: Global,
    net: Net<Steps>,
    number: i64,
    may_postpone: bool,
) -> Result<Net<Steps>, Stop> {
    let mut port = entry(rt, net)?;
    begin(rt, alloc, &mut port, number, may_postpone)?;
    Ok(port.into_net())
}

fn look(rt: &impl Print, alloc: Global, port: &mut NetEntry<Steps>) -> Result<Sent, Stop> {
    let told = port.accepted().len();
    again!(rt, "SendPort::look", port.look(alloc), only _ => port.accepted().len() == told)
}

/// The way in tells that its number is accepted.
fn told(rt: &impl Print, alloc: Global, mut port: NetEntry<Steps>) -> Result<Net<Steps>, Stop> {
    let sent = look(rt, alloc, &mut port)?;
    check(rt, "SendPort::look", matches!(sent, Sent::Accepted));
    Ok(port.into_net())
}

fn available(
    rt: &impl Print,
    alloc: Global,
    port: &mut NetExit<Steps>,
) -> Result<Option<bool>, Stop> {
    let came = port.received().len();
    again!(rt, "ReceivePort::available", port.available(alloc), only _ => port.received().len() == came)
}

fn try_receive(
    rt: &impl Print,
    alloc: Global,
    port: &mut NetExit<Steps>,
) -> Result<Received, Stop> {
    let came = port.received().len();
    again!(rt, "ReceivePort::try_receive", port.try_receive(alloc), only _ => port.received().len() == came)
}

/// A number comes out.
fn received(
    rt: &impl Print,
    alloc: Global,
    net: Net<Steps>,
    number: i64,
) -> Result<Net<Steps>, Stop> {
    let mut port = exit(rt, net)?;
    let there = available(rt, alloc, &mut port)?;
    check(rt, "ReceivePort::available", there == Some(true));
    let received = try_receive(rt, alloc, &mut port)?;
    let is_it = match received {
        Received::Message(value) => is_number(&value, number),
        Received::Waiting | Received::Ended(_) => false,
    };
    check(rt, "ReceivePort::try_receive", is_it);
    Ok(port.into_net())
}

/// Ways in and out of networks with one owner. A look at either does the events that are due.
pub(crate) fn owned(rt: &impl Print, alloc: Global) -> Result<(), Stop> {
    let net = begun(rt, alloc, buffer(rt, alloc)?, 1, true)?;
    let net = received(rt, alloc, net, 1)?;
    told(rt, alloc, entry(rt, net)?)?;
    let net = begun(rt, alloc, buffer(rt, alloc)?, 2, false)?;
    let net = told(rt, alloc, entry(rt, net)?)?;
    received(rt, alloc, net, 2)?;
    Ok(())
}

/// What a future gives as it is polled once.
fn ready<F: Future, R: Print + RandomSource + AllocGlobal>(
    rt: &R,
    mut future: F,
) -> Result<F::Output, Stop>
    requires { F.can_poll future }
{
    let Ok(task) = Solo::new(rt, Doorbell::spinning()) else {
        return Err(Stop::Memory);
    };
    let mut cx = task.begin();
    let polled = future.poll(&mut cx);
    cx.end(&polled);
    match polled {
        Poll::Ready(output) => Ok(output),
        Poll::Pending => Err(wrong(rt, "Future::poll")),
    }
}

/// The number is accepted, as a future told, or where it was refused memory, as the port tells.
fn accepted(
    rt: &impl Print,
    alloc: Global,
    future: &'static str,
    port: NetEntry<Steps>,
    number: i64,
    answer: Result<Delivery, SendRefusal>,
) -> Result<Net<Steps>, Stop> {
    match answer {
        Ok(Delivery::Accepted) => Ok(port.into_net()),
        Ok(Delivery::Declined(_) | Delivery::Permanently(_)) => Err(wrong(rt, future)),
        Err(SendRefusal::NotBegun(value, fault)) => {
            let is_back = fault == SendFault::Memory && is_number(&value, number);
            refused(rt, future, is_back && port.accepted().is_empty());
            begun_again(rt, alloc, port, value)
        }
        Err(SendRefusal::Memory) => {
            refused(rt, future, port.accepted().is_empty());
            told(rt, alloc, port)
        }
    }
}

/// A value that came back is begun, and accepted.
fn begun_again(
    rt: &impl Print,
    alloc: Global,
    mut port: NetEntry<Steps>,
    value: Value,
) -> Result<Net<Steps>, Stop> {
    match port.begin(alloc, value, true) {
        Ok(()) => told(rt, alloc, port),
        Err(_) => Err(Stop::Memory),
    }
}

/// A number is posted.
fn posted<R: Print + RandomSource + AllocGlobal>(
    rt: &R,
    alloc: Global,
    net: Net<Steps>,
    number: i64,
) -> Result<Net<Steps>, Stop> {
    let port = entry(rt, net)?;
    let (port, answer) = ready(rt, Post::new(alloc, port, Value::Int(number)))?;
    accepted(rt, alloc, "Post", port, number, answer)
}

/// A number is sent.
fn sent<R: Print + RandomSource + AllocGlobal>(
    rt: &R,
    alloc: Global,
    net: Net<Steps>,
    number: i64,
) -> Result<Net<Steps>, Stop> {
    let port = entry(rt, net)?;
    let (port, answer) = ready(rt, SendAsync::new(alloc, port, Value::Int(number)))?;
    accepted(rt, alloc, "SendAsync", port, number, answer)
}

/// Waits for a message, which is there.
fn awaited<R: Print + RandomSource + AllocGlobal>(
    rt: &R,
    alloc: Global,
    net: Net<Steps>,
) -> Result<NetExit<Steps>, Stop> {
    let port = exit(rt, net)?;
    let (port, there) = ready(rt, OutputAvailable::new(alloc, port))?;
    match there {
        Ok(is_there) => check(rt, "OutputAvailable", is_there),
        Err(AllocError) => refused(rt, "OutputAvailable", port.received().is_empty()),
    }
    Ok(port)
}

/// A number comes out by a future, or where that was refused memory, by another.
fn comes<R: Print + RandomSource + AllocGlobal>(
    rt: &R,
    alloc: Global,
    port: NetExit<Steps>,
    number: i64,
) -> Result<(), Stop> {
    let (port, receipt) = ready(rt, Receive::new(alloc, port))?;
    match receipt {
        Ok(receipt) => {
            check(rt, "Receive", is_receipt(&receipt, number));
            Ok(())
        }
        Err(AllocError) => {
            refused(rt, "Receive", port.received().is_empty());
            comes_again(rt, alloc, port, number)
        }
    }
}

fn comes_again<R: Print + RandomSource + AllocGlobal>(
    rt: &R,
    alloc: Global,
    port: NetExit<Steps>,
    number: i64,
) -> Result<(), Stop> {
    let (_, receipt) = ready(rt, Receive::new(alloc, port))?;
    let receipt = receipt?;
    check(rt, "Receive", is_receipt(&receipt, number));
    Ok(())
}

/// Whether it is of this number.
fn is_receipt(receipt: &Receipt, number: i64) -> bool {
    match receipt {
        Receipt::Message(value) => is_number(value, number),
        Receipt::Ended(_) => false,
    }
}

/// Futures over the ways in and out of networks.
pub(crate) fn futures<R: Print + RandomSource + AllocGlobal>(
    rt: &R,
    alloc: Global,
) -> Result<(), Stop> {
    let net = posted(rt, alloc, buffer(rt, alloc)?, 1)?;
    comes(rt, alloc, awaited(rt, alloc, net)?, 1)?;
    let net = sent(rt, alloc, buffer(rt, alloc)?, 2)?;
    comes(rt, alloc, awaited(rt, alloc, net)?, 2)
}
