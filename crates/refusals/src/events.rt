//! A network comes to its end event by event.
use crate::again::{Stop, check, refused, wrong};
use crate::networks::{Example, fresh, is_reported, marks};
use flow_exec::{Job, JobResult};
use flow_link::{LinkEnd, LinkId, Move, Phase};
use flow_net::{Event, Net, NetFault, Settled, Stepped};
use flow_value::{MessageHeader, Steps};
use std::alloc::Global;

/// The phase of the link over which the event is, if it is over one.
fn phase_over(net: &Net<Steps>, event: &Event<Steps>) -> Option<Phase> {
    match event {
        Event::Link(link, _) if *link < net.plan().link_count() => Some(net.phase(*link)),
        Event::Link(..)
        | Event::Make(_)
        | Event::Begin(_)
        | Event::End(..)
        | Event::Complete(..)
        | Event::Fault(_)
        | Event::Done(_) => None,
    }
}

/// Does the event, if it may happen, and tells what came of it.
fn act(
    rt: &impl Print,
    alloc: Global,
    net: &mut Net<Steps>,
    event: Event<Steps>,
) -> Result<Option<Stepped<Steps>>, Stop> {
    let before = (marks(net), phase_over(net, &event));
    match net.event(alloc, event) {
        Ok(stepped) => Ok(Some(stepped)),
        Err((_, NetFault::NotEnabled)) => Ok(None),
        Err((_, NetFault::Ids)) => Err(wrong(rt, "Net::event")),
        Err((event, NetFault::Memory)) => {
            let now = (marks(net), phase_over(net, &event));
            refused(rt, "Net::event", now == before);
            act_again(alloc, net, event)
        }
    }
}

fn act_again(
    alloc: Global,
    net: &mut Net<Steps>,
    event: Event<Steps>,
) -> Result<Option<Stepped<Steps>>, Stop> {
    match net.event(alloc, event) {
        Ok(stepped) => Ok(Some(stepped)),
        Err(_) => Err(Stop::Memory),
    }
}

/// The job is run.
fn run(alloc: Global, job: Job<Steps>) -> Result<JobResult<Steps>, Stop> {
    match job.run(alloc) {
        Ok(done) => Ok(done),
        Err(_) => Err(Stop::Memory),
    }
}

/// The block begins a job, if it may; the job is run, and its result comes back.
fn work(rt: &impl Print, alloc: Global, net: &mut Net<Steps>, block: usize) -> Result<(), Stop> {
    let Some(Stepped::Began(job)) = act(rt, alloc, net, Event::Begin(block))? else {
        return Ok(());
    };
    let done = run(alloc, job)?;
    let ended = act(rt, alloc, net, Event::End(block, done))?;
    check(rt, "Net::event", ended.is_some());
    Ok(())
}

/// Does what this block may do by itself.
fn act_alone(
    rt: &impl Print,
    alloc: Global,
    net: &mut Net<Steps>,
    block: usize,
) -> Result<(), Stop> {
    work(rt, alloc, net, block)?;
    act(rt, alloc, net, Event::Make(block))?;
    act(rt, alloc, net, Event::Complete(block, 0))?;
    act(rt, alloc, net, Event::Done(block))?;
    Ok(())
}

/// Makes each move that may be made over the link with this message, in their order.
fn act_over(
    rt: &impl Print,
    alloc: Global,
    net: &mut Net<Steps>,
    link: LinkId,
    id: u64,
) -> Result<(), Stop> {
    let Some(header) = MessageHeader::new(id) else {
        return Err(wrong(rt, "MessageHeader::new"));
    };
    for step in [
        Move::Offer(header),
        Move::Want,
        Move::Give,
        Move::Open,
        Move::Close,
        Move::End(LinkEnd::Complete),
    ] {
        act(rt, alloc, net, Event::Link(link, step))?;
    }
    Ok(())
}

/// Does all that may happen over the links, each once, and in the blocks.
fn act_round(rt: &impl Print, alloc: Global, net: &mut Net<Steps>) -> Result<(), Stop> {
    for id in 1..4 {
        act_over(rt, alloc, net, 2, id)?;
        act_over(rt, alloc, net, 0, id)?;
        act_over(rt, alloc, net, 1, id)?;
    }
    for block in 0..3 {
        act_alone(rt, alloc, net, block)?;
    }
    Ok(())
}

/// Does events one by one: all that may happen, until nothing may.
pub(crate) fn events(rt: &impl Print, alloc: Global) -> Result<(), Stop> {
    let example = Example::ParseThree;
    let mut net = fresh(rt, alloc, example)?;
    for _ in 0..20 {
        act_round(rt, alloc, &mut net)?;
    }
    check(rt, "Net::is_quiet", net.is_quiet());
    is_reported(rt, alloc, &net, Settled::Quiet, example)
}
