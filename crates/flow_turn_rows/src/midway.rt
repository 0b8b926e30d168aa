//! Runs that are in the middle of something when they are scattered or gathered.

use crate::ends::has_ended;
use crate::journals::{go_on, journals};
use crate::networks::{named, network_of};
use crate::turned::{Way, turned};
use flow_exec::JobResult;
use flow_link::{LinkId, Move, Phase};
use flow_net::{Event, Net, NetFault, Stepped};
use flow_trial::{CHAINS, Case};
use flow_value::{MessageHeader, Steps};
use std::alloc::Global;
use std::process::Abort;
use std::thread::Threads;

/// The run of one message.
pub(crate) fn one_message(rt: &impl Abort) -> Case<'static> {
    named(rt, CHAINS, "one message")
}

/// The run of three numbers.
pub(crate) fn parse_three(rt: &impl Abort) -> Case<'static> {
    named(rt, CHAINS, "parse three")
}

/// Does this event, by which no job begins.
fn does(rt: &impl Abort, alloc: Global, net: &mut Net<Steps>, event: Event<Steps>) {
    assert!(rt; matches!(net.event(alloc, event), Ok(Stepped::Moved)));
}

/// The first message crosses this link.
fn cross(rt: &impl Abort, alloc: Global, net: &mut Net<Steps>, link: LinkId) {
    let Some(first) = MessageHeader::new(1) else {
        panic!(rt; "no id");
    };
    for step in [
        Move::Offer(first),
        Move::Want,
        Move::Give,
        Move::Open,
        Move::Close,
    ] {
        does(rt, alloc, net, Event::Link(link, step));
    }
}

/// What comes of the first job of the transform in the run of three, which its block does not get back.
fn kept_result(rt: &impl Abort, alloc: Global, net: &mut Net<Steps>) -> JobResult<Steps> {
    cross(rt, alloc, net, 2);
    does(rt, alloc, net, Event::Make(0));
    cross(rt, alloc, net, 0);
    let Ok(Stepped::Began(job)) = net.event(alloc, Event::Begin(1)) else {
        panic!(rt; "no job");
    };
    let Ok(done) = job.run(alloc) else {
        panic!(rt; "out of memory");
    };
    done
}

/// Asserts that a run whose first job was begun before comes to its end by turns, and refuses what came of that job.
fn result_comes_too_late(rt: &(impl Abort + Threads + Sync), alloc: Global, way: Way) {
    let case = parse_three(rt);
    let mut net = network_of(rt, alloc, &case);
    let done = kept_result(rt, alloc, &mut net);
    let mut net = turned(rt, alloc, net, way);
    let refused = net.event(alloc, Event::End(1, done));
    assert!(rt; matches!(refused, Err((Event::End(1, _), NetFault::NotEnabled))));
    has_ended(rt, alloc, &net, &case);
}

#[test]
fn a_result_that_is_kept_comes_too_late(rt: HostRuntime) {
    let alloc = rt.alloc();
    result_comes_too_late(&rt, alloc, Way::Alone(64));
    result_comes_too_late(&rt, alloc, Way::Alone(1));
    result_comes_too_late(&rt, alloc, Way::Both(64));
}

/// The run of one message, gathered where the message is out of the slot of the link between its blocks, and not yet taken.
pub(crate) fn in_mid_move(rt: &(impl Abort + Threads + Sync), alloc: Global) -> Net<Steps> {
    let case = one_message(rt);
    for turns in 0..100 {
        let net = network_of(rt, alloc, &case);
        let net = turned(rt, alloc, net, Way::Singly(turns));
        assert!(rt; net.plan().link_count() == 2);
        if let Phase::Opened(_) = net.phase(0) {
            return net;
        }
    }
    panic!(rt; "the message is never opened");
}

/// Asserts that the run goes on from there, and that its message arrives once.
fn message_arrives_once(rt: &(impl Abort + Threads + Sync), alloc: Global, way: Way) {
    let net = in_mid_move(rt, alloc);
    let kept = journals(rt, alloc, &net);
    let net = turned(rt, alloc, net, way);
    go_on(rt, alloc, &net, &kept);
    has_ended(rt, alloc, &net, &one_message(rt));
}

#[test]
fn a_message_that_is_gathered_in_mid_move_arrives_once(rt: HostRuntime) {
    let alloc = rt.alloc();
    message_arrives_once(&rt, alloc, Way::Alone(64));
    message_arrives_once(&rt, alloc, Way::Both(64));
}
