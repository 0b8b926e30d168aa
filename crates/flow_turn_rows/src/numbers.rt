//! Numbers go through a block that works on four at a time.

use crate::networks::network;
use crate::turned::{Way, turned};
use flow_front::{record_of, state_of};
use flow_net::{Net, State};
use flow_value::{Steps, Value};
use std::alloc::Global;
use std::fmt::Write;
use std::process::Abort;
use std::thread::Threads;

/// A transform that works on four messages at a time.
pub(crate) const FOUR_LANES: &str =
    "in* buffer, t transform(int+add 1) lanes 4, out action(), in => t, t => out";

/// The network that is drawn so, to which the numbers from 1 to this one are posted.
pub(crate) fn with_numbers(rt: &impl Abort, alloc: Global, drawn: &str, last: u32) -> Net<Steps> {
    let mut records = String::new(alloc);
    for number in 1..=last {
        assert!(rt; write!(records, "in,{number} ").is_ok());
    }
    network(rt, alloc, drawn, records.as_str())
}

/// Asserts that the action `out` has recorded the numbers from the first to the last, in their order.
pub(crate) fn has_recorded(rt: &impl Abort, net: &Net<Steps>, first: i64, last: i64) {
    let Some(recorded) = record_of(net, "out") else {
        panic!(rt; "no record");
    };
    let mut due = first;
    for value in recorded {
        assert!(rt; *value == Value::Int(due));
        due = due.saturating_add(1);
    }
    assert!(rt; due.checked_sub(1) == Some(last));
}

/// Asserts that these blocks are done.
pub(crate) fn are_done(rt: &impl Abort, net: &Net<Steps>, names: &[&str]) {
    for name in names {
        assert!(rt; state_of(net, name) == Some(State::Done));
    }
}

/// Asserts that a hundred numbers come out in their order, each plus one, where the tasks are turned so.
fn keeps_order(rt: &(impl Abort + Threads + Sync), alloc: Global, way: Way) {
    let net = turned(rt, alloc, with_numbers(rt, alloc, FOUR_LANES, 100), way);
    assert!(rt; net.is_quiet());
    has_recorded(rt, &net, 2, 101);
    are_done(rt, &net, &["in", "t", "out"]);
}

#[test]
fn lanes_keep_order(rt: HostRuntime) {
    let alloc = rt.alloc();
    keeps_order(&rt, alloc, Way::Alone(64));
    keeps_order(&rt, alloc, Way::Alone(1));
    keeps_order(&rt, alloc, Way::Both(64));
}
