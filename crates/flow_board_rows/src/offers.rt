//! What stands on a link while tasks have only offered and wanted.
use crate::networks::{READS, TEXTS, gathered, journal, scattered, settle};
use crate::rounds::{ALL, turn};
use flow_front::record_of;
use flow_net::Net;
use flow_value::{Steps, Value};
use std::alloc::Global;
use std::process::Abort;

/// The word of a link over which message 1 is wanted.
const WANTED: u64 = 2_305_843_009_213_693_953;

/// Asserts that no block has a mark.
fn has_no_mark(rt: &impl Abort, net: &Net<Steps>) {
    assert!(rt; journal(rt, net, "in").is_empty());
    assert!(rt; journal(rt, net, "t").is_empty());
    assert!(rt; journal(rt, net, "out").is_empty());
}

/// Asserts that the numbers 1, 2 and 3 are recorded.
pub(crate) fn has_read(rt: &impl Abort, net: &Net<Steps>) {
    let Some(recorded) = record_of(net, "out") else {
        panic!(rt; "no block");
    };
    let [Value::Int(1), Value::Int(2), Value::Int(3)] = recorded else {
        panic!(rt; "another record");
    };
}

// In the first round only the input has something to do: it offers. Then the first block alone is turned: it wants.
#[test]
fn an_offer_is_wanted(rt: HostRuntime) {
    let alloc = rt.alloc();
    let mut parts = scattered(&rt, alloc, READS, TEXTS);
    assert!(rt; parts.board.peek(3).is_none());
    turn(&rt, alloc, &parts.board, &mut parts.tasks, ALL, 1, 1);
    turn(&rt, alloc, &parts.board, &mut parts.tasks, 1, 1, 1);
    assert!(rt; parts.board.peek(2) == Some(WANTED));
    let mut net = gathered(&rt, alloc, parts);
    has_no_mark(&rt, &net);
    settle(&rt, alloc, &mut net);
    has_read(&rt, &net);
}
