//! Networks that are run open: what their senders give is taken or comes back, and their receivers are called with what comes out.

use crate::networks::network;
use flow_open::{Ended, Opened, Sender, SenderState, run_open};
use flow_value::{Steps, Value};
use std::alloc::Global;
use std::process::Abort;
use std::sync::Wait;
use std::thread::Threads;
use std::time::Clock;
use std::vec::IntoIter;

/// Two inputs into one exit, and what they say of themselves. Neither link propagates: else what the one input still has would be refused
/// where the other ends first.
const TWO: &str = "a* buffer, b* buffer, t transform(add 10) output true, a -> t, b -> t";

const TWO_OPEN: &str = "a? b?";

/// What has come of a run.
#[derive(Drop)]
struct Came {
    ended: Ended,
    senders: Vec<Sender<IntoIter<Value>>>,
    /// The sum of what was received.
    sum: i64,
}

/// So many senders of 1, 2 and 3.
fn senders(rt: &impl Abort, alloc: Global, count: usize) -> Vec<Sender<IntoIter<Value>>> {
    let mut senders = Vec::new(alloc);
    for _ in 0..count {
        let Ok(values) = vec![in alloc; Value::Int(1), Value::Int(2), Value::Int(3)] else {
            panic!(rt; "out of memory");
        };
        let Ok(()) = senders.push(Sender::new(values.into_iter())) else {
            panic!(rt; "out of memory");
        };
    }
    senders
}

/// What a run tells, without its network and its receivers.
fn told_by<F: Drop>(
    opened: Opened<Steps, IntoIter<Value>, F>,
) -> (Ended, Vec<Sender<IntoIter<Value>>>) {
    let Opened { ended, senders, .. } = opened;
    (ended, senders)
}

/// Runs the network that is drawn so, with so many senders, and a receiver that adds up what it is called with.
fn run<R: Abort + Threads + Wait + Clock + Sync>(
    rt: &R,
    alloc: Global,
    drawn: &str,
    records: &str,
    count: usize,
) -> Came {
    let net = network(rt, alloc, drawn, records);
    let mut sum = 0i64;
    let add = |value: Value| {
        if let Value::Int(number) = value {
            sum = sum.saturating_add(number);
        }
    };
    let mut receivers = Vec::new(alloc);
    let Ok(()) = receivers.push(add) else {
        panic!(rt; "out of memory");
    };
    let senders = senders(rt, alloc, count);
    let Ok(opened) = run_open(rt, alloc, net, 2, senders, receivers) else {
        panic!(rt; "out of memory");
    };
    let (ended, senders) = told_by(opened);
    Came {
        ended,
        senders,
        sum,
    }
}

#[test]
fn all_that_is_sent_comes_out(rt: HostRuntime) {
    let came = run(&rt, rt.alloc(), TWO, TWO_OPEN, 2);
    assert!(rt; came.ended == Ended::AtRest);
    for sender in came.senders.iter() {
        assert!(rt; matches!(sender.state, SenderState::Through));
    }
    assert!(rt; came.sum == 72);
}

#[test]
fn what_a_block_takes_no_more_comes_back(rt: HostRuntime) {
    let mut came = run(&rt, rt.alloc(), "one* write_once output true", "one?", 1);
    assert!(rt; came.ended == Ended::AtRest);
    assert!(rt; came.sum == 1);
    let Some(mut sender) = came.senders.pop() else {
        panic!(rt; "no sender");
    };
    assert!(rt; matches!(sender.state, SenderState::Refused(Value::Int(2))));
    assert!(rt; matches!(sender.values.next(), Some(Value::Int(3))));
}

#[test]
fn each_input_wants_a_sender(rt: HostRuntime) {
    let mut came = run(&rt, rt.alloc(), TWO, TWO_OPEN, 1);
    assert!(rt; came.ended == Ended::Unmatched);
    assert!(rt; came.sum == 0);
    let Some(mut sender) = came.senders.pop() else {
        panic!(rt; "no sender");
    };
    assert!(rt; matches!(sender.state, SenderState::Sending));
    assert!(rt; matches!(sender.values.next(), Some(Value::Int(1))));
}
