//! What journals and records are to be.

use flow_front::record_of;
use flow_link::Mark;
use flow_net::Net;
use flow_value::{Steps, Value, ValueRef};
use std::alloc::Global;
use std::process::Abort;
use std::slice::Iter;

/// A mark of a block with one port, by its number.
#[derive(Clone, Copy, PartialEq)]
pub(crate) enum Told {
    Took(i64),
    Gave(i64),
    Complete,
    Done,
    Strange,
}

/// What a mark tells.
fn told_by(mark: &Mark) -> Told {
    match mark {
        Mark::Took(0, _, kept) => match kept.seen().value {
            ValueRef::Int(number) => Told::Took(number),
            ValueRef::Text(_) | ValueRef::Row(_) => Told::Strange,
        },
        Mark::Gave(_, kept) => match kept.seen().value {
            ValueRef::Int(number) => Told::Gave(number),
            ValueRef::Text(_) | ValueRef::Row(_) => Told::Strange,
        },
        Mark::Complete(0) => Told::Complete,
        Mark::Done => Told::Done,
        Mark::Took(_, _, _) | Mark::Complete(_) | Mark::Fault(_) => Told::Strange,
    }
}

/// The marks of a journal, to be compared later.
pub(crate) fn all_told(rt: &impl Abort, alloc: Global, journal: &[Mark]) -> Vec<Told> {
    let mut all = Vec::new(alloc);
    for mark in journal {
        assert!(rt; all.push(told_by(mark)).is_ok());
    }
    all
}

/// Asserts that a journal begins with these marks.
pub(crate) fn begins(rt: &impl Abort, journal: &[Mark], first: &[Told]) {
    let mut marks = journal.iter();
    for expected in first {
        let Some(mark) = marks.next() else {
            panic!(rt; "a mark is missing");
        };
        assert!(rt; told_by(mark) == *expected);
    }
}

/// Asserts that a journal has these marks, and no more.
pub(crate) fn is_told(rt: &impl Abort, journal: &[Mark], all: &[Told]) {
    assert!(rt; journal.len() == all.len());
    begins(rt, journal, all);
}

/// Asserts that this number is the next one.
fn is_next(rt: &impl Abort, numbers: &mut Iter<'_, i64>, number: i64) {
    let Some(next) = numbers.next() else {
        panic!(rt; "a number is too much");
    };
    assert!(rt; *next == number);
}

/// Asserts that a block took these numbers and gave those, each in this order, completed its port once behind the last that it
/// took, and is done.
pub(crate) fn is_done(rt: &impl Abort, journal: &[Mark], taken: &[i64], given: &[i64]) {
    let mut to_take = taken.iter();
    let mut to_give = given.iter();
    let mut completed = false;
    for mark in journal {
        match told_by(mark) {
            Told::Took(number) => {
                assert!(rt; !completed);
                is_next(rt, &mut to_take, number);
            }
            Told::Gave(number) => is_next(rt, &mut to_give, number),
            Told::Complete => {
                assert!(rt; !completed);
                completed = true;
            }
            Told::Done => {}
            Told::Strange => panic!(rt; "a strange mark"),
        }
    }
    assert!(rt; completed);
    assert!(rt; to_take.next().is_none());
    assert!(rt; to_give.next().is_none());
    assert!(rt; matches!(journal.last(), Some(Mark::Done)));
}

/// Asserts that the chain has recorded 2, 4 and 6.
pub(crate) fn has_recorded(rt: &impl Abort, net: &Net<Steps>) {
    let Some(recorded) = record_of(net, "out") else {
        panic!(rt; "no block");
    };
    let [Value::Int(2), Value::Int(4), Value::Int(6)] = recorded else {
        panic!(rt; "another record");
    };
}
