//! Runs are stopped anywhere, gathered, and go on.

use crate::ends::has_ended;
use crate::journals::{go_on, journals};
use crate::networks::{named, network_of};
use crate::turned::{Way, turned};
use flow_trial::{BATCHED_JOINS, BROADCASTS, CHAINS, Case, FAULTS, LINKS, RESERVING, SHARED};
use std::alloc::Global;
use std::process::Abort;
use std::thread::Threads;

/// The most rounds of two threads after which a run is stopped.
const MOST_ROUNDS: u32 = 50;

/// The most turns of one thread after which a run is stopped.
const MOST_TURNS: usize = 200;

/// Asserts that a run whose tasks are turned so, and that is gathered then, goes on to its end from there.
fn goes_on(
    rt: &(impl Abort + Threads + Sync),
    alloc: Global,
    case: &Case,
    first: Way,
    second: Way,
) {
    let net = network_of(rt, alloc, case);
    let net = turned(rt, alloc, net, first);
    let kept = journals(rt, alloc, &net);
    let net = turned(rt, alloc, net, second);
    go_on(rt, alloc, &net, &kept);
    has_ended(rt, alloc, &net, case);
}

/// Asserts that it does after each number of rounds of two threads.
fn goes_on_after_rounds(rt: &(impl Abort + Threads + Sync), alloc: Global, case: &Case) {
    for rounds in 0..=MOST_ROUNDS {
        goes_on(rt, alloc, case, Way::BothFor(rounds), Way::Both(64));
    }
}

/// Asserts that it does after each number of turns, one task after another.
fn goes_on_after_turns(rt: &(impl Abort + Threads + Sync), alloc: Global, case: &Case) {
    for turns in 0..=MOST_TURNS {
        goes_on(rt, alloc, case, Way::Singly(turns), Way::Alone(64));
    }
}

/// Runs that are stopped: each a table and the name of a case.
const STOPPED: &[(&str, &str)] = &[
    (CHAINS, "parse three"),
    (RESERVING, "broadcast beside a join"),
    (RESERVING, "reserving join leaves"),
    (SHARED, "two joins share sources"),
    (LINKS, "link limit"),
];

/// More of them: with groups, with copies, and with an input that ends with a fault.
const MORE: &[(&str, &str)] = &[
    (BATCHED_JOINS, "batched join groups"),
    (BROADCASTS, "a link that carries one copy"),
    (FAULTS, "fault at each event"),
];

#[test]
fn stopped_runs_go_on(rt: HostRuntime) {
    for (table, name) in STOPPED {
        goes_on_after_rounds(&rt, rt.alloc(), &named(&rt, table, name));
    }
}

#[test]
fn runs_that_stop_after_any_turn_go_on(rt: HostRuntime) {
    for (table, name) in STOPPED {
        goes_on_after_turns(&rt, rt.alloc(), &named(&rt, table, name));
    }
}

#[test]
fn stopped_groups_copies_and_faults_go_on(rt: HostRuntime) {
    for (table, name) in MORE {
        let case = named(&rt, table, name);
        goes_on_after_rounds(&rt, rt.alloc(), &case);
        goes_on_after_turns(&rt, rt.alloc(), &case);
    }
}
