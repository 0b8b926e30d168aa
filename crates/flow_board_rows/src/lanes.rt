//! A block that has two lanes: each is a task, and what is there when the parts are gathered is out in the network.
use crate::networks::{LANED, NUMBERS, again, journal, scattered, settle};
use crate::rounds::{ALL, turned};
use crate::told::{Told, has_recorded, is_told};
use flow_poll::TurnState;

/// How many tasks there are: three blocks, an input and two lanes, in this order.
const TASKS: usize = 6;

const LANES: usize = 2;

#[test]
fn jobs_go_through_lanes(rt: HostRuntime) {
    let alloc = rt.alloc();
    let parts = scattered(&rt, alloc, LANED, NUMBERS);
    assert!(rt; parts.tasks.len() == TASKS);
    let (net, state) = turned(&rt, alloc, parts, ALL, 64, 100);
    assert!(rt; state == TurnState::Ended);
    has_recorded(&rt, &net);
}

// No thread does the jobs: the lanes are not turned. Two jobs are out then, and the third message waits.
#[test]
fn jobs_in_lanes_are_out_in_the_gathered_network(rt: HostRuntime) {
    let alloc = rt.alloc();
    let parts = scattered(&rt, alloc, LANED, NUMBERS);
    let (mut net, _) = turned(&rt, alloc, parts, TASKS - LANES, 64, 20);
    let taken = [Told::Took(1), Told::Took(2), Told::Took(3), Told::Complete];
    is_told(&rt, journal(&rt, &net, "double"), &taken);
    settle(&rt, alloc, &mut net);
    has_recorded(&rt, &net);
}

// Both lanes had a job when the parts were gathered: their block does both, and then goes on through new lanes.
#[test]
fn jobs_that_are_out_are_done_once_more(rt: HostRuntime) {
    let alloc = rt.alloc();
    let parts = scattered(&rt, alloc, LANED, NUMBERS);
    let (net, _) = turned(&rt, alloc, parts, TASKS - LANES, 64, 20);
    let parts = again(&rt, alloc, net);
    let (net, state) = turned(&rt, alloc, parts, ALL, 64, 100);
    assert!(rt; state == TurnState::Ended);
    has_recorded(&rt, &net);
}
