//! Runs are stopped where a link stands in each of its phases, gathered, and go on. One phase is left out, a value that is posted over a link:
//! it needs a caller at an entry.

use crate::ends::has_ended;
use crate::journals::{go_on, journals};
use crate::networks::{named, network_of};
use crate::turned::{Way, turned};
use flow_link::{LinkEnd, LinkId, Phase};
use flow_trial::{CHAINS, Case, FAULTS, RESERVING, SHARED, WRITE_ONCES};
use std::alloc::Global;
use std::process::Abort;
use std::thread::Threads;

/// Where a run is stopped: these tasks were turned one after another, so often in all. Then a link of the network is in this phase.
type Stop = (&'static [usize], usize, &'static str);

/// The run of three numbers, at the link of its input. Task 0 is that of the input's block, and task 3 that of the input.
const PARSE_THREE: &[Stop] = &[
    (&[0], 0, "idle"),
    (&[3], 1, "offered"),
    (&[0, 3], 3, "wanted"),
    (&[0, 3], 4, "given"),
    (&[0, 3], 5, "opened"),
    (&[0, 3], 26, "complete"),
];

/// The run of a join that reserves, at the link of its first port.
const FIRST_PORT: &[Stop] = &[(&[0, 2, 4], 17, "postponed")];

/// The same at the link of its other port.
const OTHER_PORT: &[Stop] = &[(&[0, 1, 2, 3, 4, 5], 200, "plain")];

/// The run of two joins that share their sources, at the link from the first source to the first join.
const TWO_JOINS: &[Stop] = &[
    (&[0, 1, 2, 6, 7], 38, "asked"),
    (&[0, 1, 2, 3, 6, 7], 49, "held"),
];

/// The run of a block that takes one value, at the link of its input.
const ONE_VALUE: &[Stop] = &[(&[0, 2], 13, "refused")];

/// The run of a source that faults, at the link of its input.
const FAULTING: &[Stop] = &[(&[0, 4], 18, "fault")];

/// The name of a phase in the list of stops, and none where a value is posted.
fn name_of(phase: Phase) -> &'static str {
    match phase {
        Phase::Idle => "idle",
        Phase::Posted(_) => "",
        Phase::Offered(_) => "offered",
        Phase::Postponed(_) => "postponed",
        Phase::Wanted(_) => "wanted",
        Phase::Given(_) => "given",
        Phase::Opened(_) => "opened",
        Phase::Asked(_) => "asked",
        Phase::Held(_) => "held",
        Phase::Refused => "refused",
        Phase::Ended(LinkEnd::Plain) => "plain",
        Phase::Ended(LinkEnd::Complete) => "complete",
        Phase::Ended(LinkEnd::Fault(_)) => "fault",
    }
}

/// Asserts that the run of a case is in that phase where it is stopped so, and goes on to its end from there.
fn goes_on_from(
    rt: &(impl Abort + Threads + Sync),
    alloc: Global,
    case: &Case,
    link: LinkId,
    (tasks, turns, phase): Stop,
) {
    let net = network_of(rt, alloc, case);
    let net = turned(rt, alloc, net, Way::Chosen(tasks, turns));
    assert!(rt; link < net.plan().link_count());
    assert!(rt; name_of(net.phase(link)) == phase);
    let kept = journals(rt, alloc, &net);
    let net = turned(rt, alloc, net, Way::Alone(64));
    go_on(rt, alloc, &net, &kept);
    has_ended(rt, alloc, &net, case);
}

/// Asserts that of each stop.
fn goes_on_from_each(
    rt: &(impl Abort + Threads + Sync),
    alloc: Global,
    case: &Case,
    link: LinkId,
    stops: &[Stop],
) {
    for stop in stops {
        goes_on_from(rt, alloc, case, link, *stop);
    }
}

#[test]
fn runs_go_on_from_each_phase_of_a_link(rt: HostRuntime) {
    let alloc = rt.alloc();
    let reserving = named(&rt, RESERVING, "reserving join leaves");
    for (case, link, stops) in [
        (named(&rt, CHAINS, "parse three"), 2, PARSE_THREE),
        (reserving, 0, FIRST_PORT),
        (reserving, 1, OTHER_PORT),
        (named(&rt, SHARED, "two joins share sources"), 0, TWO_JOINS),
        (
            named(&rt, WRITE_ONCES, "write once takes one"),
            1,
            ONE_VALUE,
        ),
        (named(&rt, FAULTS, "fault at each event"), 3, FAULTING),
    ] {
        goes_on_from_each(&rt, alloc, &case, link, stops);
    }
}
