//! Joins: a row of one message from each port, as long as each port has one.
use crate::events::cases::{check_cases, fault_of};
use flow_link::{Place, PlanFault};
use flow_trial::JOINS;
use std::test::Fail;

#[test]
fn joins_make_pairs_and_triples(rt: HostRuntime) -> Result<(), Fail> {
    check_cases(&rt, rt.alloc(), JOINS)
}

/// Drafts of joins, and the fault of each; none where it is a plan.
const DRAFTS: &[(&str, Option<PlanFault>)] = &[
    ("j join", None),
    ("j join ports 3 capacity 1", None),
    ("j join greedy true", None),
    ("j join greedy false", None),
    ("j* join", Some(PlanFault::BadOption(Place::Block(0)))),
    (
        "j join ports 0",
        Some(PlanFault::BadOption(Place::Block(0))),
    ),
    (
        "j join ports 1",
        Some(PlanFault::BadOption(Place::Block(0))),
    ),
    (
        "j join ports 4",
        Some(PlanFault::BadOption(Place::Block(0))),
    ),
    ("j join size 2", Some(PlanFault::BadOption(Place::Block(0)))),
    (
        "j join capacity 0",
        Some(PlanFault::BadOption(Place::Block(0))),
    ),
    // A port that is not there comes before an option that is wrong.
    ("a buffer, j join, a -> j port 1", None),
    ("a buffer, j join, a -> j port 2", Some(PlanFault::Port(0))),
    (
        "a buffer, j join ports 3, a -> j, a -> j port 3",
        Some(PlanFault::Port(1)),
    ),
    ("a buffer, j join ports 0, a -> j", Some(PlanFault::Port(0))),
    (
        "a buffer, j join ports 1, a -> j port 1",
        Some(PlanFault::Port(0)),
    ),
    (
        "a buffer, j join ports 5, a -> j port 4",
        Some(PlanFault::BadOption(Place::Block(1))),
    ),
    (
        "a buffer, j join ports 5, a -> j port 5",
        Some(PlanFault::Port(0)),
    ),
    ("a buffer, j join, a -> j, j -> a", Some(PlanFault::Cycle)),
    ("j batched_join size 1", None),
    ("j batched_join size 4096 ports 3", None),
    // A batched join has a size, and no capacity.
    (
        "j batched_join",
        Some(PlanFault::BadOption(Place::Block(0))),
    ),
    (
        "j batched_join size 0",
        Some(PlanFault::BadOption(Place::Block(0))),
    ),
    (
        "j batched_join size 4097",
        Some(PlanFault::BadOption(Place::Block(0))),
    ),
    (
        "j batched_join size 2 capacity 4",
        Some(PlanFault::BadOption(Place::Block(0))),
    ),
    // Joins alone have the option that they reserve.
    (
        "j batched_join size 2 greedy true",
        Some(PlanFault::BadOption(Place::Block(0))),
    ),
    (
        "b batch size 2 greedy false",
        Some(PlanFault::BadOption(Place::Block(0))),
    ),
    (
        "b buffer greedy true",
        Some(PlanFault::BadOption(Place::Block(0))),
    ),
    (
        "j batched_join size 2 ports 4",
        Some(PlanFault::BadOption(Place::Block(0))),
    ),
    (
        "a buffer, j batched_join size 0, a -> j port 2",
        Some(PlanFault::Port(0)),
    ),
];

#[test]
fn drafts_of_joins_have_their_faults(rt: HostRuntime) -> Result<(), Fail> {
    for (drawn, fault) in DRAFTS {
        assert!(rt; fault_of(rt.alloc(), drawn)? == *fault, "{drawn}");
    }
    Ok(())
}
