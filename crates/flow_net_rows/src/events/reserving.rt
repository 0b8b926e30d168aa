//! Joins that reserve: they take whole tuples alone, and what finds no partner stays at its source.
use crate::events::cases::{check_cases, fault_of};
use flow_link::PlanFault;
use flow_trial::{CROWDED, RESERVING, SHARED};
use std::test::Fail;

#[test]
fn reserving_joins_take_whole_tuples(rt: HostRuntime) -> Result<(), Fail> {
    check_cases(&rt, rt.alloc(), RESERVING)
}

#[test]
fn two_joins_share_sources(rt: HostRuntime) -> Result<(), Fail> {
    check_cases(&rt, rt.alloc(), SHARED)
}

#[test]
fn joins_share_sources_with_more_joins_or_less_room(rt: HostRuntime) -> Result<(), Fail> {
    check_cases(&rt, rt.alloc(), CROWDED)
}

/// Drafts with reserving joins, and the fault of each; none where it is a plan.
const SHARING: &[(&str, Option<PlanFault>)] = &[
    // shared source
    (
        "a* buffer, j join ports 2 greedy false, a -> j, a -> j port 1",
        Some(PlanFault::SharedSource(1)),
    ),
    (
        "a buffer, b buffer, j join ports 3 greedy false, b -> j, a -> j port 1, b -> j port 2",
        Some(PlanFault::SharedSource(2)),
    ),
    // A join that takes freely may share one, and two links into one port share nothing.
    ("a buffer, j join, a -> j, a -> j port 1", None),
    ("a buffer, j join greedy false, a -> j, a -> j", None),
    (
        "a buffer, j join greedy false, k join greedy false, a -> j, a -> k port 1",
        None,
    ),
    // The first block counts, after what is wrong with a batch, and before a circle.
    (
        "k join greedy false, a buffer, j join greedy false, a -> j, a -> j port 1, a -> k, a -> k port 1",
        Some(PlanFault::SharedSource(0)),
    ),
    (
        "a buffer, j join greedy false, a -> j, a -> j port 1, b batch size 2 capacity 1",
        Some(PlanFault::CapacityBelowSize(2)),
    ),
    (
        "j join greedy false, j -> j, j -> j port 1",
        Some(PlanFault::SharedSource(0)),
    ),
];

#[test]
fn two_ports_share_no_source(rt: HostRuntime) -> Result<(), Fail> {
    for (drawn, fault) in SHARING {
        assert!(rt; fault_of(rt.alloc(), drawn)? == *fault, "{drawn}");
    }
    Ok(())
}
