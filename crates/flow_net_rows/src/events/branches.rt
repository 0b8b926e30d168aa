//! Networks whose links branch and meet, whose blocks have room for so many messages, and whose links carry some messages or so many.
use crate::events::cases::{check_cases, fault_of};
use flow_link::{Place, PlanFault};
use flow_trial::{BATCHES, CHAINS, FAULTS, LINKS, WORKS};
use std::test::Fail;

#[test]
fn chains_pass_on_what_comes(rt: HostRuntime) -> Result<(), Fail> {
    check_cases(&rt, rt.alloc(), CHAINS)
}

#[test]
fn links_branch_and_meet(rt: HostRuntime) -> Result<(), Fail> {
    check_cases(&rt, rt.alloc(), LINKS)
}

#[test]
fn functions_make_several_messages_and_work_on_several(rt: HostRuntime) -> Result<(), Fail> {
    check_cases(&rt, rt.alloc(), WORKS)
}

#[test]
fn batches_have_rows_of_their_size(rt: HostRuntime) -> Result<(), Fail> {
    check_cases(&rt, rt.alloc(), BATCHES)
}

#[test]
fn faults_of_inputs_go_over_all_links(rt: HostRuntime) -> Result<(), Fail> {
    check_cases(&rt, rt.alloc(), FAULTS)
}

/// A batch whose rows have no message, and one with less room than a row has; and the fault of the draft.
const SMALL: &[(&str, PlanFault)] = &[
    (
        "in* buffer, t transform(int), b batch size 0, out action()",
        PlanFault::BadOption(Place::Block(2)),
    ),
    (
        "in* buffer, t transform(int), b batch size 3 capacity 2, out action()",
        PlanFault::CapacityBelowSize(2),
    ),
];

#[test]
fn small_batches_are_refused(rt: HostRuntime) -> Result<(), Fail> {
    for (drawn, fault) in SMALL {
        assert!(rt; fault_of(rt.alloc(), drawn)? == Some(*fault));
    }
    Ok(())
}
