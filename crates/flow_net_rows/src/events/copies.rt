//! Blocks that copy: each link is given a copy of the element.
use crate::events::cases::check_cases;
use flow_trial::{BROADCASTS, PAIRED, WRITE_ONCES};
use std::test::Fail;

#[test]
fn broadcasts_copy_each_element(rt: HostRuntime) -> Result<(), Fail> {
    check_cases(&rt, rt.alloc(), BROADCASTS)
}

#[test]
fn copies_meet_in_a_join(rt: HostRuntime) -> Result<(), Fail> {
    check_cases(&rt, rt.alloc(), PAIRED)
}

#[test]
fn write_once_blocks_take_one(rt: HostRuntime) -> Result<(), Fail> {
    check_cases(&rt, rt.alloc(), WRITE_ONCES)
}
