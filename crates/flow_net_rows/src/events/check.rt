//! Tests by name.
use std::process::Abort;

/// Tests that the case with this name comes out as it should.
pub(crate) fn check(rt: &(impl Abort + Print), name: &str, holds: bool) {
    assert!(rt; holds, "{name}");
}
