//! Journals that are kept as texts, so that later ones are compared with them.

use flow_link::Mark;
use flow_net::Net;
use flow_value::Steps;
use std::alloc::Global;
use std::io::Write;
use std::process::Abort;

/// The journal of each block of a network, with a line for each mark.
pub(crate) fn journals(rt: &impl Abort, alloc: Global, net: &Net<Steps>) -> Vec<Vec<u8>> {
    let mut all = Vec::new(alloc);
    for block in 0..net.plan().block_count() {
        assert!(rt; all.push(lines(rt, alloc, net.journal(block))).is_ok());
    }
    all
}

/// A journal with a line for each mark.
fn lines(rt: &impl Abort, alloc: Global, marks: &[Mark]) -> Vec<u8> {
    let mut lines = Vec::new(alloc);
    for mark in marks {
        assert!(rt; writeln!(lines, "{mark:?}").is_ok());
    }
    lines
}

/// Asserts that the journal of each block goes on from the one that was kept of it.
pub(crate) fn go_on(rt: &impl Abort, alloc: Global, net: &Net<Steps>, kept: &[Vec<u8>]) {
    let all = journals(rt, alloc, net);
    assert!(rt; all.len() == kept.len());
    for (journal, first) in all.iter().zip(kept) {
        assert!(rt; journal.as_slice().starts_with(first.as_slice()));
    }
}
