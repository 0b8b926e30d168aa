//! What may have been meant: words that are near to another, and warnings of what was hardly meant in a network that is
//! accepted.
//!
//! A warning is of a network that surely ends with status 1, or of a part of it that never does what was meant.
//!
//! Proved: safe and total; a warning that nothing crosses a link, or that a step faults at each value, is true.
//! Tested: the other hints, by tables of texts.
#![tactic(auto)]

mod matching;
mod near;
mod sorts;
mod warnings;
mod ways;

pub use near::{nearest, quoted};
pub use warnings::{Warning, warnings_of};
