//! Reads records that are written as text: what they post to the inputs of a plan.
//!
//! Proved: the posted values are those of the records as csv reads them; a refusal names the first record that can't
//! be posted and the first thing that is wrong with it (specs/Records.antt).
//! Tested: that good texts are read; that a reader that fails is told, at whichever call.
#![tactic(auto)]

mod fields;
mod lines;
mod records;
mod rest;
mod rows;

pub use records::read_records;
