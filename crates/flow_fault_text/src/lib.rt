//! What can be wrong with a network's text, with records and with a report that is written, and how it is told.
//!
//! Proved: faults and places are shown as specs/FaultText.antt says.
#![tactic(auto)]

mod fault;
mod plan_line;

pub use fault::{TextFault, TextPlace, TextRefusal};
