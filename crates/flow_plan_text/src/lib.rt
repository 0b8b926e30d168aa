//! Reads networks that are written as text: a plan, or the first fault of the text.
//!
//! Proved: a plan is answered only where the text is TOML and the plan that of its tables (specs/Read.antt); a text
//! is refused only for its first fault in the order of the format.
//! Tested: that good texts are read where memory is ample.
//! Neither: when memory is out.
#![tactic(auto)]

mod network;

pub use network::read_plan;
