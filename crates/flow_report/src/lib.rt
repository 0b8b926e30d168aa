//! Writes the report of a run, and tells whether the run has gone through.
//!
//! Proved: `write_report` appends exactly the report of the run (specs/Report.antt, Printed.antt); where it fails,
//! what was there stays in front.
//! Tested: that a writer that fails is told, at whichever call.
//! Neither: how much went out before a failed write.
#![tactic(auto)]

mod complete;
mod given;
mod kept_list;
mod list_line;
mod page;
mod piece;
mod report;
mod same;
mod seen;
mod value_text;

pub use complete::is_complete;
pub use piece::write_bytes;
pub use report::write_report;
