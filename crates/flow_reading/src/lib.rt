//! Reads the report of a run back: what each block took, holds, gave, recorded and left, as pieces of the report's text.
//!
//! Proved: what `read_report` reads, printed again, is the text that it read (specs/Printed.antt). Safe and total,
//! whatever the text.
//! Tested: that broken reports are refused with their line, and reports of runs are read.
//! Neither: that every report which is written is read.
#![tactic(auto)]

mod fault;
mod line;
mod list;
mod report;
mod token;

pub use fault::{ReadError, ReportFault};
pub use list::{PrintedList, PrintedValue, PrintedValues, ValueKind};
pub use report::{BlockReport, Kept, LinkReport, PortReport, Report, Settled, State, read_report};
