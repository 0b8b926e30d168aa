//! Networks, records and reports as texts: the crates that read and write them, under one name.
//!
//! ```
//! let plan = read_plan(alloc, text)?;
//! let posted = read_records(alloc, records, &plan)?;
//! // a network is made of both, and runs
//! write_report(alloc, &net, settled, &mut writer)?;
//! ```
//!
//! Proved: no function of its own.
#![tactic(auto)]

pub use flow_fault_text::{TextFault, TextPlace, TextRefusal};
pub use flow_plan_text::read_plan;
pub use flow_record_text::read_records;
pub use flow_report::{is_complete, write_bytes, write_report};
