//! Values shown to people as a report prints them: numbers in decimal, texts between double quotes, rows between brackets.
//!
//! ```
//! println!(rt; "{}", shown(&value))?;
//! ```
//!
//! Proved: safe, and it ends.
//! Tested: what it prints.
#![tactic(auto)]

mod in_report;

pub use in_report::{InReport, shown};
