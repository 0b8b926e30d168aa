//! Runs a network that is written as text over records that are written as text, and writes what became of it.
//!
//! Proved: the headline: what `run` writes is the report of a lawful run of the plan over the records, with 1 to 64
//! workers and for every schedule, and each refusal has its reason (specs/Ran.antt, Left.antt). Statuses, refusals
//! and the cut of the input are their tables.
//! Tested: what is reported after each event of a small network; devices that fail.
//! Neither: that a call which waits for threads returns; with several workers, how many events were done.
#![tactic(auto)]

mod outcome;
mod pipeline;
mod refusal;
mod split;

pub use flow_pace::Start;
pub use flow_text::{TextFault, TextPlace, TextRefusal};
pub use outcome::{Ran, RunRefusal, status};
pub use pipeline::{run, run_and_keep, run_through};
pub use refusal::write_refusal;
pub use split::split_input;
