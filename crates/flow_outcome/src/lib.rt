//! A network as people are told of it, and what became of it by the report of a run: drawings, why the run ended so, where a
//! value was, what actions recorded, and reports of parts as that of the whole.
//!
//! Proved: safe and total, whatever the report.
//! Tested: results in all forms, traces, drawings, verdicts; merged reports of each kind and each refusal; damaged
//! reports.
//! Neither: what drawings and verdicts say; what a kind says of itself.
#![tactic(auto)]

mod admits;
mod damage;
mod drawing;
mod fault;
mod fit;
mod kind;
mod merge;
mod outline;
mod results;
mod trace;
mod verdict;

pub use admits::Admits;
pub use damage::{Damage, damage_in};
pub use drawing::{
    DrawStyle, write_counts, write_crossed, write_drawing, write_link, write_options, write_state,
    write_terms,
};
pub use fault::TellFault;
pub use fit::{Misfit, check_fit};
pub use kind::Kind;
pub use merge::{MergeFault, merge_reports, report_status, worst_status};
pub use outline::{BlockOutline, LinkOutline, Outline, given_over};
pub use results::{ActionResults, ResultsError, ResultsForm, results_by_action, write_results};
pub use trace::write_trace;
pub use verdict::{is_through, write_verdict};
