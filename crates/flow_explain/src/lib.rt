//! Explains why a network or its records are refused, with the place in the text and what may have been meant, and
//! warns of what was hardly meant in a network that is accepted.
//!
//! The verdict is that of `flow_plan_text` and `flow_record_text`, which read the texts for a run. What is found beside it
//! never changes it.
//!
//! Proved: the verdict is that of `read_plan` and `read_records`; an accepted text has no error, and a refused one
//! has at least one.
//! Tested: the places and words of flaws, by tables of texts.
//! Neither: that all flaws of a text are told: at most a hundred are.
#![tactic(auto)]

mod cause;
mod check;
mod circle;
mod encoding;
mod explain;
mod finding;
mod hint;
mod keys;
mod network;
mod options;
mod plan;
mod print;
mod records;
mod rows;
mod shape;
mod unequal;
mod words;

pub use check::{Verdict, check_both, check_network, check_records};
pub use explain::{Answer, explain_network};
pub use finding::Flaw;
pub use flow_hints::Warning;
pub use print::{Source, Style};
pub use records::explain_records;
pub use unequal::warn_unequal;
