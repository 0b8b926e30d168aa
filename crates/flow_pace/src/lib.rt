//! Runs a network at the pace of its work: its owner does the events while they are short, and a crew does them while they are long.
//!
//! Whoever hands a message to another thread pays some hundred nanoseconds for it, whatever is done with the message there. So a crew is the
//! quicker one only where events take long, and nobody can tell that of a network before. It is watched: events are counted against the
//! milliseconds of processor time that their owner uses, and judged every few of these. A crew goes on for a while, and then the owner
//! judges again. Each way of doing events is a lawful one, so the judgement may be wrong: it costs time, and nothing else.
//!
//! Proved: all that is promised of `run_workers`, and with one worker what `settle` promises.
//! Tested: long works by 1, 2 and 8 workers; that all tables of networks come to their reports where a crew does
//! every event.
//! Neither: that a crew does anything, and when; how many events were done where several workers stop.
#![tactic(auto)]

mod hand_over;
mod pace;
mod run;
mod short;
mod used;

pub use run::{Start, run_paced};
