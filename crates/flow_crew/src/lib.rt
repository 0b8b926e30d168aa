//! The crew that turns the tasks of a scattered network: threads that take tasks out of one queue, turn them, and put them back. Each
//! task comes back once, and its journal goes on from where it was.
//!
//! a task is     with               it comes there
//! given         the caller         at the call, and at the return
//! queued        the queue          when the round begins, and when its worker puts it back
//! held          a worker           when the worker takes it off the queue
//!
//! The queue has a rule, and each worker a pass for it that names the tasks which the worker holds. However they are weighed, the tasks of
//! the round are those in the queue and those that passes name: so none is lost, and none comes twice. Which worker turns which task, and
//! when, is open. The bell, on which workers sleep, is a hint: no contract speaks of it.
//!
//! Proved: with 1 to 64 workers and for every schedule: each task of a round comes back once, with a journal that
//! goes on; the network that `run_workers` returns is lawful, goes on from the old one, and is quiet exactly where
//! Quiet is answered; after a refusal it comes back, or all parts do.
//! Tested: rounds and runs by 1, 2, 4, 8 and 64 workers come to the reports that are due; limits; two jobs at one
//! time; memory refused at each growth.
//! Neither: that a round does anything, or ends in any time; how many events are left at a limit. It takes Threads,
//! Wait and Clock.
#![tactic(auto)]

mod bell;
mod crew;
mod item;
mod laws;
mod queue;
mod round;
mod rule;
mod run;
mod shift;
mod worker;

pub use round::turn_round;
pub use run::{RunFault, how_settled, run_shift, run_workers};
pub use shift::Shift;
