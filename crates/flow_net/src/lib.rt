//! Networks of blocks that one owner drives: what is posted goes from block to block until nothing can move.
//!
//! Proved: for every list of events the run is lawful, and quiet exactly where `is_quiet` and `settle` say so; each
//! answer and each refusal of `event` has its reason, and after a refusal nothing has changed (specs/Net.antt).
//! Entries and exits tell what was taken and given, once each and in order. `settle_with` promises what `settle`
//! does.
//! Tested: how many events runs take; that 1 to 64 workers come to the same; seeded random schedules.
//! Neither: that a network becomes quiet within a limit; in which lawful order messages go on; that a call which
//! waits for threads returns.
#![tactic(auto)]

mod crew;
mod drive;
mod due;
mod engine;
mod entry;
mod event;
mod exit;
mod fault;
mod find;
mod job;
mod laws;
mod make;
mod net;
mod order;
mod parts;
mod pass;
mod serve;
mod settled;
mod step;

pub use entry::NetEntry;
pub use event::{Event, Stepped};
pub use exit::NetExit;
pub use fault::NetFault;
pub use flow_link::{Ending, Mark, Posted, are_numbered};
pub use flow_moves::NetParts;
pub use laws::{blocks_fault_by_number, exits_want_nothing, works_fault_by_number};
pub use net::Net;
pub use settled::{Settled, State};
