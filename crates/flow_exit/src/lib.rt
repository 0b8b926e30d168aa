//! The end of a link that leads out of a network: a caller receives there what comes, one message at a time.
//!
//! where the end stands        what it does next
//! an offer                    wants it where a receive waits and nothing is kept; else postpones it
//! a message that was posted   wants it likewise; else turns it down
//! an offer that it postponed  consumes it where a receive waits and nothing is kept
//! the message in the slot     takes it out
//! the message in hand         keeps it, until it is received
//!
//! It never refuses and never reserves. Contracts see an `ExitState` (`specs/Exit.antt`). When an exit is in order, and that
//! each call keeps it so, is in `specs/ExitKeeps.antt`.
//!
//! Proved: each call is its definition in specs/Exit.antt, and keeps the end in order; what its caller does changes
//! nothing that the link knows.
//! Tested: that calls succeed where memory is ample.
#![tactic(auto)]

mod exit_end;
mod laws;

pub use exit_end::ExitEnd;
pub use laws::exits_keep;
