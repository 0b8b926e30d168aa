//! A network is run open: the caller's thread sends into its inputs, another receives at its exits, and others turn its tasks.
//!
//! a value       is with                comes there
//! not given     its sender             as the caller made it
//! under way     the network            when its sender gives it
//! accepted      the network            when its block takes it
//! refused       its sender, again      when its block takes none any more, or there is no id or memory for it
//! received      its receiver           when the block at the exit gave it
//!
//! What is sent and what is received is known by contracts (`specs/Sends.antt`, `specs/Takes.antt`). When the run is over is a hint, of which
//! no contract speaks (`calm.rt`).
//!
//! Proved: with 1 to 64 workers and for every schedule the network that comes back is lawful, with its plan, and each
//! journal goes on; what a sender gave was accepted, is under way, or comes back, once each and in order; a receiver
//! was called with what came over its exit, once each and in order. Where memory is out, network or parts come back,
//! with all senders and receivers.
//! Tested: runs from two inputs into one exit, a sender that is refused, and numbers of senders that do not match, in
//! flow_turn_rows; the example on threads.
//! Neither: that a run ends, how soon, and that senders and receivers are called at all. Where no thread can be made,
//! it waits for ever.
#![tactic(auto)]

mod calm;
mod fault;
mod open;
mod receivers;
mod sender;
mod senders;
mod tasks;

pub use fault::{Ended, OpenFault, Opened};
pub use open::run_open;
pub use sender::{Sender, SenderState};
