//! A network's front door for programs: values are posted to inputs by their names, and what became of a block is asked by
//! its name.
//!
//! ```
//! let mut inputs = Inputs::of(alloc, plan)?;
//! inputs.post("prices", Value::Int(12))?;
//! let mut net = inputs.start(alloc)?;
//! net.settle(alloc, 10_000)?;
//! let recorded = record_of(&net, "ledger");
//! ```
//!
//! Proved: `post` and `end` put what they are given at the input of that name, or refuse it unchanged; `start` gives
//! a network what it asks for; records and states are those of the block of that name.
//! Tested: that calls succeed where memory is ample.
#![tactic(auto)]

mod inputs;
mod named;
mod post;
mod refused;

pub use inputs::Inputs;
pub use named::{record_of, state_of};
pub use refused::{EndRefused, PostRefused};
