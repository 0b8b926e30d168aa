//! The end of a link that leads into a network: values are posted there, before a run or by a caller while it runs.
//!
//! where the end stands          what it does next
//! free, and a value waits       offers it
//! free, and all is given        ends the link, where it is to end
//! the value is wanted           gives it
//! a value that was posted       waits for the target, which wants it or turns it down
//!
//! A caller begins one value at a time and is told what became of each. What the target turned down goes back, and so does
//! each value that is begun after the target has refused, or after the input is to end.
//!
//! Contracts see an `InputState` (`specs/Input.antt`), and its caller's part of it as a port does (`specs/Sends.antt`). When an
//! input is in order, and that each call keeps it so, is in `specs/InputKeeps.antt`.
//!
//! Proved: each call is an exact function on the input as plain data (specs/Input.antt, Sends.antt), and keeps it in
//! order; what the network does leaves what is posted, but for a value that is turned down; what the caller is told
//! became of a value became of it.
//! Tested: that calls succeed where memory is ample.
#![tactic(auto)]

mod caller;
mod input;
mod laws;

pub use input::Input;
pub use laws::{
    calls_keep_inputs_in_order, inputs_are_parts, inputs_tell_what_became_of_values,
    posted_lists_stay,
};
