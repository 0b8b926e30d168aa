//! A block that a caller drives by hand, over any calls: laws on plain data, without code.
//!
//! The calls are those that all blocks have in common, by the name of a link, and that a block is asked whether it has ended. What
//! the laws ask of a call is what its contract asks, and what it does is what its contract says. So whoever makes such calls has the
//! laws of what the block took, made and gave. Those of what it keeps ask, as ports count, that nothing comes to a port that
//! completes, or to a block that faults; where each end at the ports is the one that its link names, the contract asks the same.
//!
//! The states are those of [`flow_kinds`] and of what stands below it: a block, a batched join with the order in which its
//! messages came, a join that reserves with its round, a block with a function and its work.
//!
//! A caller who knows a block by its traits alone has laws of traits: by [`SteadyTarget`] and [`PropagatorBlock`] its ports stay,
//! whatever is called.
//!
//! Proved: laws alone, over any list of calls by hand: what was taken is given, left or held, once each and in order;
//! rows, tuples and groups are whole; links get what they admit, in order and within their limits; results are those
//! of their messages. Which ports a block has never changes.
//! Neither: that a block which is driven so comes to its end.
#![tactic(auto)]

mod laws;
mod steady;

pub use laws::{
    copies_are_given, groups_are_kept, messages_are_kept, messages_go_by_rule,
    messages_go_in_order, new_ports_took_nothing, reserved_messages_are_kept, work_is_kept,
    write_once_takes_one,
};
pub use steady::{PropagatorBlock, SteadyTarget};
