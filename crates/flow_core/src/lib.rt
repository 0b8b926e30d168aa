//! A network of blocks and links, over every list of events: laws on plain states, without code.
//!
//! Proved: laws alone: each event that may happen keeps a network in order, for every list of events; a network in
//! order is lawful, and quiet where nothing may happen; what is kept for one target goes to no other.
#![tactic(auto)]

mod laws;

pub use laws::{
    accepted_was_taken, blocks_fault_by_number, ended_exits_stay,
    entry_calls_keep_networks_in_order, events_keep_networks_in_order, events_leave_what_is_posted,
    every_schedule_goes_well, exit_calls_keep_networks_in_order, fresh_networks_are_in_order,
    kept_messages_go_to_one, looks_make_ends_aware, networks_in_order_are_lawful,
    next_moves_are_allowed, posts_keep_networks_in_order, quiet_networks_are_at_rest,
    quiet_networks_are_quiet, received_was_given,
};
