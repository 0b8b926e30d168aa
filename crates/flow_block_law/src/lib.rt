//! Laws of blocks: what follows from the calls of `flow_block` as functions on plain data, without code.
//!
//! `specs/NodeLaw.antt` says when a block is in order. The laws say that a block in which nothing has happened is in
//! order, that each call which may be made keeps it so, and that what a block would do next is a call which it may make.
//! They say what a call changes in what the ends of links know, that a block in order keeps what each block of a lawful run
//! keeps, and that one with nothing to do rests. There are laws of their own for blocks that copy, for joins, and for the
//! groups of batched joins.
//!
//! Code that only calls blocks needs `flow_block` alone.
//!
//! Proved: laws alone: each call that may be made keeps a block in order, for all nine kinds; what a block would do
//! next may be made and has its cause; a block in order keeps what a lawful run asks of it, and rests where its links
//! do.
#![tactic(auto)]

mod copies_laws;
mod group_laws;
mod laws;
mod tuple_laws;

pub use copies_laws::{
    copiers_are_parts, copiers_with_nothing_to_do_rest, copies_move_views, next_copies_have_causes,
    next_copies_may_be_made,
};
pub use group_laws::{
    batched_joins_are_parts, batched_joins_rest, calls_keep_group_loads, calls_keep_groups,
    calls_keep_groups_in_order, calls_keep_groups_whole, fresh_batched_joins_are_in_order,
    fresh_blocks_have_made_nothing, ports_tell_of_groups,
};
pub use laws::{
    blocks_in_order_are_lawful, blocks_in_order_stand_as_their_ends,
    blocks_with_nothing_to_do_rest, calls_keep_blocks_in_order, calls_move_views,
    fault_of_the_lowest_link_counts, fresh_blocks_are_in_order, jobs_that_end_keep_blocks_in_order,
    next_moves_have_causes, next_moves_may_be_made,
};
pub use tuple_laws::joins_are_parts;
