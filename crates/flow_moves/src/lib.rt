//! One event in a network of blocks: what each end of a link and each block would do next, and what becomes of the
//! network when it does.
//!
//! A [`Parts`] is all blocks, inputs, exits and links of a network, by their numbers. Each event is one call, which may be
//! refused where memory or message ids are out; then nothing has changed. [`NetParts`] is what a network is made of when
//! it is taken apart, and an [`Agenda`] where something may be able to happen in it: a network on one owner and one that
//! is scattered over threads both stand on these.
//!
//! Proved: each event and each look is exactly what the definitions say (`after` of flow_core), and a message over a
//! link or a job in one call what its events come to, one after another. Where memory or ids are out, nothing has
//! changed. The ways of a network's parts are those of its plan; a spot that is taken from an agenda is no longer on it.
//! Tested: that calls succeed where memory is ample.
//! Neither: that an input without an id for its next value does nothing next; what stands on an agenda: it is a hint.
#![tactic(auto)]

mod agenda;
mod apart;
mod ends;
mod entries;
mod fresh;
mod laws;
mod next;
mod own;
mod parts;
mod pass;
mod sends;

pub use agenda::{Agenda, Spot};
pub use apart::NetParts;
pub use ends::{look_exit, move_exit, move_in, move_input, next_of_exit, shares_out};
pub use fresh::{exits_of, lines_of, nodes_of};
pub use laws::{
    blocks_are_planned, links_are_there, moves_are_ready, moves_go_along_ways,
    next_moves_may_happen, nothing_next_is_still, passes_may_happen, posts_go_along_ways,
};
pub use next::{link_in_front, link_to_consume, link_to_offer};
pub use own::finish_job;
pub use parts::{Parts, is_of_source};
