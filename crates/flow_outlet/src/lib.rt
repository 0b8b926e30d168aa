//! The source's side of links: what a block has to give, and over which link it goes.
//!
//! An [`Outlet`] offers the oldest of its messages, the head, over one link after another in their order, and gives it
//! once. It has two kinds of call. A driver, which has the other ends too, names the place of an end: it asks what the
//! end does next, prepares an offer, makes the move, and looks at the phase of the link. A caller in the place of the
//! targets names a link, and tells what its target answered or takes. Where a target takes the head at once, one call
//! sends it: the offer, the gift and the looks in one.
//!
//! Where several results go in together or not at all, memory and ids are set aside for all of them first.
//!
//! stage of an end     its next move
//! free                it offers the head in its turn, or ends
//! offered, crossing   none: it waits for its target
//! postponed           it withdraws what is not the head any more, or all where the block could stop but for it
//! accepted, claimed   it gives
//! wished for          it gives the head, or denies what is gone or kept for another, while no offer is out
//! asked for           it keeps the head for the target, or denies what is gone or kept for another, while no offer is out
//! kept                none: it waits for its target, and no other link gets the head
//! refused, ended      none for good
//!
//! Where a target gives up the head that was kept for it, all offers of it that wait are withdrawn, and it is offered anew.
//!
//! Proved: each call is an exact function on the outlet as plain data (specs/Outlet.antt, ByLink.antt). What was put
//! is what was given, in order, followed by what is left; each message goes over the first link that takes it; a kept
//! head is given to nobody else; ids are refused exactly where they are used up.
//! Tested: that calls which take memory succeed where it is ample.
#![tactic(auto)]

mod by_link;
mod ends;
mod fault;
mod group;
mod laws;
mod outlet;

pub use ends::{LinkRule, OutEnd};
pub use fault::OutletFault;
pub use group::Group;
pub use laws::{
    calls_by_link_keep_the_law, calls_keep_the_law, next_moves_are_allowed, nothing_is_lost,
    offers_go_in_order, weights_come_in_time,
};
pub use outlet::Outlet;
