//! The source's side of links for a block that copies: each link is given a copy of its own of one element at a time.
//!
//! A [`Spread`] keeps the element, and knows of each link whether it *owes*: whether its target still has to be given
//! the element, or to answer for it. Nobody owes any more where the element may be overwritten, and while somebody owes, it
//! is left. Each link has an offer of its own, and the targets do not wait for one another. As at an outlet there are two
//! kinds of call: a driver names the place of an end, and a caller in the place of the targets names a link.
//!
//! A block either overwrites its element, or takes one element in all. They differ in when a link has answered:
//!
//! what is seen of its target   a block that overwrites   a block that takes once
//! it was given the element     answered                  answered
//! it takes no more             answered                  answered
//! it put the element off       answered                  owes
//! it declined the element      answered                  owes, and is not offered it again
//! the link ended               as before                 as before
//!
//! A link that is cut or over, or whose predicate turns the element away, never owes it.
//!
//! Proved: each call is an exact function on the spread as plain data (specs/Spread.antt, ByLink.antt). Each link has
//! some of the elements, in order and once each, all admitted and within its limit, and each other element has its
//! account there.
//! Tested: that calls which take memory succeed where it is ample.
#![tactic(auto)]

mod end;
mod ends;
mod laws;
mod share;
mod spread;

pub use end::CopyEnd;
pub use laws::{
    calls_keep_the_law, each_link_has_its_accounts, each_link_has_its_copies,
    next_moves_are_allowed, offers_go_in_order,
};
pub use share::Share;
pub use spread::Spread;
