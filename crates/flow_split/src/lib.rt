//! Cuts records into parts, each of which is run by itself.
//!
//! Proved: the parts of `cut_records`, joined, are the text; each key has one part. Safe and total.
//! Tested: that no cut is within a record, and that keys stay in order, or are refused or aligned.
#![tactic(auto)]

mod align;
mod by_key;
mod cut;
mod deal;
mod differ;
mod entry;
mod fault;
mod keyed;
mod lists;
mod records;
mod told;

pub use by_key::{KeyFault, KeyedPieces, Pairing, deal_by_key};
pub use cut::cut_records;
pub use deal::{Dealt, deal_in_order, deal_in_rows, part_of_key};
pub use differ::Difference;
pub use entry::Entry;
pub use fault::{DealFault, PieceFault};
pub use keyed::Keyed;
pub use records::Records;
