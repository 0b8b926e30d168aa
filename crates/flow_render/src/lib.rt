//! A page of HTML that stands alone, with no script and nothing from elsewhere: a network as a picture in layers, what became of
//! it by the report of a run, and for each block what it took, held, gave and left.
//!
//! Proved: safe and total, whatever the network and the report; so the layers of a picture are found in a bounded
//! number of turns, also where links lead in a circle.
//! Tested: that texts have their escapes, which blocks come first, and how much of a list is shown, in
//! flow_tool_rows.
//! Neither: that no two boxes overlap, and that a link leads to the right.
#![tactic(auto)]

mod block_lists;
mod columns;
mod escape;
mod fault;
mod graph;
mod layers;
mod layout;
mod line;
mod means;
mod order;
mod page;
mod picture;
mod stack;
mod style;
mod tone;

pub use fault::PageFault;
pub use page::write_page;
