//! Laws of links and of whole runs, each on a function that does nothing, with examples: runs that are lawful and quiet,
//! and for each wrong that the definitions refuse a run that shows it.
//!
//! No crate stands on this one. The definitions stand in [`flow_link`] (`LinkOk`) and [`flow_lawful`] (`Lawful`, `Quiet`),
//! and so do the lemmas from which others prove: a change of an example has nothing but the examples proved anew.
//!
//! Proved: laws alone: moves and looks keep a link in order; a network of parts in order is lawful, and quiet where
//! they rest; of 21 good and 39 wrong runs each is told apart, each wrong one by exactly one test.
#![tactic(auto)]

mod laws;

pub use laws::{
    counts_begin_anywhere, faults_come_in_order, good_runs_are_lawful, journals_grow,
    lawful_by_parts, laws_hold_in_mid_move, links_in_order_tell, links_lead_well,
    looks_keep_links_in_order, moves_keep_links_in_order, parts_rest_while_messages_wait,
    quiet_by_parts, stages_are_kept, words_differ, wrong_runs_are_refused,
};
