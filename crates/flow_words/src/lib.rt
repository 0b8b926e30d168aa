//! What tests write values with: words, and rows of tables.
#![tactic(auto)]

mod words;

pub use words::{atom, cells, row_of, values_of};
