//! Rows of a CSV file as records: for each column that is asked for, its text goes to an input.
//!
//! Proved: the records of a row are those of its columns, in order, and made only of rows that are wanted
//! (specs/Sends.antt); where a reader stands in a row is where csv stands; a bad row is set aside whole, or ends the
//! work.
//! Tested: which rows and columns are taken, that a bad row is told with line and column and set aside as it stands,
//! streams that fail, in flow_tool_rows.
#![tactic(auto)]

mod asked;
mod choice;
mod fault;
mod feeding;
mod marked;
mod one_row;
mod place;
mod records;
mod rows;
mod stand;

pub use asked::{Asked, Sent, Wanted};
pub use fault::{BadRow, ColumnFault, FeedFault, RowFault};
pub use feeding::{Fed, OnBad, feed};
pub use stand::{Stand, after};
