//! Networks that are drawn in a line, for tests: blocks of each kind with their options, and links; with records for them.
//!
//! `a* buffer` is a block that is an input, `t transform(int+add 1)` one with a function of two steps, and `j join ports 3` one with an
//! option. `a => j port 1` is a link that propagates, `a -> j` one that does not. Commas stand between them.
//!
//! Of records `a,1` is a text that is posted to the input `a`, and `a=1` a number. `a!5` ends the input with that fault, and `a?`
//! leaves it open. An input of which neither is said is complete.
#![tactic(auto)]

mod drafts;
mod drawn;
mod records;

pub use drafts::draft;
pub use drawn::{Drawn, read_drawn, split_word};
pub use records::inputs;
