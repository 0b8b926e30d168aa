//! Values that flow through a network, and the functions that blocks apply to them.
//!
//! Proved: values, texts and rows are equal exactly where their contents are, and a copy is equal. Each of the twelve
//! steps, their order and their faults are those of specs/Step.antt and Function.antt; the texts of steps and
//! predicates are read as specs/Grammar.antt and When.antt spell them; what a journal keeps of a value is that value.
//! Tested: that a value takes 24 bytes; that calls succeed where memory is ample.
//! Neither: what `Debug` and the errors print; that a text is copied whole which is shared more often than can be
//! counted.
#![tactic(auto)]

mod grammar;
mod kept;
mod message;
mod number;
mod parcel;
mod plain;
mod short;
mod step;
mod steps;
mod value;
mod when;
mod work;

pub use kept::{Kept, Seen, ValueRef};
pub use message::{MAX_ID, MessageHeader, MessageStatus};
pub use number::is_digits;
pub use parcel::Parcel;
pub use plain::is_plain_byte;
pub use step::Step;
pub use steps::{Steps, StepsError};
pub use value::{Row, Text, Value};
pub use when::When;
pub use work::{Runs, Work, WorkFault};
