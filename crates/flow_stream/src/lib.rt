//! Runs a network over records that have no end, as many at a time as a chunk has, and hands on what the actions of each chunk recorded.
//!
//! ```
//! let mut stream = Stream::new(alloc, plan, reader, 1_000, Form::Csv);
//! for _ in 0..u64::MAX {
//!     let (next, count) = stream.advance(rt, alloc, 4, &mut writer)?;
//!     stream = next;
//!     if count == 0 {
//!         break;
//!     }
//! }
//! ```
//!
//! What comes of a chunk is what comes of its records alone. Whether chunks joined are a run of the whole goes by the network: `flow_outcome`
//! tells it as it does of parts.
//!
//! Proved: what is written of a chunk is that of a lawful run of its text's records, which has gone through, whatever the number of workers
//! (specs/Chunk.antt); as a report, it is the report of that run. Safe.
//! Tested: where records end, what is written as CSV and JSON, which records are told where a chunk is refused, that a stream goes on from
//! a record, that several workers come to what one comes to.
//! Neither: that texts, joined, are the whole; that a call which waits for threads returns.
#![tactic(auto)]

mod fault;
mod form;
mod json;
mod run;
mod stream;
mod table;
mod texts;

pub use fault::{ChunkFault, Span, StreamFault};
pub use form::Form;
pub use stream::Stream;
