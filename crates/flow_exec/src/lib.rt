//! Jobs: what a block with a function works on, outside its network.
//!
//! A [`Job`] owns its message and a share of the block's work, so any thread may run it. It gives a [`JobResult`], which
//! the block takes back; results come out in the order of the messages, whenever they come back.
//!
//! An [`Execution`] is a block with a function, for a caller who drives it by hand: messages come by the calls that all
//! blocks have in common, `begin` gives a job of the oldest message that is not worked on yet, and `end` takes its
//! result back. A block without a function is a [`flow_block::Block`] alone.
//!
//! Microsoft: `ActionBlock`, `TransformBlock`, `TransformManyBlock`; the tasks in which an execution block calls its
//! delegate, `ExecutionDataflowBlockOptions`.
//!
//! Proved: a result is what the job's own work makes of its message, as a fact of its type; an `Execution` takes a
//! result only of its own job, and then goes on as with its own work.
//! Tested: that jobs run on other threads; that calls succeed where memory is ample.
#![tactic(auto)]

mod execution;
mod fault;
mod job;
mod result;
mod traits;
mod work;

pub use execution::Execution;
pub use fault::EndFault;
pub use job::Job;
pub use result::JobResult;
pub use work::{answer_of, is_identity, value_of};
