//! What can happen next in a network: a move of a link, or what a block does by itself.
use flow_exec::{Job, JobResult};
use flow_link::{LinkId, Move, PortId};
use flow_value::Runs;

/// One thing that can happen in a network with works of type `W`, at a link or at a block, by their numbers.
#[derive(Drop)]
pub enum Event<W: Runs> {
    /// An end of this link makes a move.
    Link(LinkId, Move),
    /// This block, which has no function, makes its next outputs: a buffer hands a message on, a broadcast takes up an
    /// element to copy, a batch makes a row, a join a tuple.
    Make(usize),
    /// This block works on one more of the messages that it holds.
    Begin(usize),
    /// The result of a job comes back to this block.
    End(usize, JobResult<W>),
    /// This port of this block takes nothing any more.
    Complete(usize, PortId),
    /// This block ends by a fault.
    Fault(usize),
    /// This block has given all, and ends.
    Done(usize),
}

/// What came of an event that happened.
#[derive(Drop)]
pub enum Stepped<W> {
    /// It is done.
    Moved,
    /// A block has begun this job.
    Began(Job<W>),
}
