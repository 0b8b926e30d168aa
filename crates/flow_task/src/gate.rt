//! What each job passes, in place or in a lane.

/// A gate through which each job goes: the thread that does a job calls it before and after, with the number of the block and the ticket
/// of the job. It may hold the thread up.
pub trait Gate {
    /// The job is about to be done.
    fn before(&self, block: usize, ticket: u64);

    /// The job was done, or was refused memory: then it comes once more.
    fn after(&self, block: usize, ticket: u64);
}

/// A gate that holds nothing up.
#[derive(Clone, Copy, Default)]
pub struct OpenGate;

impl Gate for OpenGate {
    fn before(&self, _block: usize, _ticket: u64) {}

    fn after(&self, _block: usize, _ticket: u64) {}
}

/// How a block does its jobs.
#[derive(Drop)]
pub(crate) struct JobPolicy<'g, G: Gate> {
    /// Whether its own task does them.
    pub(crate) in_place: bool,
    /// The gate through which they go.
    pub(crate) gate: &'g G,
}
