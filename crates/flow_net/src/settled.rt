//! How a run of a network stops, and what became of its blocks.

/// How a run stopped.
#[derive(Clone, Copy, Debug, PartialEq, Eq)]
pub enum Settled {
    /// Nothing can move any more.
    Quiet,
    /// As many events were done as the limit allows, and something can move yet.
    Stopped,
}

/// What became of a block.
#[derive(Clone, Copy, Debug, PartialEq, Eq)]
pub enum State {
    /// It takes messages.
    Open,
    /// It takes none, and works on what it has.
    Completing,
    /// It gave all that it made.
    Done,
    /// It faulted, with this number.
    Faulted(u32),
}
