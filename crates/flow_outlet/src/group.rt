//! What one step of the block made, and how much room it gives back when it is wholly given.

/// A result that is not wholly given, and that has a weight.
#[derive(Clone, Copy, PartialEq, Eq)]
pub struct Group {
    /// The id of its last message.
    pub until: u64,
    /// How much room comes back with it.
    pub weight: u32,
}
