//! The kinds of blocks, by the words that networks are written with.
use std::fmt;

/// What a block does with its messages.
#[derive(Clone, Copy)]
pub enum Kind {
    Buffer,
    Broadcast,
    WriteOnce,
    Action,
    Transform,
    TransformMany,
    Batch,
    Join,
    BatchedJoin,
}

impl Kind {
    /// The word that a network has for the kind.
    pub fn word(self) -> &'static str {
        match self {
            Kind::Buffer => "buffer",
            Kind::Broadcast => "broadcast",
            Kind::WriteOnce => "write_once",
            Kind::Action => "action",
            Kind::Transform => "transform",
            Kind::TransformMany => "transform_many",
            Kind::Batch => "batch",
            Kind::Join => "join",
            Kind::BatchedJoin => "batched_join",
        }
    }

    /// Whether such a block applies a function to each message, and may fault by it.
    pub fn has_work(self) -> bool {
        match self {
            Kind::Action | Kind::Transform | Kind::TransformMany => true,
            Kind::Buffer
            | Kind::Broadcast
            | Kind::WriteOnce
            | Kind::Batch
            | Kind::Join
            | Kind::BatchedJoin => false,
        }
    }

    /// Whether such a block gives a copy of what it has to each of its links.
    pub fn copies(self) -> bool {
        match self {
            Kind::Broadcast | Kind::WriteOnce => true,
            Kind::Buffer
            | Kind::Action
            | Kind::Transform
            | Kind::TransformMany
            | Kind::Batch
            | Kind::Join
            | Kind::BatchedJoin => false,
        }
    }

    /// Whether such a block that is done with some messages is as if they had not been.
    pub fn keeps_nothing(self) -> bool {
        match self {
            Kind::Buffer | Kind::Action | Kind::Transform | Kind::TransformMany | Kind::Join => {
                true
            }
            Kind::Broadcast | Kind::WriteOnce | Kind::Batch | Kind::BatchedJoin => false,
        }
    }
}

impl fmt::Display for Kind {
    fn fmt<W: fmt::Write>(&self, f: &mut fmt::Formatter<W>) -> fmt::Result {
        f.write_str(self.word())
    }
}
