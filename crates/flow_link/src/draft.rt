//! What a caller writes of a network, before anything of it is checked.
ghost use Rattle.std.specs.Prelude.{◌≡◌};
ghost use Rattle.flow_link.specs.Drafts.{block_alone, link_alone};

use flow_value::{Text, When};

/// What a block does with its messages.
#[derive(Clone, Copy, Debug, PartialEq, Eq)]
pub enum BlockKind {
    /// Hands each message on as it is.
    ///
    /// Microsoft: `BufferBlock<T>`.
    Buffer,
    /// Hands a copy of its newest message to each link.
    ///
    /// Microsoft: `BroadcastBlock<T>`.
    Broadcast,
    /// Takes one message, and hands a copy of it to each link.
    ///
    /// Microsoft: `WriteOnceBlock<T>`.
    WriteOnce,
    /// Applies its work to each message, and keeps the results.
    ///
    /// Microsoft: `ActionBlock<TInput>`.
    Action,
    /// Hands on the one result of each message.
    ///
    /// Microsoft: `TransformBlock<TInput, TOutput>`.
    Transform,
    /// Hands on all results of each message.
    ///
    /// Microsoft: `TransformManyBlock<TInput, TOutput>`.
    TransformMany,
    /// Hands on rows of a number of messages.
    ///
    /// Microsoft: `BatchBlock<T>`.
    Batch,
    /// Hands on rows of one message from each port.
    ///
    /// Microsoft: `JoinBlock`, with two ports or three.
    Join,
    /// Hands on rows of a number of messages, sorted by port.
    ///
    /// Microsoft: `BatchedJoinBlock`, with two ports or three.
    BatchedJoin,
}

/// A block as it is written; what is not written is absent.
#[derive(Debug, Drop)]
pub struct BlockDef<W> {
    pub name: Text,
    pub kind: BlockKind,
    /// Whether values are posted to the block from outside.
    pub input: bool,
    /// Whether the caller receives from the block.
    pub output: bool,
    /// How many messages it has room for, without bound where absent.
    pub capacity: Option<u32>,
    pub work: Option<W>,
    /// How many jobs may run at once, one where absent.
    pub lanes: Option<u32>,
    /// How many messages a group has.
    pub size: Option<u32>,
    /// How many ports a join or batched join has, two where absent.
    pub ports: Option<u32>,
    /// Whether a join takes each message at once; it does where this is absent.
    pub greedy: Option<bool>,
}

impl<W> BlockDef<W> {
    /// A block with this name and kind, and with no option. Options are set on it, or written before
    /// `..BlockDef::new(..)`.
    pub fn new(name: Text, kind: BlockKind) -> BlockDef<W>
        ensures { result ≡ block_alone name kind }
    {
        BlockDef {
            name,
            kind,
            input: false,
            output: false,
            capacity: None,
            work: None,
            lanes: None,
            size: None,
            ports: None,
            greedy: None,
        }
    }
}

/// A link as it is written, between two blocks that it names.
#[derive(Debug, Drop)]
pub struct LinkDef {
    pub from: Text,
    pub to: Text,
    /// The target's port, the first where absent.
    pub port: Option<u32>,
    /// Which messages may cross, all where absent.
    pub when: Option<When>,
    /// How many messages may cross, without bound where absent.
    pub max: Option<u32>,
    /// Whether the end of the source ends the target.
    pub propagate: bool,
}

impl LinkDef {
    /// A link between the blocks with these names, with no option.
    ///
    /// Microsoft: `LinkTo` with the default `DataflowLinkOptions`.
    pub fn new(from: Text, to: Text) -> LinkDef
        ensures { result ≡ link_alone from to }
    {
        LinkDef {
            from,
            to,
            port: None,
            when: None,
            max: None,
            propagate: false,
        }
    }
}

/// A network as it is written.
#[derive(Debug, Drop)]
pub struct Draft<W> {
    pub blocks: Vec<BlockDef<W>>,
    pub links: Vec<LinkDef>,
}
