//! The kinds of block, in one place: what each makes something of, whether it has a function, whether it gives, how many
//! ports it has, and which options it may have. All that goes by kinds asks here, or names them all.
ghost use Rattle.std.specs.Prelude.{◌≡◌};
ghost use Rattle.flow_link.specs.Kinds.{unit_of, has_work, gives_nothing, options_of, allows};
ghost use Rattle.flow_link.specs.Kinds.{makes_tuples, makes_groups, copies_each, copies_one, shares_out};
ghost use Rattle.flow_link.specs.Kinds.{ports_by_unit, reserves_by_unit};

use crate::draft::BlockKind;

/// The greatest capacity, and the greatest number of messages that may cross a link.
pub const MOST_MESSAGES: u32 = 2_147_483_647;

/// The most jobs that may run at once.
pub const MOST_LANES: u32 = 16;

/// The most messages that a group has.
pub const LARGEST_GROUP: u32 = 4096;

/// The fewest ports of a block with several.
pub const FEWEST_PORTS: u32 = 2;

/// The most ports of a block with several.
pub const MOST_PORTS: u32 = 3;

/// What a block makes something of at a time.
#[derive(Clone, Copy, Debug, PartialEq, Eq)]
pub enum BlockUnit {
    /// The message that waits longest.
    Message,
    /// The messages that wait longest at its port: as many as a row has.
    Row,
    /// The messages that wait longest at its ports, one from each.
    Tuple,
    /// The messages that came in first, whatever their ports: as many as a group has.
    Group,
    /// The message that waits longest, of which each link is given a copy.
    Copy,
    /// The one message that it takes, of which each link is given a copy.
    OneCopy,
}

/// Whether an option may be absent, must be there, or must not.
#[derive(Clone, Copy, Debug, PartialEq, Eq)]
pub enum OptionRule {
    Optional,
    Required,
    Forbidden,
}

/// Which options the blocks of a kind have.
#[derive(Clone, Copy, Debug, PartialEq, Eq)]
pub struct KindOptions {
    pub input: OptionRule,
    pub output: OptionRule,
    pub capacity: OptionRule,
    pub work: OptionRule,
    pub lanes: OptionRule,
    pub size: OptionRule,
    pub ports: OptionRule,
    pub greedy: OptionRule,
}

/// A block without a function, with one port.
const PLAIN: KindOptions = KindOptions {
    input: OptionRule::Optional,
    output: OptionRule::Optional,
    capacity: OptionRule::Optional,
    work: OptionRule::Forbidden,
    lanes: OptionRule::Forbidden,
    size: OptionRule::Forbidden,
    ports: OptionRule::Forbidden,
    greedy: OptionRule::Forbidden,
};

/// A block with a function.
const WORKING: KindOptions = KindOptions {
    work: OptionRule::Required,
    lanes: OptionRule::Optional,
    ..PLAIN
};

/// A block with several ports.
const WITH_PORTS: KindOptions = KindOptions {
    input: OptionRule::Forbidden,
    ports: OptionRule::Optional,
    ..PLAIN
};

impl BlockKind {
    /// What blocks of this kind make something of at a time.
    pub fn unit(self) -> BlockUnit
        ensures { result ≡ unit_of self }
    {
        match self {
            BlockKind::Buffer
            | BlockKind::Action
            | BlockKind::Transform
            | BlockKind::TransformMany => BlockUnit::Message,
            BlockKind::Batch => BlockUnit::Row,
            BlockKind::Join => BlockUnit::Tuple,
            BlockKind::BatchedJoin => BlockUnit::Group,
            BlockKind::Broadcast => BlockUnit::Copy,
            BlockKind::WriteOnce => BlockUnit::OneCopy,
        }
    }

    /// Whether they have a function.
    pub fn has_work(self) -> bool
        ensures { result ≡ has_work self }
    {
        match self {
            BlockKind::Action | BlockKind::Transform | BlockKind::TransformMany => true,
            BlockKind::Buffer
            | BlockKind::Broadcast
            | BlockKind::WriteOnce
            | BlockKind::Batch
            | BlockKind::Join
            | BlockKind::BatchedJoin => false,
        }
    }

    /// Whether they give nothing on.
    pub fn gives_nothing(self) -> bool
        ensures { result ≡ gives_nothing self }
    {
        match self {
            BlockKind::Action => true,
            BlockKind::Buffer
            | BlockKind::Broadcast
            | BlockKind::WriteOnce
            | BlockKind::Transform
            | BlockKind::TransformMany
            | BlockKind::Batch
            | BlockKind::Join
            | BlockKind::BatchedJoin => false,
        }
    }

    /// Which options they have.
    pub fn options(self) -> KindOptions
        ensures { result ≡ options_of self }
    {
        match self {
            BlockKind::Buffer | BlockKind::Broadcast => PLAIN,
            BlockKind::WriteOnce => KindOptions {
                capacity: OptionRule::Forbidden,
                ..PLAIN
            },
            BlockKind::Action => KindOptions {
                output: OptionRule::Forbidden,
                ..WORKING
            },
            BlockKind::Transform | BlockKind::TransformMany => WORKING,
            BlockKind::Batch => KindOptions {
                size: OptionRule::Required,
                ..PLAIN
            },
            BlockKind::Join => KindOptions {
                greedy: OptionRule::Optional,
                ..WITH_PORTS
            },
            BlockKind::BatchedJoin => KindOptions {
                capacity: OptionRule::Forbidden,
                size: OptionRule::Required,
                ..WITH_PORTS
            },
        }
    }
}

impl BlockUnit {
    /// Whether such a block makes tuples of the messages of its ports.
    pub fn makes_tuples(self) -> bool
        ensures { result ≡ makes_tuples self }
    {
        matches!(self, BlockUnit::Tuple)
    }

    /// Whether such a block makes groups of the messages of all its ports.
    pub fn makes_groups(self) -> bool
        ensures { result ≡ makes_groups self }
    {
        matches!(self, BlockUnit::Group)
    }

    /// Whether such a block copies each of its messages to all its links, over the last one.
    pub fn copies_each(self) -> bool
        ensures { result ≡ copies_each self }
    {
        matches!(self, BlockUnit::Copy)
    }

    /// Whether such a block takes one message in all, and copies that.
    pub fn copies_one(self) -> bool
        ensures { result ≡ copies_one self }
    {
        matches!(self, BlockUnit::OneCopy)
    }

    /// Whether the links of such a block share its outputs; else each is given a copy.
    pub fn shares(self) -> bool
        ensures { result ≡ shares_out self }
    {
        match self {
            BlockUnit::Message | BlockUnit::Row | BlockUnit::Tuple | BlockUnit::Group => true,
            BlockUnit::Copy | BlockUnit::OneCopy => false,
        }
    }

    /// How many ports such a block has, where it says this of its ports.
    pub fn port_count(self, ports: Option<u32>) -> u32
        ensures { result ≡ ports_by_unit self ports }
    {
        match self {
            BlockUnit::Tuple | BlockUnit::Group => ports.unwrap_or(FEWEST_PORTS),
            BlockUnit::Message | BlockUnit::Row | BlockUnit::Copy | BlockUnit::OneCopy => 1,
        }
    }

    /// Whether such a block reserves its messages before it takes them.
    pub fn reserves(self, greedy: Option<bool>) -> bool
        ensures { result ≡ reserves_by_unit self greedy }
    {
        match self {
            BlockUnit::Tuple => !greedy.unwrap_or(true),
            BlockUnit::Message
            | BlockUnit::Row
            | BlockUnit::Group
            | BlockUnit::Copy
            | BlockUnit::OneCopy => false,
        }
    }
}

impl OptionRule {
    /// Whether the option may be there, or absent.
    pub fn allows(self, present: bool) -> bool
        ensures { result ≡ allows self present }
    {
        match self {
            OptionRule::Optional => true,
            OptionRule::Required => present,
            OptionRule::Forbidden => !present,
        }
    }
}
