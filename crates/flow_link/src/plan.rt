//! A network that was checked: its blocks and links by their numbers, and what can be wrong with a draft.
ghost use Rattle.std.specs.Prelude.{◌≡◌, ◌<◌, count_by, length, HoldsAt, position};
ghost use Rattle.std.specs.Str.{bytes_eq};
ghost use Rattle.flow_link.specs.Fault.{fault_number};
ghost use Rattle.flow_link.specs.Layout.{IsLaidOut};
ghost use Rattle.flow_link.specs.WellFormed.{IsWellFormed};
ghost use Rattle.std.specs.Coded.{codes};
ghost use Rattle.flow_link.specs.contracts.plan.Link as link;

use crate::draft::BlockDef;
use flow_value::When;
use std::fmt;
use thiserror::Error;

/// Names a link of a plan: the plan's own links in their order, then one for each input, then one for each exit.
pub type LinkId = u32;

/// Names a port of a block; the first is 0.
pub type PortId = u16;

/// Where the messages of a link come from.
#[derive(Clone, Copy, Debug, PartialEq, Eq)]
pub enum LinkSource {
    /// A block, by its number.
    Block(usize),
    /// The values that are posted to this block.
    Input(usize),
}

/// Where the messages of a link go to.
#[derive(Clone, Copy, Debug, PartialEq, Eq)]
pub enum LinkTarget {
    /// A port of a block, by their numbers.
    Port(usize, PortId),
    /// The caller, who receives from a block.
    Exit,
}

/// A link as it was checked.
#[derive(Clone, Copy, Debug, PartialEq, Eq)]
pub struct Link {
    pub source: LinkSource,
    pub target: LinkTarget,
    /// Which messages may cross.
    pub when: When,
    /// How many messages may cross, without bound where absent.
    pub max: Option<u32>,
    /// Whether the end of the source ends the target.
    pub propagate: bool,
}

/// What a fault of a draft stands at.
#[derive(Clone, Copy, Debug, PartialEq, Eq)]
pub enum Place {
    /// A block, by its number.
    Block(usize),
    /// A link of the draft, by its number.
    Link(usize),
}

impl fmt::Display for Place {
    fn fmt<F: fmt::Write>(&self, f: &mut fmt::Formatter<F>) -> fmt::Result {
        match self {
            Place::Block(block) => write!(f, "block {block}"),
            Place::Link(link) => write!(f, "link {link}"),
        }
    }
}

/// Why a draft is no plan. They are looked for in this order, each over the blocks and then the links.
#[derive(Clone, Copy, Debug, PartialEq, Eq, Error)]
pub enum PlanFault {
    /// There are more than 256 blocks or 1,024 links.
    #[error("there are more than 256 blocks or 1,024 links")]
    Limit,
    /// An earlier block has this block's name.
    #[error("block {0} has the name of an earlier block")]
    DuplicateName(usize),
    /// This link names a block that is not there.
    #[error("link {0} names a block that is not there")]
    UnknownBlock(usize),
    /// The target of this link has no such port.
    #[error("link {0} leads to a port that its target does not have")]
    Port(usize),
    /// The source of this link gives nothing.
    #[error("link {0} leaves a block that gives nothing")]
    NoOutput(usize),
    /// An option stands where its kind has none, is out of its range, or is wanting.
    #[error("{0} has an option that is wrong, or lacks one")]
    BadOption(Place),
    /// This batch has no room for a group.
    #[error("block {0} has no room for a group")]
    CapacityBelowSize(usize),
    /// One source leads into two ports of this reserving join.
    #[error("one source leads into two ports of block {0}, which reserves")]
    SharedSource(usize),
    /// Messages could go round for ever.
    #[error("messages could go round for ever")]
    Cycle,
}

impl PlanFault {
    /// The number by which a report names the fault: 1 to 9, in the order of the variants.
    pub fn number(self) -> u32
        ensures { result ≡ fault_number self }
    {
        match self {
            PlanFault::Limit => 1,
            PlanFault::DuplicateName(_) => 2,
            PlanFault::UnknownBlock(_) => 3,
            PlanFault::Port(_) => 4,
            PlanFault::NoOutput(_) => 5,
            PlanFault::BadOption(_) => 6,
            PlanFault::CapacityBelowSize(_) => 7,
            PlanFault::SharedSource(_) => 8,
            PlanFault::Cycle => 9,
        }
    }
}

/// A network that was checked.
///
/// Blocks have the numbers of their places in the draft. So have links; after them comes a link for each input, and
/// then one for each exit, both in the order of their blocks. Contracts see the plan as its layout. It is well-formed.
#[derive(Drop)]
pub struct Plan<W> {
    blocks: Vec<BlockDef<W>>,
    links: Vec<Link>,
    ghost well_formed: { IsWellFormed blocks.items links.items } by { Prim.hlevel (codes, link.the_row.coded) },
    ghost laid_out: { IsLaidOut blocks.items links.items } by { Prim.hlevel (codes, link.the_row.coded) },
}

impl<W> Plan<W> {
    ghost use Rattle.flow_link.specs.Planned.{layout_of};

    /// The plan with these blocks and links.
    pub(crate) fn new(blocks: Vec<BlockDef<W>>, links: Vec<Link>) -> Plan<W>
        requires well_formed { IsWellFormed blocks.items links.items }
        requires laid_out { IsLaidOut blocks.items links.items }
        ensures blocks { (layout_of result).blocks ≡ blocks.items }
        ensures links { (layout_of result).links ≡ links.items }
    {
        Plan { blocks, links }
    }

    /// How many blocks there are.
    pub fn block_count(&self) -> usize
        ensures { result ≡ length (layout_of self.now).blocks }
    {
        self.blocks.len()
    }

    /// The block with this number.
    pub fn block(&self, number: usize) -> &BlockDef<W>
        requires { number < length (layout_of self.now).blocks }
        ensures { HoldsAt (λ block. result.now ≡ block) (layout_of self.now).blocks number }
    {
        &self.blocks[number]
    }

    /// How many links there are, those of inputs and exits among them.
    pub fn link_count(&self) -> LinkId
        ensures { result ≡ length (layout_of self.now).links }
    {
        self.links.len() as LinkId
    }

    /// The link with this id.
    pub fn link(&self, id: LinkId) -> Link
        requires { id < length (layout_of self.now).links }
        ensures its_number { HoldsAt (λ link. result ≡ link) (layout_of self.now).links id }
        ensures well_formed { IsWellFormed (layout_of self.now).blocks (layout_of self.now).links }
        ensures laid_out { IsLaidOut (layout_of self.now).blocks (layout_of self.now).links }
    {
        self.links[id as usize]
    }

    /// How many inputs there are: of so many blocks values are posted.
    pub fn input_count(&self) -> usize
        ensures { result ≡ count_by (λ block. block.input) (layout_of self.now).blocks }
    {
        self.blocks.iter().filter(|block| block.input).count()
    }

    /// The number of the block with this name, if there is one.
    pub fn find(&self, name: &str) -> Option<usize>
        ensures { result ≡ position (λ block. bytes_eq block.name name.now) (layout_of self.now).blocks }
    {
        self.blocks
            .iter()
            .position(|block| block.name.as_str() == name)
    }
}
