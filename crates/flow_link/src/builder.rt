//! Builds a draft in one expression: each call takes what was written so far, and gives it back with one thing more.
//!
//! ```
//! let plan = Draft::new(alloc)
//!     .block(BlockDef::named(alloc, "prices", BlockKind::Buffer)?.input())?
//!     .block(BlockDef::named(alloc, "parse", BlockKind::Transform)?.capacity(4).work(work))?
//!     .link(LinkDef::between(alloc, "prices", "parse")?.propagate())?
//!     .check(alloc)?;
//! ```
//!
//! An option that is set twice has what was set last. What is out of an option's range is found by the check.
ghost use Rattle.std.specs.Prelude.{◌≡◌, ◌++◌, ◌∷◌, [], IfOk, IfErr, OnOk, None, Some, true};
ghost use Rattle.flow_link.specs.Drafts.{block_alone, link_alone};
ghost use Rattle.flow_link.specs.Plan.{planned_links};
ghost use Rattle.flow_link.specs.PlanFaults.{first_plan_fault};
ghost use Rattle.flow_link.specs.Planned.{layout_of};
ghost use Rattle.flow_link.specs.Refusal.{IsWhy};

use crate::check::{PlanRefusal, plan_check};
use crate::draft::{BlockDef, BlockKind, Draft, LinkDef};
use crate::plan::Plan;
use flow_value::{Text, When};
use std::alloc::{AllocError, AllocFailed, Global};
use thiserror::Error;

/// A draft that is no plan, and why.
#[derive(Debug, Drop, Error)]
#[error("{why}")]
pub struct DraftRefused<W> {
    /// The draft as it was.
    pub draft: Draft<W>,
    pub why: PlanRefusal,
}

impl<W: Drop> BlockDef<W> {
    /// A block with this name and kind, and with no option.
    pub fn named(alloc: Global, name: &str, kind: BlockKind) -> Result<BlockDef<W>, AllocError>
        ensures { IfOk result (λ block. block ≡ block_alone name.now kind) }
    {
        Ok(BlockDef::new(Text::from_str(alloc, name)?, kind))
    }

    /// Values are posted to the block from outside.
    pub fn input(self) -> BlockDef<W>
        ensures { result ≡ record self { input = true } }
    {
        BlockDef {
            input: true,
            ..self
        }
    }

    /// The caller receives from the block.
    pub fn output(self) -> BlockDef<W>
        ensures { result ≡ record self { output = true } }
    {
        BlockDef {
            output: true,
            ..self
        }
    }

    /// The block has room for so many messages, from 1 to 2,147,483,647.
    ///
    /// Microsoft: `BoundedCapacity`.
    pub fn capacity(self, messages: u32) -> BlockDef<W>
        ensures { result ≡ record self { capacity = Some messages } }
    {
        BlockDef {
            capacity: Some(messages),
            ..self
        }
    }

    /// The block applies this work to each message.
    pub fn work(self, work: W) -> BlockDef<W>
        ensures { result ≡ record self { work = Some work } }
    {
        BlockDef {
            work: Some(work),
            ..self
        }
    }

    /// So many jobs may run at once.
    ///
    /// Microsoft: `MaxDegreeOfParallelism`.
    pub fn lanes(self, jobs: u32) -> BlockDef<W>
        ensures { result ≡ record self { lanes = Some jobs } }
    {
        BlockDef {
            lanes: Some(jobs),
            ..self
        }
    }

    /// A group has so many messages.
    ///
    /// Microsoft: `batchSize`.
    pub fn size(self, messages: u32) -> BlockDef<W>
        ensures { result ≡ record self { size = Some messages } }
    {
        BlockDef {
            size: Some(messages),
            ..self
        }
    }

    /// The join or batched join has so many ports.
    pub fn ports(self, count: u32) -> BlockDef<W>
        ensures { result ≡ record self { ports = Some count } }
    {
        BlockDef {
            ports: Some(count),
            ..self
        }
    }

    /// The join takes each message at once, or takes none before each port has one.
    ///
    /// Microsoft: `Greedy`.
    pub fn greedy(self, greedy: bool) -> BlockDef<W>
        ensures { result ≡ record self { greedy = Some greedy } }
    {
        BlockDef {
            greedy: Some(greedy),
            ..self
        }
    }
}

impl LinkDef {
    /// A link between the blocks with these names, with no option.
    pub fn between(alloc: Global, from: &str, to: &str) -> Result<LinkDef, AllocError>
        ensures { IfOk result (λ link. link ≡ link_alone from.now to.now) }
    {
        Ok(LinkDef::new(Text::from_str(alloc, from)?, Text::from_str(alloc, to)?))
    }

    /// The link leads to this port of its target; the first is 0.
    pub fn port(self, number: u32) -> LinkDef
        ensures { result ≡ record self { port = Some number } }
    {
        LinkDef {
            port: Some(number),
            ..self
        }
    }

    /// Only these messages may cross.
    pub fn when(self, when: When) -> LinkDef
        ensures { result ≡ record self { when = Some when } }
    {
        LinkDef {
            when: Some(when),
            ..self
        }
    }

    /// So many messages may cross, from 1 to 2,147,483,647.
    ///
    /// Microsoft: `MaxMessages`.
    pub fn max(self, messages: u32) -> LinkDef
        ensures { result ≡ record self { max = Some messages } }
    {
        LinkDef {
            max: Some(messages),
            ..self
        }
    }

    /// The end of the source ends the target.
    ///
    /// Microsoft: `PropagateCompletion`.
    pub fn propagate(self) -> LinkDef
        ensures { result ≡ record self { propagate = true } }
    {
        LinkDef {
            propagate: true,
            ..self
        }
    }
}

impl<W: Drop> Draft<W> {
    /// A draft of no block and no link.
    pub fn new(alloc: Global) -> Draft<W>
        ensures no_block { result.blocks.items ≡ [] }
        ensures no_link { result.links.items ≡ [] }
    {
        Draft {
            blocks: Vec::new(alloc),
            links: Vec::new(alloc),
        }
    }

    /// The draft with this block behind its others. Where there is no memory, both come back.
    pub fn block(
        mut self,
        block: BlockDef<W>,
    ) -> Result<Draft<W>, AllocFailed<(Draft<W>, BlockDef<W>)>>
        ensures joins { IfOk result (λ draft. draft.blocks.items ≡ self.blocks.items ++ block ∷ []) }
        ensures links_stay { IfOk result (λ draft. draft.links.items ≡ self.links.items) }
        ensures same_blocks { IfErr result (λ failed. failed.value.0.blocks.items ≡ self.blocks.items) }
        ensures same_links { IfErr result (λ failed. failed.value.0.links.items ≡ self.links.items) }
        ensures handed_back { IfErr result (λ failed. failed.value.1 ≡ block) }
    {
        match self.blocks.push(block) {
            Ok(()) => Ok(self),
            Err(AllocFailed { value: block }) => Err(AllocFailed {
                value: (self, block),
            }),
        }
    }

    /// The draft with this link behind its others. Where there is no memory, both come back.
    pub fn link(mut self, link: LinkDef) -> Result<Draft<W>, AllocFailed<(Draft<W>, LinkDef)>>
        ensures joins { IfOk result (λ draft. draft.links.items ≡ self.links.items ++ link ∷ []) }
        ensures blocks_stay { IfOk result (λ draft. draft.blocks.items ≡ self.blocks.items) }
        ensures same_blocks { IfErr result (λ failed. failed.value.0.blocks.items ≡ self.blocks.items) }
        ensures same_links { IfErr result (λ failed. failed.value.0.links.items ≡ self.links.items) }
        ensures handed_back { IfErr result (λ failed. failed.value.1 ≡ link) }
    {
        match self.links.push(link) {
            Ok(()) => Ok(self),
            Err(AllocFailed { value: link }) => Err(AllocFailed {
                value: (self, link),
            }),
        }
    }

    /// The plan of the draft, as `plan_check` makes it; the error keeps the draft.
    pub fn check(self, alloc: Global) -> Result<Plan<W>, DraftRefused<W>>
        ensures no_fault { OnOk result (first_plan_fault self.blocks.items self.links.items ≡ None) }
        ensures same_blocks { IfOk result (λ plan. (layout_of plan).blocks ≡ self.blocks.items) }
        ensures its_links { IfOk result
            (λ plan. (layout_of plan).links ≡ planned_links self.blocks.items self.links.items) }
        ensures why { IfErr result (λ refused. IsWhy (first_plan_fault self.blocks.items self.links.items) refused.why) }
        ensures handed_back { IfErr result (λ refused. refused.draft ≡ self) }
    {
        plan_check(alloc, self).map_err(|(draft, why)| DraftRefused { draft, why })
    }
}
