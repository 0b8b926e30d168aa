//! A plan as its blocks and the links between them.
ghost use Rattle.std.specs.Prelude.{◌≡◌, IsTrue};
ghost use Rattle.flow_value.specs.When.{admits};
ghost use Rattle.flow_value.specs.declared.value.Value.TheVariants.{Int};
ghost use Rattle.flow_value.specs.declared.when.When.TheVariants.{Any};
ghost use Rattle.flow_hints.specs.Told.{AdmitsNoMore};

use flow_link::{BlockDef, LinkSource, LinkTarget, Plan};
use flow_value::{Steps, When};
use std::alloc::{AllocError, Global};

/// A link from a block to a port of another.
#[derive(Clone, Copy)]
pub(crate) struct Way {
    pub(crate) link: usize,
    pub(crate) source: usize,
    pub(crate) target: usize,
    pub(crate) port: u32,
    pub(crate) when: When,
    pub(crate) max: Option<u32>,
    pub(crate) propagate: bool,
}

/// Whether a predicate admits each message.
pub(crate) fn is_any(when: When) -> bool
    ensures { IsTrue result → when ≡ Any }
{
    match when {
        When::Any => true,
        When::Even | When::Odd | When::Lt(_) | When::Ge(_) | When::Eq(_) => false,
    }
}

/// Whether it is sure that the later of two predicates admits no value that the earlier one does not admit.
pub(crate) fn admits_no_more(later: When, earlier: When) -> bool
    ensures { IsTrue result → AdmitsNoMore later earlier }
{
    match later {
        When::Any => is_any(earlier),
        When::Eq(number) => admits_number(earlier, number),
        When::Even => matches!(earlier, When::Any | When::Even),
        When::Odd => matches!(earlier, When::Any | When::Odd),
        When::Lt(bound) => match earlier {
            When::Any => true,
            When::Lt(other) => bound <= other,
            When::Even | When::Odd | When::Ge(_) | When::Eq(_) => false,
        },
        When::Ge(bound) => match earlier {
            When::Any => true,
            When::Ge(other) => other <= bound,
            When::Even | When::Odd | When::Lt(_) | When::Eq(_) => false,
        },
    }
}

// Whether a predicate admits this number.
fn admits_number(when: When, number: i64) -> bool
    ensures { result ≡ admits when (Int number) }
{
    match when {
        When::Any => true,
        When::Even => number % 2 == 0,
        When::Odd => number % 2 != 0,
        When::Lt(bound) => number < bound,
        When::Ge(bound) => bound <= number,
        When::Eq(other) => number == other,
    }
}

/// The blocks of a plan and the links between them.
#[derive(Drop)]
pub(crate) struct Ways<'p> {
    pub(crate) blocks: Vec<&'p BlockDef<Steps>>,
    pub(crate) ways: Vec<Way>,
}

/// The blocks of a plan and the links between them.
pub(crate) fn ways_of<'p>(alloc: Global, plan: &'p Plan<Steps>) -> Result<Ways<'p>, AllocError> {
    let mut blocks = Vec::new(alloc);
    for number in 0..plan.block_count() {
        blocks.push(plan.block(number))?;
    }
    let mut ways = Vec::new(alloc);
    for link in 0..plan.link_count() {
        let found = plan.link(link);
        if let (LinkSource::Block(source), LinkTarget::Port(target, port)) = (
            found.source,
            found.target,
        ) {
            ways.push(Way {
                link: link as usize,
                source,
                target,
                port: u32::from(port),
                when: found.when,
                max: found.max,
                propagate: found.propagate,
            })?;
        }
    }
    Ok(Ways { blocks, ways })
}

impl<'p> Ways<'p> {
    /// The block with this number.
    pub(crate) fn block(&self, number: usize) -> Option<&'p BlockDef<Steps>> {
        self.blocks.get(number).copied()
    }

    /// The links into this block.
    pub(crate) fn into_block(&self, alloc: Global, block: usize) -> Result<Vec<Way>, AllocError> {
        let mut into = Vec::new(alloc);
        for way in &self.ways {
            if way.target == block {
                into.push(*way)?;
            }
        }
        Ok(into)
    }

    /// The links out of this block, in order.
    pub(crate) fn out_of(&self, alloc: Global, block: usize) -> Result<Vec<Way>, AllocError> {
        let mut out = Vec::new(alloc);
        for way in &self.ways {
            if way.source == block {
                out.push(*way)?;
            }
        }
        Ok(out)
    }

    /// Whether the block gives a copy of each message to each of its links.
    pub(crate) fn copies(&self, block: usize) -> bool {
        match self.block(block) {
            Some(block) => !block.kind.unit().shares(),
            None => false,
        }
    }

    /// Whether the block takes each message at once, as long as it takes any.
    pub(crate) fn takes_at_once(&self, block: usize) -> bool {
        match self.block(block) {
            Some(block) => {
                block.capacity.is_none()
                    && !block.kind.unit().copies_one()
                    && !block.kind.unit().reserves(block.greedy)
            }
            None => false,
        }
    }
}

/// How many ports a block has.
pub(crate) fn port_count(block: &BlockDef<Steps>) -> u32 {
    block.kind.unit().port_count(block.ports)
}
