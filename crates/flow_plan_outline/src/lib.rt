//! The outline of a network that was checked: plain data, for what people are told of it.
//!
//! Proved: safe and total.
#![tactic(auto)]

use flow_link::{BlockDef, BlockKind, Link, LinkSource, LinkTarget, Plan};
use flow_outcome::{Admits, BlockOutline, Kind, LinkOutline, Outline};
use flow_value::When;
use std::alloc::{AllocError, Global};

/// The outline of a plan.
pub fn outline_of<W>(alloc: Global, plan: &Plan<W>) -> Result<Outline<'_>, AllocError> {
    let mut blocks = Vec::new(alloc);
    for number in 0..plan.block_count() {
        blocks.push(block_of(plan.block(number)))?;
    }
    let mut links = Vec::new(alloc);
    for id in 0..plan.link_count() {
        if let Some(link) = link_of(plan.link(id)) {
            links.push(link)?;
        }
    }
    Ok(Outline { blocks, links })
}

fn block_of<W>(block: &BlockDef<W>) -> BlockOutline<'_> {
    let kind = kind_of(block.kind);
    BlockOutline {
        name: block.name.as_str(),
        kind,
        input: block.input,
        exit: block.output,
        capacity: block.capacity,
        lanes: block.lanes,
        size: block.size,
        ports: match kind {
            Kind::Join | Kind::BatchedJoin => block.ports.unwrap_or(2),
            Kind::Buffer
            | Kind::Broadcast
            | Kind::WriteOnce
            | Kind::Action
            | Kind::Transform
            | Kind::TransformMany
            | Kind::Batch => 1,
        },
        reserves: block.kind.unit().reserves(block.greedy),
    }
}

fn kind_of(kind: BlockKind) -> Kind {
    match kind {
        BlockKind::Buffer => Kind::Buffer,
        BlockKind::Broadcast => Kind::Broadcast,
        BlockKind::WriteOnce => Kind::WriteOnce,
        BlockKind::Action => Kind::Action,
        BlockKind::Transform => Kind::Transform,
        BlockKind::TransformMany => Kind::TransformMany,
        BlockKind::Batch => Kind::Batch,
        BlockKind::Join => Kind::Join,
        BlockKind::BatchedJoin => Kind::BatchedJoin,
    }
}

/// The outline of a link between blocks; none of the link of an input or an exit. Those come last, so that the others keep
/// their numbers.
fn link_of(link: Link) -> Option<LinkOutline> {
    match (link.source, link.target) {
        (LinkSource::Block(from), LinkTarget::Port(to, port)) => Some(LinkOutline {
            from,
            to,
            port: u32::from(port),
            when: admits_of(link.when),
            max: link.max,
            propagate: link.propagate,
        }),
        (LinkSource::Input(_), _) | (_, LinkTarget::Exit) => None,
    }
}

fn admits_of(when: When) -> Admits {
    match when {
        When::Any => Admits::Any,
        When::Even => Admits::Even,
        When::Odd => Admits::Odd,
        When::Lt(bound) => Admits::Below(bound),
        When::Ge(bound) => Admits::AtLeast(bound),
        When::Eq(number) => Admits::Only(number),
    }
}
