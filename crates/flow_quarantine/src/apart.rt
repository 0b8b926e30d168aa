//! Whether records of a network do nothing to one another, so that a run of some of them tells of each.
//!
//! Say that some records went through together: no block faulted, each message was taken and worked on, and nothing stayed anywhere but
//! before and in joins. Then each of them passes alone, in a network for which this holds. What a record's value is made into, and over
//! which links that goes, follows from the value by itself:
//!
//! - A block works on each message by itself: no block is a batch, a batched join or a write-once block.
//! - A message goes over the first link that admits it, and no other. For no link counts messages (`max`). And a port that may refuse a
//!   message, or put it off, is led to by the last link of a block alone, so such a message has nowhere else to go. A port may do that where
//!   its block has a capacity, is a join, or has another way in, whose end may be the end of the block.
//! - A broadcast leads to no such port, so each of its links has a copy of each message.
//! - Alone, nothing comes out of a join: from no input do messages come to two ports of one.
//!
//! So each message of the record alone is one that was worked on, without a fault, when the others were there. That its events are within
//! the limit is seen to by a lower one for all of them (`limit_together`).
use crate::meet::meets_itself;
use flow_link::{BlockKind, Link, LinkId, LinkSource, LinkTarget, Plan};
use flow_value::Steps;
use std::alloc::{AllocError, Global};

/// Whether each record passes alone of those that go through this network together.
pub(crate) fn keeps_apart(alloc: Global, plan: &Plan<Steps>) -> Result<bool, AllocError> {
    if !each_works_alone(plan) || !each_way_is_sure(plan) {
        return Ok(false);
    }
    Ok(!meets_itself(alloc, plan)?)
}

fn each_works_alone(plan: &Plan<Steps>) -> bool {
    for block in 0..plan.block_count() {
        if !works_alone(plan.block(block).kind) {
            return false;
        }
    }
    true
}

/// Whether blocks of this kind make something of each message by itself, or of messages that a record alone does not have.
fn works_alone(kind: BlockKind) -> bool {
    match kind {
        BlockKind::Buffer
        | BlockKind::Broadcast
        | BlockKind::Action
        | BlockKind::Transform
        | BlockKind::TransformMany
        | BlockKind::Join => true,
        BlockKind::WriteOnce | BlockKind::Batch | BlockKind::BatchedJoin => false,
    }
}

fn each_way_is_sure(plan: &Plan<Steps>) -> bool {
    for id in 0..plan.link_count() {
        if !is_sure(plan, id) {
            return false;
        }
    }
    true
}

/// Whether a message that this link admits goes over it, or nowhere.
fn is_sure(plan: &Plan<Steps>, id: LinkId) -> bool {
    if id >= plan.link_count() {
        return false;
    }
    let link = plan.link(id);
    if link.max.is_some() {
        return false;
    }
    match (link.source, link.target) {
        (LinkSource::Block(source), LinkTarget::Port(target, _)) => {
            !may_refuse(plan, target) || (!is_broadcast(plan, source) && is_last(plan, source, id))
        }
        (LinkSource::Input(_), _) | (_, LinkTarget::Exit) => true,
    }
}

/// Whether a port of this block may turn a message down, or put it off, while nothing faults.
fn may_refuse(plan: &Plan<Steps>, block: usize) -> bool {
    if block >= plan.block_count() {
        return true;
    }
    plan.block(block).capacity.is_some() || is_join(plan, block) || ways_in(plan, block) > 1
}

/// How many links lead to a block, that of its input among them.
fn ways_in(plan: &Plan<Steps>, block: usize) -> usize {
    let mut count = 0usize;
    for id in 0..plan.link_count() {
        if is_way_in(plan.link(id), block) {
            count = count.saturating_add(1);
        }
    }
    count
}

fn is_way_in(link: Link, block: usize) -> bool {
    match link.target {
        LinkTarget::Port(target, _) => target == block,
        LinkTarget::Exit => false,
    }
}

/// Whether this link leads from this block to another.
pub(crate) fn is_way_out(link: Link, block: usize) -> bool {
    match (link.source, link.target) {
        (LinkSource::Block(source), LinkTarget::Port(_, _)) => source == block,
        (LinkSource::Input(_), _) | (_, LinkTarget::Exit) => false,
    }
}

/// Whether no later link than this one leads from this block to another.
fn is_last(plan: &Plan<Steps>, block: usize, id: LinkId) -> bool {
    for later in 0..plan.link_count() {
        if later > id && is_way_out(plan.link(later), block) {
            return false;
        }
    }
    true
}

fn is_broadcast(plan: &Plan<Steps>, block: usize) -> bool {
    block < plan.block_count() && matches!(plan.block(block).kind, BlockKind::Broadcast)
}

pub(crate) fn is_join(plan: &Plan<Steps>, block: usize) -> bool {
    block < plan.block_count() && matches!(plan.block(block).kind, BlockKind::Join)
}
