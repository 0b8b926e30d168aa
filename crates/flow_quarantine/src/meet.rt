//! Whether what is made of one record may come to two ports of a join, and meet there.
use crate::apart::is_join;
use flow_link::{LinkId, LinkSource, LinkTarget, Plan, PortId};
use flow_value::Steps;
use std::alloc::{AllocError, Global};

/// Whether messages from one input may come to two ports of one join.
pub(crate) fn meets_itself(alloc: Global, plan: &Plan<Steps>) -> Result<bool, AllocError> {
    if !has_join(plan) {
        return Ok(false);
    }
    for block in 0..plan.block_count() {
        if plan.block(block).input && meets_from(alloc, plan, block)? {
            return Ok(true);
        }
    }
    Ok(false)
}

fn has_join(plan: &Plan<Steps>) -> bool {
    for block in 0..plan.block_count() {
        if is_join(plan, block) {
            return true;
        }
    }
    false
}

/// Whether messages from this input may come to two ports of one join.
fn meets_from(alloc: Global, plan: &Plan<Steps>, input: usize) -> Result<bool, AllocError> {
    let reached = reached_from(alloc, plan, input)?;
    for block in 0..plan.block_count() {
        if is_join(plan, block) && is_reached_twice(plan, &reached, block) {
            return Ok(true);
        }
    }
    Ok(false)
}

/// Of each block whether messages from this input may come to it; of no block behind a join.
fn reached_from(alloc: Global, plan: &Plan<Steps>, input: usize) -> Result<Vec<bool>, AllocError> {
    let mut reached = Vec::with_capacity(alloc, plan.block_count())?;
    for block in 0..plan.block_count() {
        reached.push(block == input)?;
    }
    // Blocks and links stand in any order: each time one block more is reached, at least.
    for _ in 0..plan.block_count() {
        if !reach_on(plan, &mut reached) {
            break;
        }
    }
    Ok(reached)
}

/// Goes over each link once, and tells whether a block was reached that was not before.
fn reach_on(plan: &Plan<Steps>, reached: &mut Vec<bool>) -> bool {
    let mut is_more = false;
    for id in 0..plan.link_count() {
        if let Some(target) = reached_over(plan, id, reached) {
            if let Some(place) = reached.get_mut(target) {
                is_more = is_more || !*place;
                *place = true;
            }
        }
    }
    is_more
}

/// The block that this link leads to, where messages come over it and it has not been reached.
fn reached_over(plan: &Plan<Steps>, id: LinkId, reached: &[bool]) -> Option<usize> {
    if id >= plan.link_count() {
        return None;
    }
    let link = plan.link(id);
    match (link.source, link.target) {
        (LinkSource::Block(source), LinkTarget::Port(target, _)) => {
            let comes = is_in(reached, source) && !is_join(plan, source);
            if comes && !is_in(reached, target) {
                Some(target)
            } else {
                None
            }
        }
        (LinkSource::Input(_), _) | (_, LinkTarget::Exit) => None,
    }
}

fn is_in(reached: &[bool], block: usize) -> bool {
    match reached.get(block) {
        Some(is_reached) => *is_reached,
        None => false,
    }
}

/// Whether links from blocks that are reached lead to two ports of this join.
fn is_reached_twice(plan: &Plan<Steps>, reached: &[bool], join: usize) -> bool {
    let mut first = None;
    for id in 0..plan.link_count() {
        if let Some(port) = port_over(plan, id, reached, join) {
            match first {
                Some(known) if known != port => return true,
                Some(_) => {}
                None => first = Some(port),
            }
        }
    }
    false
}

/// The port of this join to which messages come over this link, if they do.
fn port_over(plan: &Plan<Steps>, id: LinkId, reached: &[bool], join: usize) -> Option<PortId> {
    if id >= plan.link_count() {
        return None;
    }
    let link = plan.link(id);
    match (link.source, link.target) {
        (LinkSource::Block(source), LinkTarget::Port(target, port)) => {
            let comes = target == join && is_in(reached, source) && !is_join(plan, source);
            if comes { Some(port) } else { None }
        }
        (LinkSource::Input(_), _) | (_, LinkTarget::Exit) => None,
    }
}
