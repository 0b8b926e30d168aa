//! Whether the messages at the ports of a join belong together by their places.
use crate::ways::{Way, Ways, is_any};
use flow_link::{BlockKind, BlockUnit};
use std::alloc::{AllocError, Global};

/// Whether each port of a join gets one message for each message of one block, in the same order.
///
/// Only then is it sure that what stands in one row came from one message.
pub(crate) fn belongs_together(
    alloc: Global,
    ways: &Ways<'_>,
    join: usize,
    ports: u32,
) -> Result<bool, AllocError> {
    let into = ways.into_block(alloc, join)?;
    let mut common = None;
    for port in 0..ports {
        let root = match only_way(into.as_slice(), port) {
            Some(way) if is_whole(ways, way) => root_of(ways, way.source),
            _ => return Ok(false),
        };
        match common {
            Some(common) if common != root => return Ok(false),
            Some(_) => {}
            None => common = Some(root),
        }
    }
    Ok(true)
}

// The only link to this port.
fn only_way(into: &[Way], port: u32) -> Option<Way> {
    let mut found = None;
    for way in into {
        if way.port == port {
            if found.is_some() {
                return None;
            }
            found = Some(*way);
        }
    }
    found
}

// Whether all that a link's source gives crosses the link.
fn is_whole(ways: &Ways<'_>, way: Way) -> bool {
    if !is_any(way.when) || way.max.is_some() {
        return false;
    }
    if ways.copies(way.source) {
        return ways.takes_at_once(way.target);
    }
    is_only_way(ways, way)
}

// Whether no other link leads out of a link's source.
fn is_only_way(ways: &Ways<'_>, way: Way) -> bool {
    for other in &ways.ways {
        if other.source == way.source && other.link != way.link {
            return false;
        }
    }
    true
}

// The block of whose messages this block gives one for each.
fn root_of(ways: &Ways<'_>, block: usize) -> usize {
    let mut root = block;
    for _ in 0..ways.blocks.len() {
        match block_before(ways, root) {
            Some(before) => root = before,
            None => break,
        }
    }
    root
}

// The block for each of whose messages this one gives one.
fn block_before(ways: &Ways<'_>, number: usize) -> Option<usize> {
    let block = ways.block(number)?;
    if block.input || !gives_one_for_one(block.kind) {
        return None;
    }
    let mut found = None;
    for way in &ways.ways {
        if way.target == number {
            if found.is_some() || !is_whole(ways, *way) {
                return None;
            }
            found = Some(way.source);
        }
    }
    found
}

fn gives_one_for_one(kind: BlockKind) -> bool {
    match kind.unit() {
        BlockUnit::Message => !kind.gives_nothing() && kind != BlockKind::TransformMany,
        BlockUnit::Copy => true,
        BlockUnit::Row | BlockUnit::Tuple | BlockUnit::Group | BlockUnit::OneCopy => false,
    }
}
