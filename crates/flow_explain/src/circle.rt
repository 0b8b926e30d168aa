//! A circle of links, if there is one.
use crate::plan::Ends;
use std::alloc::{AllocError, Global};

/// The links of a circle, from one to the next; none where there is no circle.
pub(crate) fn circle(
    alloc: Global,
    blocks: usize,
    ends: &[Ends],
) -> Result<Vec<usize>, AllocError> {
    let mut stays = vec![in alloc; true; blocks]?;
    for _ in 0..blocks {
        if !take_sources(stays.as_mut_slice(), ends) {
            break;
        }
    }
    match first_true(&stays) {
        Some(block) => way_back(alloc, blocks, &stays, ends, block),
        None => Ok(Vec::new(alloc)),
    }
}

fn first_true(flags: &[bool]) -> Option<usize> {
    for (at, flag) in flags.iter().enumerate() {
        if *flag {
            return Some(at);
        }
    }
    None
}

// Takes away the blocks into which no link leads from one that stays, and answers whether there were any.
fn take_sources(stays: &mut [bool], ends: &[Ends]) -> bool {
    let mut taken = false;
    for block in 0..stays.len() {
        if stays[block] && link_into(stays, ends, block).is_none() {
            stays[block] = false;
            taken = true;
        }
    }
    taken
}

// The first link into a block from a block that stays.
fn link_into(stays: &[bool], ends: &[Ends], block: usize) -> Option<usize> {
    for (number, link) in ends.iter().enumerate() {
        if leads_into(*link, stays, block) {
            return Some(number);
        }
    }
    None
}

fn leads_into(link: Ends, stays: &[bool], block: usize) -> bool {
    match (link.source, link.target) {
        (Some(source), Some(target)) => {
            target == block && stays.get(source).copied().unwrap_or(false)
        }
        _ => false,
    }
}

// The circle into which the way back from a block that stays leads, since into each that stays leads another.
fn way_back(
    alloc: Global,
    blocks: usize,
    stays: &[bool],
    ends: &[Ends],
    start: usize,
) -> Result<Vec<usize>, AllocError> {
    let mut block = start;
    for _ in 0..blocks {
        block = block_before(stays, ends, block).unwrap_or(block);
    }
    // as many steps back as there are blocks end on the circle
    let first = block;
    let mut links = Vec::new(alloc);
    for _ in 0..blocks {
        let Some(link) = link_into(stays, ends, block) else {
            return Ok(links);
        };
        links.insert(0, link)?;
        block = block_before(stays, ends, block).unwrap_or(first);
        if block == first {
            return Ok(links);
        }
    }
    Ok(links)
}

// The block from which the first link into this one leads.
fn block_before(stays: &[bool], ends: &[Ends], block: usize) -> Option<usize> {
    let link = link_into(stays, ends, block)?;
    ends.get(link)?.source
}
