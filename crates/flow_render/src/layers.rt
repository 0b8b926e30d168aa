//! In which layer of a picture each block is.
use flow_outcome::{LinkOutline, Outline};
use std::alloc::{AllocError, Global};

/// For each block how many links the longest way to it has. Were there a circle, its blocks would be in the last layers.
pub(crate) fn layers_of(alloc: Global, outline: &Outline) -> Result<Vec<usize>, AllocError> {
    let mut layers = vec![in alloc; 0usize; outline.blocks.len()]?;
    for _ in 0..outline.blocks.len() {
        if !move_targets(layers.as_mut_slice(), &outline.links) {
            break;
        }
    }
    Ok(layers)
}

/// Moves the target of each link behind its source, and answers whether one was not there yet.
fn move_targets(layers: &mut [usize], links: &[LinkOutline]) -> bool {
    let last = layers.len().saturating_sub(1);
    let mut has_moved = false;
    for link in links {
        let due = layer_at(layers, link.from).saturating_add(1).min(last);
        if link.to < layers.len() && layers[link.to] < due {
            layers[link.to] = due;
            has_moved = true;
        }
    }
    has_moved
}

/// The layer of the block with this number.
pub(crate) fn layer_at(layers: &[usize], number: usize) -> usize {
    layers.get(number).copied().unwrap_or(0)
}
