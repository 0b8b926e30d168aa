//! Whether the inputs of a part have the same keys in the same order, and where they do not.
use crate::entry::{By, Entry};
use crate::fault::DealFault;
use crate::lists::sort_entries;
use std::alloc::{AllocError, Global};

/// The first place at which the keys of the first input of a part and those of another one differ.
#[derive(Clone, Copy)]
pub struct Difference {
    /// The part, from 0.
    pub part: usize,
    /// The other input, from 0.
    pub other: usize,
    /// How many keys of both are the same.
    pub place: usize,
    /// What the first input has there, if it goes on.
    pub first_entry: Option<Entry>,
    /// What the other one has there.
    pub other_entry: Option<Entry>,
}

/// Refuses parts in one of which two of these inputs do not have the same keys in the same order.
pub(crate) fn check_parts(
    alloc: Global,
    parts: &[Vec<Entry>],
    inputs: usize,
) -> Result<(), DealFault> {
    for (part, entries) in parts.iter().enumerate() {
        if let Some(found) = difference_in(alloc, entries, inputs)? {
            return Err(DealFault::Differ(Difference { part, ..found }));
        }
    }
    Ok(())
}

/// Where the keys of two inputs of a part differ first, if they do.
fn difference_in(
    alloc: Global,
    entries: &[Entry],
    inputs: usize,
) -> Result<Option<Difference>, AllocError> {
    let lists = sort_entries(alloc, entries, By::Input, inputs)?;
    Ok(difference_among(&lists))
}

/// Where the keys of one of these lists differ from those of the first, if they do.
fn difference_among(lists: &[Vec<Entry>]) -> Option<Difference> {
    let Some(first) = lists.first() else {
        return None;
    };
    for (other, list) in lists.iter().enumerate() {
        if let Some(place) = first_unlike(first, list) {
            return Some(Difference {
                part: 0,
                other,
                place,
                first_entry: first.get(place).copied(),
                other_entry: list.get(place).copied(),
            });
        }
    }
    None
}

/// The first place at which the keys of two lists differ, or one of them ends, if they are not the same.
fn first_unlike(first: &[Entry], other: &[Entry]) -> Option<usize> {
    for (place, entry) in first.iter().enumerate() {
        let Some(found) = other.get(place) else {
            return Some(place);
        };
        if found.key != entry.key {
            return Some(place);
        }
    }
    if first.len() < other.len() {
        Some(first.len())
    } else {
        None
    }
}
