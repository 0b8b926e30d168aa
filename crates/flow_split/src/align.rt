//! Puts the records of a part into rows: each of the first input, in its order, with the next of its key of each other input.
use crate::entry::{By, Entry};
use crate::lists::sort_entries;
use std::alloc::{AllocError, Global};

/// The entries of a part in another order.
#[derive(Drop)]
pub(crate) struct Aligned {
    /// Those in rows, row by row.
    pub(crate) rows: Vec<Entry>,
    /// Those of a key of which another input has fewer.
    pub(crate) alone: Vec<Entry>,
}

/// The rows of a part of so many keys and inputs. The entries of one key and one input stay in their order.
pub(crate) fn align(
    alloc: Global,
    entries: &[Entry],
    keys: usize,
    inputs: usize,
) -> Result<Aligned, AllocError> {
    let Some(pairs) = keys.checked_mul(inputs) else {
        return Err(AllocError);
    };
    let lists = sort_entries(alloc, entries, By::Pair(inputs), pairs)?;
    let mut taken = vec![in alloc; 0usize; pairs]?;
    let mut rows = Vec::new(alloc);
    'entries: for entry in entries {
        if entry.input == 0 {
            move_row(&lists, entry.key, inputs, &mut taken, &mut rows)?;
        }
    }
    let alone = rest_of(alloc, &lists, &taken)?;
    Ok(Aligned { rows, alone })
}

/// Moves the next entry of this key of each of so many inputs, unless one of them has none left.
fn move_row(
    lists: &[Vec<Entry>],
    key: usize,
    inputs: usize,
    taken: &mut Vec<usize>,
    rows: &mut Vec<Entry>,
) -> Result<(), AllocError> {
    let first = key.saturating_mul(inputs);
    if has_row(lists, taken, first, inputs) {
        'inputs: for input in 0..inputs {
            move_next(lists, first.saturating_add(input), inputs, taken, rows)?;
        }
    }
    Ok(())
}

/// Whether each of so many lists, from this one on, has an entry that is not taken.
fn has_row(lists: &[Vec<Entry>], taken: &[usize], first: usize, inputs: usize) -> bool {
    for input in 0..inputs {
        let pair = first.saturating_add(input);
        match (lists.get(pair), taken.get(pair)) {
            (Some(list), Some(place)) if *place < list.len() => {}
            _ => return false,
        }
    }
    true
}

/// Moves the next entry of a list, if one is left.
fn move_next(
    lists: &[Vec<Entry>],
    pair: usize,
    inputs: usize,
    taken: &mut Vec<usize>,
    rows: &mut Vec<Entry>,
) -> Result<(), AllocError> {
    if pair < lists.len() && pair < taken.len() {
        let place = taken[pair];
        if place < lists[pair].len() {
            rows.push(lists[pair][place])?;
            taken[pair] = place + 1;
        }
    }
    Ok(())
}

/// What is not taken of each list.
fn rest_of(alloc: Global, lists: &[Vec<Entry>], taken: &[usize]) -> Result<Vec<Entry>, AllocError> {
    let mut rest = Vec::new(alloc);
    for (pair, list) in lists.iter().enumerate() {
        let place = taken_at(taken, pair).min(list.len());
        let (_, others) = list.as_slice().split_at(place);
        rest.extend_from_slice(others)?;
    }
    Ok(rest)
}

/// How many are taken of this list.
fn taken_at(taken: &[usize], pair: usize) -> usize {
    taken.get(pair).copied().unwrap_or(0)
}
