//! Deals records out by their key.
ghost use Rattle.std.specs.Prelude.{◌≡◌, ◌<◌, length, IfOk};

use crate::align::{Aligned, align};
use crate::differ::check_parts;
use crate::entry::{By, Entry};
use crate::fault::DealFault;
use crate::keyed::Keyed;
use crate::lists::sort_entries;
use std::alloc::{AllocError, Global};
use std::hash::{DefaultHasher, Hasher};

/// The part that records with this key go to, from 0: its SipHash-1-3 modulo the number of parts.
pub fn part_of_key(key: &[u8], parts: usize) -> usize
    ensures { 0 < parts → result < parts }
{
    let mut hasher = DefaultHasher::new();
    hasher.write(key);
    match hasher.finish().checked_rem(parts as u64) {
        Some(part) => part as usize,
        None => 0,
    }
}

/// Records in parts.
#[derive(Drop)]
pub struct Dealt {
    /// The records of each part.
    pub parts: Vec<Vec<Entry>>,
    /// Of each part, those that have no partner.
    pub alone: Vec<Vec<Entry>>,
}

/// The records in so many parts, those of each part in their order. Refused where two inputs of a part do not have the same
/// keys in the same order.
pub fn deal_in_order(alloc: Global, keyed: &Keyed, parts: usize) -> Result<Dealt, DealFault>
    ensures { IfOk result (λ dealt. length dealt.parts.items ≡ parts) }
{
    let lists = sort_entries(alloc, &keyed.entries, By::Part, parts)?;
    check_parts(alloc, &lists, keyed.inputs.len())?;
    Ok(Dealt {
        parts: lists,
        alone: Vec::new(alloc),
    })
}

/// The records in so many parts, those of each part in rows, a record of each input in each. The records of one key and one
/// input stay in their order, and those without a partner come last.
pub fn deal_in_rows(alloc: Global, keyed: &Keyed, parts: usize) -> Result<Dealt, DealFault>
    ensures { IfOk result (λ dealt. length dealt.parts.items ≡ parts) }
{
    let lists = sort_entries(alloc, &keyed.entries, By::Part, parts)?;
    let dealt = align_parts(alloc, &lists, &keyed.keys, keyed.inputs.len())?;
    check_parts(alloc, &dealt.parts, keyed.inputs.len())?;
    Ok(dealt)
}

/// The rows of each part, which have so many keys and inputs.
fn align_parts(
    alloc: Global,
    parts: &[Vec<Entry>],
    keys: &[usize],
    inputs: usize,
) -> Result<Dealt, AllocError>
    ensures { IfOk result (λ dealt. length dealt.parts.items ≡ length parts.now) }
{
    let mut aligned = Vec::with_capacity(alloc, parts.len())?;
    let mut others = Vec::with_capacity(alloc, parts.len())?;
    for (part, entries) in parts.iter().enumerate() {
        let count = keys.get(part).copied().unwrap_or(0);
        let Aligned { rows, alone } = align(alloc, entries, count, inputs)?;
        aligned.push(rows)?;
        others.push(alone)?;
    }
    Ok(Dealt {
        parts: aligned,
        alone: others,
    })
}
