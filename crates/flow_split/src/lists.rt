//! Entries sorted by a number of theirs, in one pass.
ghost use Rattle.std.specs.Prelude.{◌≡◌, length, IfOk, OnOk};

use crate::entry::{By, Entry};
use std::alloc::{AllocError, Global};

/// The entries with each number below this count, in their order. None has another number.
pub(crate) fn sort_entries(
    alloc: Global,
    entries: &[Entry],
    which: By,
    count: usize,
) -> Result<Vec<Vec<Entry>>, AllocError>
    ensures { IfOk result (λ lists. length lists.items ≡ count) }
{
    let mut lists = empty_lists(alloc, count)?;
    for entry in entries {
        sort_entry(&mut lists, which, *entry)?;
    }
    Ok(lists)
}

/// So many lists with nothing in them.
fn empty_lists(alloc: Global, count: usize) -> Result<Vec<Vec<Entry>>, AllocError>
    ensures { IfOk result (λ lists. length lists.items ≡ count) }
{
    let mut lists = Vec::with_capacity(alloc, count)?;
    for _ in 0..count {
        lists.push(Vec::new(alloc))?;
    }
    Ok(lists)
}

/// Puts an entry behind those with its number. There is a list for each number; where there was none, it would be told as
/// want of memory, and not lost.
fn sort_entry(lists: &mut Vec<Vec<Entry>>, which: By, entry: Entry) -> Result<(), AllocError>
    ensures { OnOk result (length lists.new.items ≡ length lists.old.items) }
{
    match entry.number_by(which) {
        Some(number) if number < lists.len() => {
            lists[number].push(entry)?;
            Ok(())
        }
        _ => Err(AllocError),
    }
}
