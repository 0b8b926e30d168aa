//! What a block gave, sorted by link in one pass over its journal.
ghost use Rattle.std.specs.Prelude.{◌≡◌, ◌∷◌, ◌++◌, [], List, length, IfOk, OnOk};
ghost use Rattle.flow_link.specs.declared.trace.Mark.{Mark};
ghost use Rattle.flow_report.specs.Given.{lists_of, given_lists};

use flow_link::{LinkId, Mark};
use flow_value::Kept;
use std::alloc::{AllocError, Global};

// A list for each of so many links, with nothing in it.
fn nothing_given<'a>(alloc: Global, links: usize) -> Result<Vec<Vec<&'a Kept>>, AllocError>
    ensures { IfOk result (λ lists. lists_of lists.items ≡ given_lists links []) }
{
    let mut lists = Vec::new(alloc);
    lists.reserve_exact(links)?;
    for _ in 0..links {
        lists.push(Vec::new(alloc))?;
    }
    Ok(lists)
}

// Puts the value that a mark gave behind those that were given over the same link, if that link has a list.
fn sort_mark<'a>(lists: &mut Vec<Vec<&'a Kept>>, mark: &'a Mark) -> Result<(), AllocError>
    ensures { (marks : List Mark) → OnOk result (
        lists_of lists.old.items ≡ given_lists (length lists.old.items) marks
        → lists_of lists.new.items ≡ given_lists (length lists.old.items) (marks ++ mark.now ∷ [])
        ) }
{
    if let Mark::Gave(link, value) = mark {
        let link = *link as usize;
        if link < lists.len() {
            lists[link].push(value)?;
        }
    }
    Ok(())
}

/// Sorts what a journal gave over the first so many links: a list for each of them, in order.
pub(crate) fn sort_given<'a>(
    alloc: Global,
    journal: &'a [Mark],
    links: usize,
) -> Result<Vec<Vec<&'a Kept>>, AllocError>
    ensures { IfOk result (λ lists. lists_of lists.items ≡ given_lists links journal.now) }
{
    let mut lists = nothing_given(alloc, links)?;
    for mark in journal {
        sort_mark(&mut lists, mark)?;
    }
    Ok(lists)
}
