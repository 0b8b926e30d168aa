//! Whether messages could go round for ever: whether a walk over links leads from some block back to it.
//!
//! Where heights are found by which each link leads down, none does. Else for one block after another a row says from which
//! blocks a walk leads to it. Each round allows walks of one link more, and after as many rounds as there are blocks no longer
//! walk is of interest.
ghost use Rattle.std.specs.Prelude.{◌≡◌, ◌<◌, ◌≤◌, ◌↔◌, ◌&&◌, ◌||◌, true, false, length, slice_index_or, EachIndex};
ghost use Rattle.flow_link.specs.Lists.{some, below};
ghost use Rattle.flow_link.specs.Plan.{begins_at};
ghost use Rattle.flow_link.specs.PlanFaults.{walks};
ghost use Rattle.flow_link.specs.Rounds.{goes_on, sets_out};

use crate::heights::{MOST_BLOCKS, has_descent};
use crate::plan::{Link, LinkSource, LinkTarget};

/// Whether a walk leads from one of the first so many blocks back to it.
pub fn has_cycle(links: &[Link], count: usize) -> bool
    requires { count ≤ 256 }
    ensures { result ≡ some (λ block. walks links.now count count block block) (below count) }
{
    if has_descent(links, count) {
        return false;
    }
    let mut row = [false; MOST_BLOCKS];
    let mut next = [false; MOST_BLOCKS];
    for block in 0..count {
        if leads_back(links, block, &mut row[..count], &mut next[..count]) {
            return true;
        }
    }
    false
}

/// Whether a walk leads from this block back to it.
fn leads_back(links: &[Link], block: usize, row: &mut [bool], next: &mut [bool]) -> bool
    requires same_length { length next.old ≡ length row.old }
    requires within { block < length row.old }
    ensures { result ≡ walks links.now (length row.old) (length row.old) block block }
{
    row.fill(false);
    for _round in 0..row.len() {
        lengthen(links, block, row, next);
        if is_same(row, next) {
            break;
        }
        row.copy_from_slice(next);
    }
    row[block]
}

fn is_same(row: &[bool], next: &[bool]) -> bool
    ensures { result ≡ true ↔ next.now ≡ row.now }
{
    row == next
}

/// Makes of a row of walks to this block the next one.
fn lengthen(links: &[Link], end: usize, row: &[bool], next: &mut [bool])
    ensures { EachIndex next.new (λ block. slice_index_or next.new block false ≡ sets_out links.now end row.now block) }
{
    next.fill(false);
    for link in links {
        mark(next, link.source, goes_on(end, row, link.target));
    }
}

/// Writes into the row that the end is reached from this source, where it is.
fn mark(row: &mut [bool], source: LinkSource, is_reached: bool)
    ensures { EachIndex row.new (λ block. slice_index_or row.new block false ≡
        (slice_index_or row.old block false || begins_at block source && is_reached)) }
{
    if let LinkSource::Block(block) = source {
        if is_reached && block < row.len() {
            row[block] = true;
        }
    }
}

fn goes_on(end: usize, row: &[bool], target: LinkTarget) -> bool
    ensures { result ≡ goes_on end row.now target }
{
    match target {
        LinkTarget::Port(block, _) => block == end || (block < row.len() && row[block]),
        LinkTarget::Exit => false,
    }
}
