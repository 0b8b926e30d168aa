//! Heights of blocks, by which each link leads down. Where there are such, no walk leads back.
//!
//! Each round lifts the source of each link that does not lead down. Where no walk leads back, after as many rounds as there
//! are blocks none is left, and else some link never leads down.
ghost use Rattle.std.specs.Prelude.{◌≡◌, ℕ, true, false, get_or};
ghost use Rattle.std.specs.List.{list_any};
ghost use Rattle.flow_link.specs.Heights.{is_no_lower, climbs, rises};
ghost use Rattle.flow_link.specs.PlanFaults.{walks};

use crate::plan::{Link, LinkSource, LinkTarget};

/// The most blocks that a network has.
pub const MOST_BLOCKS: usize = 256;

/// Whether heights of the first so many blocks were found by which each link leads down: then no walk leads back.
pub fn has_descent(links: &[Link], count: usize) -> bool
    ensures { result ≡ true → (steps block : ℕ) → walks links.now count steps block block ≡ false }
{
    let mut heights = [0usize; MOST_BLOCKS];
    for _round in 0..=count {
        if !some_rises(links, &heights[..]) {
            return true;
        }
        raise(links, &mut heights[..]);
    }
    false
}

/// Whether some link does not lead down.
fn some_rises(links: &[Link], heights: &[usize]) -> bool
    ensures { result ≡ list_any (rises heights.now) links.now }
{
    links.iter().any(|link| rises(heights, link))
}

/// Whether a link leads to a block that is no lower than the one that it leads from.
fn rises(heights: &[usize], link: &Link) -> bool
    ensures { result ≡ rises heights.now link.now }
{
    match link.source {
        LinkSource::Block(block) => is_no_lower(heights, height_of(heights, block), link.target),
        LinkSource::Input(_) => false,
    }
}

/// Whether the target is a block that is no lower than this height.
fn is_no_lower(heights: &[usize], height: usize, target: LinkTarget) -> bool
    ensures { result ≡ is_no_lower heights.now height target }
{
    match target {
        LinkTarget::Port(block, _) => height <= height_of(heights, block),
        LinkTarget::Exit => false,
    }
}

fn height_of(heights: &[usize], block: usize) -> usize
    ensures { result ≡ get_or heights.now block 0 }
{
    heights.get(block).copied().unwrap_or(0)
}

/// Lifts the source of each link that does not lead down, one link after another.
fn raise(links: &[Link], heights: &mut [usize]) {
    for link in links {
        if rises(heights, link) {
            lift(heights, link);
        }
    }
}

/// Lifts the source of a link above its target.
fn lift(heights: &mut [usize], link: &Link) {
    if let (LinkSource::Block(block), LinkTarget::Port(next, _)) = (link.source, link.target) {
        let above = height_of(heights, next).saturating_add(1);
        if let Some(height) = heights.get_mut(block) {
            *height = above;
        }
    }
}
