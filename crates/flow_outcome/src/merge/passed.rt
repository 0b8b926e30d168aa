//! Messages that went another way because a block had ended.
use crate::merge::fault::MergeFault;
use crate::outline::{LinkOutline, Outline};
use flow_reading::{BlockReport, PrintedList, Report};

/// Refuses a part in which a link carried what an earlier link of its source admits, where the target of that one may end
/// before the source does. In a run of the whole it has not ended there.
pub fn check_passed<'n>(
    network: &Outline<'n>,
    part: usize,
    report: &Report<'_>,
) -> Result<(), MergeFault<'n>> {
    for block in &report.blocks {
        if let Some((link, earlier)) = passed_at(network, block) {
            return Err(MergeFault::Passed {
                part,
                link,
                earlier,
            });
        }
    }
    Ok(())
}

/// The first link of a block that carried what an earlier one admits, and that one.
fn passed_at(network: &Outline<'_>, block: &BlockReport<'_>) -> Option<(usize, usize)> {
    for (place, link) in block.links.iter().enumerate() {
        if let Some(earlier) = passed_by(network, block, place, link.given) {
            return Some((link.number as usize, earlier));
        }
    }
    None
}

/// The first link before this place that admits a value of the list, and whose target may end early.
fn passed_by(
    network: &Outline<'_>,
    block: &BlockReport<'_>,
    place: usize,
    given: PrintedList<'_>,
) -> Option<usize> {
    for earlier in block.links.iter().take(place) {
        let number = earlier.number as usize;
        if may_pass(network, number) && admits_any(network, number, given) {
            return Some(number);
        }
    }
    None
}

/// Whether the target of this link has another way in, and so may end before the link's source.
fn may_pass(network: &Outline<'_>, number: usize) -> bool {
    let Some(link) = network.links.get(number) else {
        return false;
    };
    let is_input = match network.blocks.get(link.to) {
        Some(target) => target.input,
        None => false,
    };
    is_input || has_other_way(network, link)
}

/// Whether another block leads to the target of this link.
fn has_other_way(network: &Outline<'_>, link: &LinkOutline) -> bool {
    for other in &network.links {
        if other.to == link.to && other.from != link.from {
            return true;
        }
    }
    false
}

/// Whether this link admits a value of the list.
fn admits_any(network: &Outline<'_>, number: usize, given: PrintedList<'_>) -> bool {
    let Some(link) = network.links.get(number) else {
        return false;
    };
    for value in given.items() {
        if link.when.admits(value) {
            return true;
        }
    }
    false
}
