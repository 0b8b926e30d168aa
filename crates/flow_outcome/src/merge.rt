//! Merges the reports of parts of the records into the report of all of them, where that is lawful.
//!
//! A part that ends with status 0 leaves its network as it was before its first record: nothing waits, and nothing is held
//! or left. So the parts run one after the other are a run of the whole, and each list of its report is that of the first
//! part, then that of the second, and so on. This holds of blocks that keep nothing from one message to the next, of joins
//! where each part pairs all that it has, and of links that count nothing. It fails where a message went another way because
//! a block had ended in its part: in a run of the whole that block has not ended yet. Such a part is refused.
mod fault;
mod lines;
mod passed;
mod status;

use crate::damage::damage_in;
use crate::fit::check_fit;
use crate::merge::lines::write_block;
use crate::merge::passed::check_passed;
use crate::outline::Outline;
pub use fault::MergeFault;
use flow_reading::Report;
pub use status::{report_status, worst_status};
use std::io;
use std::io::Write;

/// Writes the report of the whole, of which these are the reports of parts, in the order of the records. It is that of a
/// lawful run of all records, in which the parts come one after the other.
///
/// Nothing is written where they can't be merged. The writer should gather what is written.
pub fn merge_reports<'n, W: Write>(
    network: &Outline<'n>,
    parts: &[Report<'_>],
    writer: &mut W,
) -> Result<(), MergeFault<'n>> {
    check_network(network)?;
    let Some(first) = parts.first() else {
        return Err(MergeFault::NoPart);
    };
    for (place, part) in parts.iter().enumerate() {
        check_part(network, place.saturating_add(1), part)?;
    }
    match write_whole(parts, first, writer) {
        Ok(()) => Ok(()),
        Err(_) => Err(MergeFault::Write),
    }
}

/// Refuses a network with a block or a link that keeps or counts something over messages, or with a join that reserves.
fn check_network<'n>(network: &Outline<'n>) -> Result<(), MergeFault<'n>> {
    for block in &network.blocks {
        if !block.kind.keeps_nothing() {
            return Err(MergeFault::Kind(block.name, block.kind));
        }
        if block.reserves {
            return Err(MergeFault::Reserves(block.name));
        }
    }
    check_max(network)
}

fn check_max<'n>(network: &Outline<'n>) -> Result<(), MergeFault<'n>> {
    for (number, link) in network.links.iter().enumerate() {
        if link.max.is_some() {
            return Err(MergeFault::Max(number));
        }
    }
    Ok(())
}

/// Refuses a part that can't be merged; it has this number, from 1.
fn check_part<'n>(
    network: &Outline<'n>,
    number: usize,
    part: &Report<'_>,
) -> Result<(), MergeFault<'n>> {
    if let Err(misfit) = check_fit(network, part) {
        return Err(MergeFault::Misfit(number, misfit));
    }
    if let Some(damage) = damage_in(network, part) {
        return Err(MergeFault::Damaged(number, damage));
    }
    match report_status(part) {
        0 => check_passed(network, number, part),
        status => Err(MergeFault::Status(number, status)),
    }
}

fn write_whole<W: Write>(
    parts: &[Report<'_>],
    first: &Report<'_>,
    writer: &mut W,
) -> io::Result<()> {
    for (number, block) in first.blocks.iter().enumerate() {
        write_block(parts, number, block, writer)?;
    }
    writer.write_all(b"quiet\n")
}
