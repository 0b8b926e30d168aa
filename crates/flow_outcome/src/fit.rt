//! Whether a report is one of a network.
ghost use Rattle.std.specs.Prelude.{◌≡◌, vec_len, OnOk};

use crate::kind::Kind;
use crate::outline::{BlockOutline, Outline};
use flow_reading::{BlockReport, Kept, Report};
use std::fmt;

/// How a report shows that it is none of a network.
#[derive(Clone, Copy)]
pub enum Misfit {
    /// The network and the report have these numbers of blocks.
    Count { network: usize, report: usize },
    /// The block with this number, from 0, has another name, or other lines than its kind.
    Block(usize),
    /// The block with this number, from 0, has other links.
    Links(usize),
}

impl fmt::Display for Misfit {
    fn fmt<W: fmt::Write>(&self, f: &mut fmt::Formatter<W>) -> fmt::Result {
        f.write_str("the report is of another network: ")?;
        match *self {
            Misfit::Count { network, report } => {
                write!(f, "it has {report} blocks, and the network {network}")
            }
            Misfit::Block(number) => write!(f, "block {number} is another one there"),
            Misfit::Links(number) => write!(f, "block {number} has other links there"),
        }
    }
}

/// Tells where a report differs from what every report of the network has: names, ports, links, inputs and exits.
pub fn check_fit(outline: &Outline, report: &Report) -> Result<(), Misfit>
    ensures { OnOk result (vec_len outline.now.blocks ≡ vec_len report.now.blocks) }
{
    if outline.blocks.len() != report.blocks.len() {
        return Err(Misfit::Count {
            network: outline.blocks.len(),
            report: report.blocks.len(),
        });
    }
    for (number, (block, reported)) in outline.blocks.iter().zip(report.blocks.iter()).enumerate() {
        if !is_same(block, reported) {
            return Err(Misfit::Block(number));
        }
        if !has_links(outline, number, reported) {
            return Err(Misfit::Links(number));
        }
    }
    Ok(())
}

fn is_same(block: &BlockOutline, reported: &BlockReport) -> bool {
    let records = match reported.kept {
        Kept::Record(_) => true,
        Kept::Left(_) => false,
    };
    block.name == reported.name
        && block.input == reported.input.is_some()
        && block.exit == reported.exit.is_some()
        && block.ports as usize == reported.ports.len()
        && records == matches!(block.kind, Kind::Action)
}

/// Whether the links of a block are those in its report, in their order.
fn has_links(outline: &Outline, block: usize, reported: &BlockReport) -> bool {
    let mut count = 0usize;
    for (number, link) in outline.links.iter().enumerate() {
        if link.from == block {
            match reported.links.get(count) {
                Some(found) if found.number as usize == number => count = count.saturating_add(1),
                _ => return false,
            }
        }
    }
    count == reported.links.len()
}
