//! Blocks and links as plain data.
use crate::admits::Admits;
use crate::kind::Kind;
use flow_reading::{PortReport, PrintedList, Report};

/// A block of a network.
#[derive(Clone, Copy)]
pub struct BlockOutline<'a> {
    pub name: &'a str,
    pub kind: Kind,
    /// Whether records are sent to it.
    pub input: bool,
    /// Whether a caller receives from it.
    pub exit: bool,
    /// How many messages it has room for, without bound where absent.
    pub capacity: Option<u32>,
    /// How many jobs may run at once, one where absent.
    pub lanes: Option<u32>,
    /// How many messages a group has.
    pub size: Option<u32>,
    /// How many ports it has, at least one.
    pub ports: u32,
    /// Whether it reserves a message at each port before it takes any.
    pub reserves: bool,
}

/// A link of a network.
#[derive(Clone, Copy)]
pub struct LinkOutline {
    /// The number of its source among the blocks.
    pub from: usize,
    /// The number of its target among the blocks.
    pub to: usize,
    /// The port of the target.
    pub port: u32,
    pub when: Admits,
    /// How many messages may cross, without bound where absent.
    pub max: Option<u32>,
    /// Whether the end of the source ends the target.
    pub propagate: bool,
}

/// A network: its blocks and links, each by its number.
#[derive(Drop)]
pub struct Outline<'a> {
    pub blocks: Vec<BlockOutline<'a>>,
    pub links: Vec<LinkOutline>,
}

/// What crossed the link with this number, by a report of its network.
pub fn given_over<'a>(
    outline: &Outline,
    report: &Report<'a>,
    number: usize,
) -> Option<PrintedList<'a>> {
    let source = report.blocks.get(outline.links.get(number)?.from)?;
    for link in &source.links {
        if link.number as usize == number {
            return Some(link.given);
        }
    }
    None
}

/// Whether something is held at a port.
pub(crate) fn holds_any(ports: &[PortReport<'_>]) -> bool {
    for port in ports {
        if !port.held.is_empty() {
            return true;
        }
    }
    false
}
