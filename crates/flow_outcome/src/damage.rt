//! Signs that a report is damaged, though it is one of its network: no run leaves what it says.
use crate::outline::{BlockOutline, Outline, given_over, holds_any};
use flow_reading::{BlockReport, Kept, PrintedList, Report, Settled, State};
use std::fmt;
use std::hash::{DefaultHasher, Hasher};

/// A sign that a report is damaged.
#[derive(Clone, Copy)]
pub enum Damage<'n> {
    /// At this port the block with this name did not take what its links gave.
    Taken(&'n str, usize),
    /// The block with this name is done, and something is held or left there.
    Kept(&'n str),
}

impl fmt::Display for Damage<'_> {
    fn fmt<W: fmt::Write>(&self, f: &mut fmt::Formatter<W>) -> fmt::Result {
        f.write_str("the report is damaged: ")?;
        match *self {
            Damage::Taken(name, port) => {
                write!(f, "{name} did not take at port {port} what its links gave")
            }
            Damage::Kept(name) => write!(f, "{name} is done, and something is held or left there"),
        }
    }
}

/// The first sign that a report is damaged, which fits this network; none where there is no sign.
///
/// It compares what ports took with what crossed the links into them, and looks at what blocks that are done keep. It sees nothing of
/// what a block made of what it took. Where several links lead into a port, an order may pass that no merge of them has.
pub fn damage_in<'n>(network: &Outline<'n>, report: &Report<'_>) -> Option<Damage<'n>> {
    for (number, (block, reported)) in network.blocks.iter().zip(report.blocks.iter()).enumerate() {
        let damage = damage_at(network, report, number, block, reported);
        if damage.is_some() {
            return damage;
        }
    }
    None
}

/// The first sign of it at the block with this number.
fn damage_at<'n>(
    network: &Outline<'n>,
    report: &Report<'_>,
    number: usize,
    block: &BlockOutline<'n>,
    reported: &BlockReport<'_>,
) -> Option<Damage<'n>> {
    let is_left = match reported.kept {
        Kept::Left(left) => !left.is_empty(),
        Kept::Record(_) => false,
    };
    if matches!(reported.state, State::Done) && (is_left || holds_any(&reported.ports)) {
        return Some(Damage::Kept(block.name));
    }
    for (port, found) in reported.ports.iter().enumerate() {
        let has_records = block.input && port == 0;
        if !is_taken(network, report, number, port, found.taken, has_records) {
            return Some(Damage::Taken(block.name, port));
        }
    }
    None
}

/// Whether what was taken at this port of this block is what its links gave, the values of each in their order. Records may
/// stand between them. Where the run was stopped, the last value of each link may be on its way.
fn is_taken(
    network: &Outline<'_>,
    report: &Report<'_>,
    block: usize,
    port: usize,
    taken: PrintedList<'_>,
    has_records: bool,
) -> bool {
    let under_way = match report.settled {
        Settled::Quiet => 0usize,
        Settled::Stopped => 1,
    };
    let mut least = 0usize;
    let mut most = 0usize;
    let mut sum = 0u64;
    for (number, link) in network.links.iter().enumerate() {
        if link.to == block && link.port as usize == port {
            let Some(given) = given_over(network, report, number) else {
                return false;
            };
            let count = given.len().saturating_sub(under_way);
            if !is_within(given, count, taken) {
                return false;
            }
            least = least.saturating_add(count);
            most = most.saturating_add(given.len());
            sum = sum.wrapping_add(sum_of(given));
        }
    }
    has_records
        || (least < most && least <= taken.len() && taken.len() <= most)
        || (least == most && taken.len() == most && sum == sum_of(taken))
}

/// Whether so many values from the front of a list stand in another one, in their order.
fn is_within(given: PrintedList<'_>, count: usize, taken: PrintedList<'_>) -> bool {
    let mut others = given.items().take(count);
    let mut next = others.next();
    for value in taken.items() {
        match next {
            Some(due) if due.text == value.text => next = others.next(),
            Some(_) | None => {}
        }
    }
    next.is_none()
}

/// A number that lists with the same values have, whatever their order, and hardly any others.
fn sum_of(list: PrintedList<'_>) -> u64 {
    let mut sum = 0u64;
    for value in list.items() {
        let mut hasher = DefaultHasher::new();
        hasher.write(value.text);
        sum = sum.wrapping_add(hasher.finish());
    }
    sum
}
