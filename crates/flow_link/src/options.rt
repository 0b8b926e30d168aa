//! Whether the options of a block are those that its kind has, and in their ranges.
ghost use Rattle.std.specs.Prelude.{◌≡◌};
ghost use Rattle.std.specs.List.{list_all};
ghost use Rattle.flow_link.specs.PlanFaults.{is_between, is_name, is_name_byte, is_in, keys_fit, ranges_fit};
ghost use Rattle.flow_link.specs.PlanFaults.{options_fit, holds_no_group, is_less};

use crate::draft::{BlockDef, BlockKind};
use crate::kinds::{BlockUnit, FEWEST_PORTS, LARGEST_GROUP, MOST_LANES, MOST_MESSAGES, MOST_PORTS};

/// The most bytes that a name has.
const LONGEST_NAME: usize = 64;

/// Whether the block's name and options are as its kind has them.
pub fn options_fit<W>(block: &BlockDef<W>) -> bool
    ensures { result ≡ options_fit block.now }
{
    is_name(block.name.as_str()) && keys_fit(block) && ranges_fit(block)
}

/// Whether the link's number of messages is in its range.
pub fn max_fits(max: Option<u32>) -> bool
    ensures { result ≡ is_in 1 2147483647 max }
{
    is_in(1, MOST_MESSAGES, max)
}

/// Whether a batch has a capacity that is less than one of its groups.
pub fn holds_no_group(kind: BlockKind, capacity: Option<u32>, size: Option<u32>) -> bool
    ensures { result ≡ holds_no_group kind capacity size }
{
    match kind.unit() {
        BlockUnit::Row => is_less(capacity, size),
        BlockUnit::Message
        | BlockUnit::Tuple
        | BlockUnit::Group
        | BlockUnit::Copy
        | BlockUnit::OneCopy => false,
    }
}

/// Whether there is room for less than one group, where both are told.
fn is_less(capacity: Option<u32>, size: Option<u32>) -> bool
    ensures { result ≡ is_less capacity size }
{
    match (capacity, size) {
        (Some(capacity), Some(size)) => capacity < size,
        (Some(_), None) | (None, _) => false,
    }
}

#[tactic(auto, using(crate::proofs::FirstInOrder::all_is_every))]
fn is_name(name: &str) -> bool
    ensures { result ≡ is_name name.now }
{
    1 <= name.len() && name.len() <= LONGEST_NAME && has_name_bytes(name.as_bytes())
}

fn has_name_bytes(bytes: &[u8]) -> bool
    ensures { result ≡ list_all is_name_byte bytes.now }
{
    bytes.iter().all(|byte| is_name_byte(*byte))
}

fn is_name_byte(byte: u8) -> bool
    ensures { result ≡ is_name_byte byte }
{
    is_between(b'A', b'Z', byte)
        || is_between(b'a', b'z', byte)
        || is_between(b'0', b'9', byte)
        || byte == b'_'
        || byte == b'-'
        || byte == b'.'
}

fn keys_fit<W>(block: &BlockDef<W>) -> bool
    ensures { result ≡ keys_fit block.now }
{
    let rules = block.kind.options();
    rules.input.allows(block.input)
        && rules.output.allows(block.output)
        && rules.capacity.allows(block.capacity.is_some())
        && rules.work.allows(block.work.is_some())
        && rules.lanes.allows(block.lanes.is_some())
        && rules.size.allows(block.size.is_some())
        && rules.ports.allows(block.ports.is_some())
        && rules.greedy.allows(block.greedy.is_some())
}

fn ranges_fit<W>(block: &BlockDef<W>) -> bool
    ensures { result ≡ ranges_fit block.now }
{
    is_in(1, MOST_MESSAGES, block.capacity)
        && is_in(1, MOST_LANES, block.lanes)
        && is_in(1, LARGEST_GROUP, block.size)
        && is_in(FEWEST_PORTS, MOST_PORTS, block.ports)
}

/// Whether a number that is there is in its range.
fn is_in(low: u32, high: u32, number: Option<u32>) -> bool
    ensures { result ≡ is_in low high number }
{
    match number {
        None => true,
        Some(number) => low <= number && number <= high,
    }
}

fn is_between(low: u8, high: u8, byte: u8) -> bool
    ensures { result ≡ is_between low high byte }
{
    low <= byte && byte <= high
}
