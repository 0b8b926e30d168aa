//! Why a record is set aside.
use flow_link::Plan;
use flow_value::Steps;
use std::fmt;

/// Why a record is set aside.
#[derive(Clone, Copy)]
pub(crate) enum Aside {
    /// It hasn't exactly two fields.
    Csv,
    /// One of its fields is no UTF-8.
    NotUtf8,
    /// Its first field names no block that is an input.
    UnknownInput,
    /// The block with this number faulted, with the fault of the second number.
    Faulted(usize, u32),
    /// Its run was stopped at the limit.
    Stopped,
    /// A block has no id left for its next message.
    Ids,
}

/// Why a record is set aside, as people are told of it by the names of this plan's blocks.
#[derive(Clone, Copy)]
pub(crate) struct Told<'p> {
    pub plan: &'p Plan<Steps>,
    pub aside: Aside,
}

/// The name of a fault of work; none where no work faults with this number.
fn fault_name(number: u32) -> Option<&'static str> {
    match number {
        1 => Some("NotInt"),
        2 => Some("NotText"),
        3 => Some("NotRow"),
        4 => Some("NoField"),
        5 => Some("Range"),
        6 => Some("Rejected"),
        7 => Some("NotOne"),
        _ => None,
    }
}

/// The name of the block with this number; nothing where there is none.
fn name_of(plan: &Plan<Steps>, block: usize) -> &str {
    if block < plan.block_count() {
        plan.block(block).name.as_str()
    } else {
        ""
    }
}

impl fmt::Display for Told<'_> {
    fn fmt<W: fmt::Write>(&self, f: &mut fmt::Formatter<W>) -> fmt::Result {
        match self.aside {
            Aside::Csv => f.write_str("9 Csv, it has not exactly two fields"),
            Aside::NotUtf8 => f.write_str("10 NotUtf8, a field is not UTF-8"),
            Aside::UnknownInput => f.write_str("11 UnknownInput, its first field names no input"),
            Aside::Faulted(block, number) => {
                let block = name_of(self.plan, block);
                match fault_name(number) {
                    Some(name) => write!(f, "{block} faulted with {number} ({name})"),
                    None => write!(f, "{block} faulted with {number}"),
                }
            }
            Aside::Stopped => f.write_str("stopped at the limit of events"),
            Aside::Ids => f.write_str("ids used up"),
        }
    }
}
