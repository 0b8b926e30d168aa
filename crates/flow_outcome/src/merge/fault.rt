//! Why reports are not merged.
use crate::damage::Damage;
use crate::fit::Misfit;
use crate::kind::Kind;
use std::fmt;

/// Why the reports of parts are not merged. Parts are counted from 1, links from 0 as in a network.
#[derive(Clone, Copy)]
pub enum MergeFault<'n> {
    /// There is none.
    NoPart,
    /// The block with this name is of a kind that keeps something from one message to the next.
    Kind(&'n str, Kind),
    /// The join with this name reserves.
    Reserves(&'n str),
    /// This link has a `max`.
    Max(usize),
    /// The report of this part is not one of the network.
    Misfit(usize, Misfit),
    /// The report of this part is damaged.
    Damaged(usize, Damage<'n>),
    /// This part ended with this status, and not with 0.
    Status(usize, u8),
    /// In this part a link carried what an earlier one admits, whose target may have ended before.
    Passed {
        part: usize,
        link: usize,
        earlier: usize,
    },
    /// The writer failed.
    Write,
}

impl fmt::Display for MergeFault<'_> {
    fn fmt<W: fmt::Write>(&self, f: &mut fmt::Formatter<W>) -> fmt::Result {
        match *self {
            MergeFault::NoPart => f.write_str("there is no part to merge"),
            MergeFault::Kind(name, kind) => write!(
                f,
                "{name} is a {kind}, and what it makes of the whole is not what it makes of the parts"
            ),
            MergeFault::Reserves(name) => write!(
                f,
                "{name} is a join that reserves, and a network with one is not merged"
            ),
            MergeFault::Max(link) => {
                write!(f, "link {link} has a max, which counts anew in each part")
            }
            MergeFault::Misfit(part, misfit) => write!(f, "part {part}: {misfit}"),
            MergeFault::Damaged(part, damage) => write!(f, "part {part}: {damage}"),
            MergeFault::Status(part, status) => write!(
                f,
                "part {part} has status {status}, and only parts with status 0 are merged"
            ),
            MergeFault::Passed {
                part,
                link,
                earlier,
            } => write!(
                f,
                "part {part}: link {link} carried what link {earlier} admits, maybe because the part was at its end"
            ),
            MergeFault::Write => f.write_str("the report could not be written"),
        }
    }
}
