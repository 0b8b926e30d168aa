//! What the parts of a scattered network share.
ghost use Rattle.std.specs.Prelude.{◌≡◌, ◌<◌, ◌≤◌, length, map, IfSome};
ghost use Rattle.std.specs.Option.{IfNone};
ghost use Rattle.flow_link.specs.Planned.{layout_of};
ghost use Rattle.flow_block.specs.Planned.{links_out};
ghost use Rattle.flow_task.specs.Inputs.{OpenOnesPost, links_of_inputs, stays_open};
ghost use Rattle.flow_moves.specs.Apart.{apart_in};
ghost use Rattle.flow_task.specs.Lanes.{lane_count};
ghost use Rattle.flow_task.specs.Numbers.{closed_before, entry_count};

use crate::lane_rows::lane_count;
use flow_link::{LinkId, Outcome};
use flow_moves::NetParts;
use flow_wire::Wire;
use once_cell::race::OnceBox;
use std::snapshot::Snapshot;

/// The plan of a network, and the wires of its links by their numbers. Its parts borrow it, on whichever thread they are.
#[derive(Drop)]
pub struct Board<W> {
    /// The plan, and what the network is put together with again; no block, input, exit or link.
    pub(crate) rest: NetParts<W>,
    /// The network as it was scattered.
    pub(crate) begun: Snapshot<NetParts<W>>,
    pub(crate) wires: Vec<Wire>,
    /// The links of inputs, and of exits.
    pub(crate) inputs: Vec<LinkId>,
    pub(crate) exits: Vec<LinkId>,
    /// Of each input, in the order of their links, whether it is an entry.
    pub(crate) opens: Vec<bool>,
    /// Of each block how it has ended, once its task has told it.
    pub(crate) cells: Vec<OnceBox<Outcome>>,
    ghost lines: { length rest.lines.items ≡ length (layout_of rest.plan).links },
    ghost wired: { length wires.items ≡ length (layout_of rest.plan).links },
    ghost inputs_are: { inputs.items ≡ links_of_inputs (layout_of rest.plan) },
    ghost exits_are: { exits.items ≡ links_out (layout_of rest.plan) },
    ghost told: { length opens.items ≡ length inputs.items },
    ghost celled: { length cells.items ≡ length (layout_of rest.plan).blocks },
    ghost opens_are: { opens.items ≡ map stays_open begun.value.inputs.items },
    ghost open_ones_post: { OpenOnesPost (apart_in begun.value) },
}

impl<W> Board<W> {
    ghost use Rattle.flow_task.specs.Parts.{board_layout, board_opens};

    /// How many blocks there are.
    pub fn block_count(&self) -> usize
        ensures { result ≡ length (board_layout self.now).blocks }
    {
        self.rest.plan.block_count()
    }

    /// How many inputs there are.
    pub fn input_count(&self) -> usize
        ensures { result ≡ length (board_opens self.now) }
    {
        self.opens.len()
    }

    /// How many inputs are turned: they are no entries.
    pub(crate) fn closed_count(&self) -> usize
        ensures { result ≡ closed_before (layout_of self.now.rest.plan) self.now.opens.items (length self.now.opens.items) }
    {
        self.opens.iter().filter(|open| !**open).count()
    }

    /// How many lanes are tasks.
    pub(crate) fn lane_count(&self) -> usize
        ensures { result ≡ lane_count (layout_of self.now.rest.plan) }
    {
        lane_count(&self.rest.plan)
    }

    /// How many inputs are entries.
    pub(crate) fn open_count(&self) -> usize
        ensures { result ≡ entry_count (layout_of self.now.rest.plan) self.now.opens.items }
    {
        self.opens.iter().filter(|open| **open).count()
    }

    /// The word that stands for the phase of a link, of which nothing is promised: other threads may move it at once. None where there
    /// is no such link.
    pub fn peek(&self, link: LinkId) -> Option<u64>
        ensures there { IfSome result (λ word. link < length (board_layout self.now).links) }
        ensures none { IfNone result (length (board_layout self.now).links ≤ link) }
    {
        let wire = self.wires.get(link as usize)?;
        Some(wire.peek())
    }

    /// How many links lead out of the network.
    pub(crate) fn exit_count(&self) -> usize
        ensures { result ≡ length (links_out (layout_of self.now.rest.plan)) }
    {
        self.exits.len()
    }
}
