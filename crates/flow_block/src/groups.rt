//! The groups of a batched join: the messages that came in first, whatever their ports.
//!
//! In which order they came in, the journal says. A node goes over each of its marks once, as the groups that they are of
//! are made.
ghost use Rattle.std.specs.Prelude.{◌≡◌, ◌<◌, ◌≤◌, ◌+◌, ◌^◌, true, false, [], ◌∷◌, take, drop, length, leb, Err, OnOk, OnErr};
ghost use Rattle.flow_outlet.specs.Fits.{weight_of};
ghost use Rattle.flow_outlet.specs.Outlet.{puts, lacks_ids};
ghost use Rattle.flow_outlet.specs.declared.fault.OutletFault.TheVariants.{Ids, Memory};
ghost use Rattle.flow_group.specs.Tuple.{all_ended};
ghost use Rattle.flow_group.specs.Group.{group_of, takes_group, drops_group};
ghost use Rattle.flow_block.specs.Groups.{makes_group, ports_in, marks_until, waiting_in_all, has_group_at};
ghost use Rattle.flow_block.specs.Node.{order_in, makes_next_group};
ghost use Rattle.flow_block.specs.Peeks.{has_group_of_ports};

use crate::block::Block;
use crate::node::Node;
use flow_group::{Arrivals, all_ended, copy_group, take_group};
use flow_intake::Intake;
use flow_link::Mark;
use flow_outlet::{Outlet, OutletFault};
use flow_value::Value;
use std::alloc::Global;

impl Block {
    /// Makes a group of the messages that came in first, as many as a group has, or all where there are fewer: a row that
    /// has for each port a row of its messages. The caller tells in which order the messages that wait came in. Where
    /// message ids are used up or there is no memory for the row, nothing has changed.
    pub fn make_group(&mut self, alloc: Global, order: &mut Arrivals) -> Result<(), OutletFault>
        ensures done { OnOk result (self.new ≡ makes_group self.old.size 0 order.old.ports self.old) }
        ensures dropped { OnOk result (order.new ≡ drops_group self.old.size order.old) }
        ensures kept { OnErr result (self.new ≡ self.old) }
        ensures order_kept { OnErr result (order.new ≡ order.old) }
        ensures enough { OnOk result
            (lacks_ids (group_of self.old.size order.old.ports self.old.ports ∷ []) self.old.exits ≡ false) }
        ensures ids { result ≡ Err Ids →
            lacks_ids (group_of self.old.size order.old.ports self.old.ports ∷ []) self.old.exits ≡ true }
        ensures memory { result ≡ Err Memory →
            lacks_ids (group_of self.old.size order.old.ports self.old.ports ∷ []) self.old.exits ≡ false }
    {
        if self.exits.lacks_ids(1) {
            return Err(OutletFault::Ids);
        }
        let Ok(row) = copy_group(alloc, order, &self.ports, self.size) else {
            return Err(OutletFault::Memory);
        };
        put_rows(&mut self.ports, &mut self.exits, row, order, self.size)?;
        Ok(())
    }
}

impl Block {
    /// Whether a batched join holds what it makes a group of: as many messages wait at all ports together as a group has,
    /// or some do, and all ports have completed.
    pub(crate) fn has_group_of_ports(&self) -> bool
        ensures { result ≡ has_group_of_ports self.now }
    {
        has_group_at(&self.ports, self.size)
    }
}

/// Whether as many messages wait at these ports as a group has, or some do, and all ports have ended.
fn has_group_at(ports: &[Intake], size: u32) -> bool
    ensures { result ≡ has_group_at size (all_ended ports.now) ports.now }
{
    has_at_least(ports, 1) && (has_at_least(ports, size as usize) || all_ended(ports))
}

/// Whether so many messages or more wait at these ports.
#[tactic(auto, using(crate::proofs::WaitingAtPorts::waiting_more))]
fn has_at_least(ports: &[Intake], count: usize) -> bool
    ensures { result ≡ leb count (waiting_in_all ports.now) }
{
    let mut missing = count;
    for port in ports {
        missing = missing.saturating_sub(port.waiting().len());
    }
    missing == 0
}

/// Puts the row of a group to the exits, without a weight, and takes its messages off the ports; they stay where the exits
/// do not take it.
fn put_rows(
    ports: &mut Vec<Intake>,
    exits: &mut Outlet,
    row: Value,
    order: &mut Arrivals,
    size: u32,
) -> Result<(), OutletFault>
    requires { exits.old.room + weight_of exits.old.groups < 2 ^ 32 }
    ensures taken { OnOk result (ports.new.items ≡ takes_group size order.old.ports ports.old.items) }
    ensures dropped { OnOk result (order.new ≡ drops_group size order.old) }
    ensures there { OnOk result (exits.new ≡ puts (row ∷ []) 0 exits.old) }
    ensures stays { OnErr result (ports.new.items ≡ ports.old.items) }
    ensures order_kept { OnErr result (order.new ≡ order.old) }
    ensures kept { OnErr result (exits.new ≡ exits.old) }
    ensures ids { result ≡ Err Ids → lacks_ids (row ∷ []) exits.old ≡ true }
{
    match exits.put_one(row, 0) {
        Ok(()) => {
            take_group(order, ports, size);
            Ok(())
        }
        Err((_, fault)) => Err(fault),
    }
}

impl Node {
    /// Makes a group of the messages that came in first, as many as a group has, or all where there are fewer. Where
    /// message ids are used up or there is no memory for the row, nothing has changed.
    pub(crate) fn make_group(&mut self, alloc: Global) -> Result<(), OutletFault>
        ensures done { OnOk result (self.new ≡ makes_next_group self.old) }
        ensures kept { OnErr result (self.new ≡ self.old) }
        ensures enough { OnOk result
            (lacks_ids (group_of self.old.block.size (order_in self.old) self.old.block.ports ∷ []) self.old.block.exits ≡ false) }
        ensures ids { result ≡ Err Ids →
            lacks_ids (group_of self.old.block.size (order_in self.old) self.old.block.ports ∷ []) self.old.block.exits ≡ true }
        ensures memory { result ≡ Err Memory →
            lacks_ids (group_of self.old.block.size (order_in self.old) self.old.block.ports ∷ []) self.old.block.exits ≡ false }
    {
        if self.block.exits.lacks_ids(1) {
            return Err(OutletFault::Ids);
        }
        let size = self.block.size as usize;
        let mut order = Arrivals::new(alloc);
        let Ok(()) = order.prepare(size) else {
            return Err(OutletFault::Memory);
        };
        let grouped = note_first(&mut order, self.journal.as_slice(), self.grouped, size);
        self.block.make_group(alloc, &mut order)?;
        self.grouped = grouped;
        Ok(())
    }
}

/// Notes at which ports the first messages came in, by the marks from one of them on: so many messages, or all where there
/// are fewer. It tells the place of the mark behind theirs.
fn note_first(order: &mut Arrivals, journal: &[Mark], from: usize, count: usize) -> usize
    requires fresh { order.old.ports ≡ [] }
    requires room { count ≤ order.old.room }
    ensures noted { order.new.ports ≡ take count (ports_in (drop from journal.now)) }
    ensures behind { result ≡ from + marks_until (drop from journal.now) count }
{
    let mut place = from;
    while place < journal.len() && order.len() < count {
        if let Mark::Took(port, _, _) = &journal[place] {
            order.note(*port as usize);
        }
        place += 1;
    }
    place
}
