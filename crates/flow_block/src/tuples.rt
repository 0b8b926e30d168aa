//! The tuples of a join: the messages that wait longest, one from each port.
ghost use Rattle.std.specs.Prelude.{◌≡◌, ◌<◌, ◌+◌, ◌^◌, true, false, [], ◌∷◌, length, Err, OnOk, OnErr};
ghost use Rattle.flow_outlet.specs.Fits.{weight_of};
ghost use Rattle.flow_outlet.specs.Outlet.{puts, lacks_ids};
ghost use Rattle.flow_outlet.specs.declared.fault.OutletFault.TheVariants.{Ids, Memory};
ghost use Rattle.flow_group.specs.Tuple.{has_tuple, tuple_of, takes_tuple};
ghost use Rattle.flow_block.specs.Block.{makes_tuple};

use crate::block::Block;
use crate::ports::unit_weight;
use flow_group::{copy_tuple, take_tuple};
use flow_intake::Intake;
use flow_outlet::{Outlet, OutletFault};
use flow_value::Value;
use std::alloc::Global;

impl Block {
    /// Makes a tuple of the messages that wait longest, one from each port: a row in the order of the ports. Where message
    /// ids are used up or there is no memory for the row, nothing has changed.
    pub fn make_tuple(&mut self, alloc: Global) -> Result<(), OutletFault>
        requires ports { 0 < length self.old.ports }
        requires waits { has_tuple self.old.ports ≡ true }
        ensures done { OnOk result (self.new ≡ makes_tuple self.old) }
        ensures kept { OnErr result (self.new ≡ self.old) }
        ensures enough { OnOk result (lacks_ids (tuple_of self.old.ports ∷ []) self.old.exits ≡ false) }
        ensures ids { result ≡ Err Ids → lacks_ids (tuple_of self.old.ports ∷ []) self.old.exits ≡ true }
        ensures memory { result ≡ Err Memory → lacks_ids (tuple_of self.old.ports ∷ []) self.old.exits ≡ false }
    {
        if self.exits.lacks_ids(1) {
            return Err(OutletFault::Ids);
        }
        let Ok(row) = copy_tuple(alloc, &self.ports) else {
            return Err(OutletFault::Memory);
        };
        let weight = unit_weight(&self.ports[0]);
        put_tuple(&mut self.ports, &mut self.exits, row, weight)?;
        Ok(())
    }
}

/// Puts a row of the messages that wait longest to the exits, with this weight, and takes these messages off; they stay
/// where the exits do not take it.
fn put_tuple(
    ports: &mut Vec<Intake>,
    exits: &mut Outlet,
    row: Value,
    weight: u32,
) -> Result<(), OutletFault>
    requires waits { has_tuple ports.old.items ≡ true }
    requires fits { exits.old.room + weight_of exits.old.groups + weight < 2 ^ 32 }
    ensures taken { OnOk result (ports.new.items ≡ takes_tuple ports.old.items) }
    ensures there { OnOk result (exits.new ≡ puts (row ∷ []) weight exits.old) }
    ensures stays { OnErr result (ports.new.items ≡ ports.old.items) }
    ensures kept { OnErr result (exits.new ≡ exits.old) }
    ensures ids { result ≡ Err Ids → lacks_ids (row ∷ []) exits.old ≡ true }
{
    match exits.put_one(row, weight) {
        Ok(()) => {
            take_tuple(ports);
            Ok(())
        }
        Err((_, fault)) => Err(fault),
    }
}
