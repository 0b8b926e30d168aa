//! What a block does by itself: it works on the message that waits longest, and it ends.
ghost use Rattle.std.specs.Prelude.{◌≡◌, ◌<◌, ◌↔◌, true, false, [], ◌∷◌, length, take, Err, OnOk, OnErr, IfErr};
ghost use Rattle.flow_intake.specs.Calls.{gives_room, port_closes, takes_next};
ghost use Rattle.flow_outlet.specs.Outlet.{lacks_ids};
ghost use Rattle.flow_outlet.specs.declared.fault.OutletFault.TheVariants.{Ids, Memory};
ghost use Rattle.flow_block.specs.Block.{with_port, with_jobs, begins, held_by, records, puts_out, fails, stops_by};
ghost use Rattle.flow_block.specs.Block.{row_of, next_group, makes_row};
ghost use Rattle.flow_block.specs.Jobs.{has_ticket, works_off};

use crate::block::Block;
use crate::ports::{
    close_ports, copy_group, fail_ports, group_weight, hand_first, put_group, unit_weight,
};
use flow_link::Outcome;
use flow_outlet::OutletFault;
use flow_value::{Row, Value};
use std::alloc::{AllocError, Global};

// What it makes of the message that waits longest.
impl Block {
    /// Hands the message on as it is. Where message ids are used up or there is no memory for it, nothing has changed.
    #[inline(always)]
    pub fn hand_on(&mut self) -> Result<(), OutletFault>
        requires alone { length self.old.ports ≡ 1 }
        requires waits { 0 < length (held_by self.old) }
        ensures done { OnOk result (self.new ≡ puts_out (take 1 (held_by self.old)) self.old) }
        ensures kept { OnErr result (self.new ≡ self.old) }
        ensures ids { (result ≡ Err Ids) ↔ (lacks_ids (take 1 (held_by self.old)) self.old.exits ≡ true) }
    {
        let weight = unit_weight(&self.ports[0]);
        hand_first(&mut self.ports[0], &mut self.exits, weight)?;
        Ok(())
    }

    /// Makes a row of the messages that it holds first: as many as a row has, or all where there are fewer. Where message
    /// ids are used up or there is no memory for the row, nothing has changed.
    pub fn make_row(&mut self, alloc: Global) -> Result<(), OutletFault>
        requires alone { length self.old.ports ≡ 1 }
        ensures done { OnOk result (self.new ≡ makes_row self.old) }
        ensures kept { OnErr result (self.new ≡ self.old) }
        ensures enough { OnOk result (lacks_ids (row_of (next_group self.old) ∷ []) self.old.exits ≡ false) }
        ensures ids { result ≡ Err Ids → lacks_ids (row_of (next_group self.old) ∷ []) self.old.exits ≡ true }
        ensures memory { result ≡ Err Memory → lacks_ids (row_of (next_group self.old) ∷ []) self.old.exits ≡ false }
    {
        if self.exits.lacks_ids(1) {
            return Err(OutletFault::Ids);
        }
        let Ok(values) = copy_group(alloc, &self.ports[0], self.size) else {
            return Err(OutletFault::Memory);
        };
        let Ok(row) = Row::new(alloc, values) else {
            return Err(OutletFault::Memory);
        };
        let weight = group_weight(&self.ports[0], self.size);
        let row = Value::Row(row);
        put_group(&mut self.ports[0], &mut self.exits, row, self.size, weight)?;
        Ok(())
    }

    /// Has these results of the message to give; its room comes back when they are all given, and at once where there
    /// are none. Where message ids are used up or there is no memory for them, nothing has changed, and they come back.
    pub fn put_out(&mut self, values: Vec<Value>) -> Result<(), (Vec<Value>, OutletFault)>
        requires alone { length self.old.ports ≡ 1 }
        requires waits { 0 < length (held_by self.old) }
        requires alone_at_work { self.old.jobs.slots ≡ [] }
        requires ticket { has_ticket self.old.jobs ≡ true }
        ensures done { OnOk result (self.new ≡ with_jobs works_off (puts_out values.items self.old)) }
        ensures kept { OnErr result (self.new ≡ self.old) }
        ensures back { IfErr result (λ refused. refused.0 ≡ values) }
        ensures ids { (result ≡ Err (values, Ids)) ↔ (lacks_ids values.items self.old.exits ≡ true) }
    {
        if values.is_empty() {
            self.drop_first();
            self.jobs.work_off();
            return Ok(());
        }
        let weight = unit_weight(&self.ports[0]);
        self.exits.put(values, weight)?;
        self.ports[0].drop_next();
        self.jobs.work_off();
        Ok(())
    }

    /// Has this result of the message to give, as [`Block::put_out`] has a list of it, without a list.
    #[inline(always)]
    pub fn put_out_one(&mut self, value: Value) -> Result<(), (Value, OutletFault)>
        requires alone { length self.old.ports ≡ 1 }
        requires waits { 0 < length (held_by self.old) }
        requires alone_at_work { self.old.jobs.slots ≡ [] }
        requires ticket { has_ticket self.old.jobs ≡ true }
        ensures done { OnOk result (self.new ≡ with_jobs works_off (puts_out (value ∷ []) self.old)) }
        ensures kept { OnErr result (self.new ≡ self.old) }
        ensures back { IfErr result (λ refused. refused.0 ≡ value) }
        ensures ids { (result ≡ Err (value, Ids)) ↔ (lacks_ids (value ∷ []) self.old.exits ≡ true) }
    {
        let weight = unit_weight(&self.ports[0]);
        self.exits.put_one(value, weight)?;
        let _message = self.ports[0].take_next();
        self.jobs.work_off();
        Ok(())
    }

    /// Keeps these results of the message, whose room comes back at once. Where there is no memory for them, nothing
    /// has changed, and they come back.
    pub fn record(&mut self, values: Vec<Value>) -> Result<(), Vec<Value>>
        requires alone { length self.old.ports ≡ 1 }
        requires waits { 0 < length (held_by self.old) }
        requires alone_at_work { self.old.jobs.slots ≡ [] }
        requires ticket { has_ticket self.old.jobs ≡ true }
        ensures done { OnOk result (self.new ≡ with_jobs works_off (records values.items self.old)) }
        ensures kept { OnErr result (self.new ≡ self.old) }
        ensures back { IfErr result (λ back. back.items ≡ values.items) }
    {
        let mut values = values;
        if self.recorded.append(&mut values).is_err() {
            return Err(values);
        }
        self.drop_first();
        self.jobs.work_off();
        Ok(())
    }

    /// Keeps this result of the message, as [`Block::record`] does a list of it, without a list.
    #[inline(always)]
    pub fn record_one(&mut self, value: Value) -> Result<(), Value>
        requires alone { length self.old.ports ≡ 1 }
        requires waits { 0 < length (held_by self.old) }
        requires alone_at_work { self.old.jobs.slots ≡ [] }
        requires ticket { has_ticket self.old.jobs ≡ true }
        ensures done { OnOk result (self.new ≡ with_jobs works_off (records (value ∷ []) self.old)) }
        ensures kept { OnErr result (self.new ≡ self.old) }
        ensures back { IfErr result (λ back. back ≡ value) }
    {
        if self.recorded.reserve(1).is_err() {
            return Err(value);
        }
        self.recorded.push_reserved(value);
        self.drop_first();
        self.jobs.work_off();
        Ok(())
    }

    /// Keeps the message as its result, as [`Block::record_one`] does a copy of it. Where there is no memory for it,
    /// nothing has changed.
    #[inline(always)]
    pub fn record_first(&mut self) -> Result<(), AllocError>
        requires alone { length self.old.ports ≡ 1 }
        requires waits { 0 < length (held_by self.old) }
        requires alone_at_work { self.old.jobs.slots ≡ [] }
        requires ticket { has_ticket self.old.jobs ≡ true }
        ensures done { OnOk result (self.new ≡ with_jobs works_off (records (take 1 (held_by self.old)) self.old)) }
        ensures kept { OnErr result (self.new ≡ self.old) }
    {
        self.recorded.reserve(1)?;
        let port = &mut self.ports[0];
        let Some(message) = port.take_next() else {
            unreachable!()
        };
        port.give_room(1);
        self.recorded.push_reserved(message);
        self.jobs.work_off();
        Ok(())
    }

    /// The message is done with, and its room comes back.
    #[inline(always)]
    pub(crate) fn drop_first(&mut self)
        requires alone { length self.old.ports ≡ 1 }
        requires waits { 0 < length (held_by self.old) }
        ensures { self.new ≡ with_port 0 (λ port. gives_room 1 (takes_next port)) self.old }
    {
        let port = &mut self.ports[0];
        port.drop_next();
        port.give_room(1);
    }

    /// Works on one more of the messages that it holds. It is refused where memory is out, and where tickets are used up,
    /// after 2^64 - 1 of them.
    pub fn begin(&mut self) -> Result<(), AllocError>
        ensures done { OnOk result (self.new ≡ begins self.old) }
        ensures kept { OnErr result (self.new ≡ self.old) }
    {
        self.jobs.begin()
    }

    /// Its function faults on the message, with this number: from now on its ports take no message any more.
    pub fn fail(&mut self, number: u32)
        ensures { self.new ≡ fails number self.old }
    {
        self.fault = Some(number);
        fail_ports(&mut self.ports);
    }
}

// How it ends.
impl Block {
    /// A port takes no message any more.
    ///
    /// Microsoft: `IDataflowBlock.Complete`.
    pub fn close_port(&mut self, port: usize)
        requires { port < length self.old.ports }
        ensures { self.new ≡ with_port port port_closes self.old }
    {
        self.ports[port].close_port();
    }

    /// It stops so, and no port takes a message any more.
    pub fn stop(&mut self, how: Outcome)
        ensures { self.new ≡ stops_by how self.old }
    {
        self.stopped = Some(how);
        close_ports(&mut self.ports);
    }
}
