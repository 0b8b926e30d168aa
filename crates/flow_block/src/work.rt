//! The jobs of a block: what it works on, and what becomes of a result that comes back.
ghost use Rattle.std.specs.Prelude.{◌≡◌, ℕ, ◌+◌, ◌<◌, ◌≤◌, ◌==◌, true, false, length, get_or, IfSome, OnOk, OnErr, [], pos};
ghost use Rattle.std.specs.Prelude.{◌≢◌, ◌↔◌, ◌++◌, None, Err, IfErr, cond, is_some, vec_len, vec_capacity};
ghost use Rattle.std.specs.Option.{IfNone};
ghost use Rattle.flow_value.specs.declared.value.Value.TheVariants.{Int};
ghost use Rattle.flow_link.specs.declared.draft.BlockKind.TheVariants.{Action};
ghost use Rattle.flow_link.specs.Plan.{has_work};
ghost use Rattle.flow_outlet.specs.Outlet.{lacks_ids};
ghost use Rattle.flow_outlet.specs.declared.fault.OutletFault.TheVariants.{Ids};
ghost use Rattle.flow_block.specs.Block.{held_by, job_message, with_jobs, fails, ends_job, put_by_job};
ghost use Rattle.flow_block.specs.Jobs.{has_ticket, is_out, faults_at_once, brings, comes_out, is_front_back};
ghost use Rattle.flow_block.specs.JobsOut.{MayPutOut, is_front_made, front_fault, fails_where, puts_front, puts_rest};
ghost use Rattle.flow_block.specs.JobsOut.{jobs_recorded, port_recorded, all_out};

use crate::block::Block;
use crate::jobs::{Answer, Jobs};
use crate::ports::unit_weight;
use flow_intake::Intake;
use flow_link::BlockKind;
use flow_outlet::OutletFault;
use flow_value::Value;
use std::alloc::AllocError;

// What it works on.
impl Block {
    /// Whether it works on nothing.
    pub fn is_idle(&self) -> bool
        ensures { result ≡ (length self.now.jobs.slots == 0) }
    {
        self.jobs.len() == 0
    }

    /// Whether there is a ticket for one job more.
    pub fn has_ticket(&self) -> bool
        ensures { result ≡ has_ticket self.now.jobs }
    {
        self.jobs.has_ticket()
    }

    /// The ticket of the next job that begins.
    pub fn next_ticket(&self) -> u64
        requires { has_ticket self.now.jobs ≡ true }
        ensures { result ≡ self.now.jobs.first + length self.now.jobs.slots }
    {
        self.jobs.next_ticket()
    }

    /// The ticket of the oldest job whose result has not come back.
    pub fn find_out(&self) -> Option<u64>
        ensures is { IfSome result (λ ticket. is_out ticket self.now.jobs ≡ true) }
        ensures oldest { IfSome result (λ ticket. (t : ℕ) → t < ticket → is_out t self.now.jobs ≡ false) }
        ensures none { IfNone result ((t : ℕ) → is_out t self.now.jobs ≡ false) }
    {
        self.jobs.find_out()
    }

    /// The message of a job whose result has not come back.
    pub fn job_message(&self, ticket: u64) -> &Value
        requires ports { 0 < length self.now.ports }
        requires out { is_out ticket self.now.jobs ≡ true }
        requires held { length self.now.jobs.slots ≤ length (held_by self.now) }
        ensures { result.now ≡ job_message ticket self.now }
    {
        &self.ports[0].waiting()[self.jobs.place(ticket)]
    }

    /// The message that the next job is of.
    pub fn begun_message(&self) -> &Value
        requires ports { 0 < length self.now.ports }
        requires more { length self.now.jobs.slots < length (held_by self.now) }
        ensures { result.now ≡ get_or (held_by self.now) (length self.now.jobs.slots) (Int (pos 0)) }
    {
        &self.ports[0].waiting()[self.jobs.len()]
    }
}

// How a job ends.
impl Block {
    /// Its function faults on the message that it holds first, on which it worked at once: from now on its ports take
    /// no message any more. It is refused where there is no memory for that, and where tickets are used up.
    pub fn fail_at_once(&mut self, number: u32) -> Result<(), AllocError>
        requires { self.old.jobs.slots ≡ [] }
        ensures done { OnOk result (self.new ≡ fails number (with_jobs (faults_at_once number) self.old)) }
        ensures kept { OnErr result (self.new ≡ self.old) }
    {
        self.jobs.fault_at_once(number)?;
        self.fail(number);
        Ok(())
    }

    /// The result of a job comes back, and what is in order comes out, up to a fault. Where message ids are used up or
    /// there is no memory for what comes out, nothing has changed, and the result comes back.
    pub fn end_job(&mut self, ticket: u64, answer: Answer) -> Result<(), (Answer, OutletFault)>
        requires alone { length self.old.ports ≡ 1 }
        requires works { has_work self.old.kind ≡ true }
        requires out { is_out ticket self.old.jobs ≡ true }
        requires held { length self.old.jobs.slots ≤ length (held_by self.old) }
        requires drained { self.old.fault ≡ None → is_front_back self.old.jobs.slots ≡ false }
        ensures done { OnOk result (self.new ≡ ends_job ticket answer self.old) }
        ensures kept { OnErr result (self.new ≡ self.old) }
        ensures back { IfErr result (λ refused. refused.0 ≡ answer) }
        ensures ids { (result ≡ Err (answer, Ids)) ↔
            (lacks_ids (put_by_job ticket answer self.old) self.old.exits ≡ true) }
    {
        if self.fault.is_some() || !self.jobs.is_first(ticket) {
            self.jobs.bring(ticket, answer);
            return Ok(());
        }
        if self.kind != BlockKind::Action {
            return self.put_from(ticket, answer);
        }
        match self.record_from(ticket, answer) {
            Ok(()) => Ok(()),
            Err(answer) => Err((answer, OutletFault::Memory)),
        }
    }

    /// The result of the message that is held first comes back, and all that is there comes out, to be given.
    #[tactic(auto, using(crate::proofs::JobsBack::first_back, crate::proofs::JobsBack::lacks_same))]
    fn put_from(&mut self, ticket: u64, answer: Answer) -> Result<(), (Answer, OutletFault)>
        requires alone { length self.old.ports ≡ 1 }
        requires works { has_work self.old.kind ≡ true }
        requires gives { self.old.kind ≢ Action }
        requires out { is_out ticket self.old.jobs ≡ true }
        requires first { ticket ≡ self.old.jobs.first }
        requires held { length self.old.jobs.slots ≤ length (held_by self.old) }
        ensures done { OnOk result (self.new ≡ all_out ticket answer self.old) }
        ensures kept { OnErr result (self.new ≡ self.old) }
        ensures back { IfErr result (λ refused. refused.0 ≡ answer) }
        ensures ids { (result ≡ Err (answer, Ids)) ↔
            (lacks_ids (comes_out (brings ticket answer self.old.jobs).slots) self.old.exits ≡ true) }
    {
        let count = self.jobs.count_out(&answer);
        if let Err(fault) = self.exits.set_aside(count) {
            return Err((answer, fault));
        }
        self.jobs.bring(ticket, answer);
        self.put_all();
        Ok(())
    }

    /// The result of the message that is held first comes back, and all that is there is recorded.
    fn record_from(&mut self, ticket: u64, answer: Answer) -> Result<(), Answer>
        requires alone { length self.old.ports ≡ 1 }
        requires records { self.old.kind ≡ Action }
        requires out { is_out ticket self.old.jobs ≡ true }
        requires first { ticket ≡ self.old.jobs.first }
        requires held { length self.old.jobs.slots ≤ length (held_by self.old) }
        ensures done { OnOk result (self.new ≡ all_out ticket answer self.old) }
        ensures kept { OnErr result (self.new ≡ self.old) }
        ensures back { IfErr result (λ back. back ≡ answer) }
    {
        let count = self.jobs.count_out(&answer);
        // there is no memory for so many, and the count may stand for more
        if count == usize::MAX || self.recorded.reserve(count).is_err() {
            return Err(answer);
        }
        self.jobs.bring(ticket, answer);
        record_all(&mut self.recorded, &mut self.jobs, &mut self.ports[0]);
        self.fail_front();
        Ok(())
    }

    /// The result that is there first comes out. It tells whether there was one.
    fn put_front(&mut self) -> bool
        requires { MayPutOut self.old }
        ensures more { result ≡ is_front_made self.old.jobs.slots }
        ensures put { self.new ≡ puts_front self.old.jobs.slots self.old }
    {
        let Some(values) = self.jobs.pop_out() else {
            return false;
        };
        if values.is_empty() {
            self.drop_first();
            return true;
        }
        let weight = unit_weight(&self.ports[0]);
        self.exits.put_aside(values, weight);
        self.ports[0].drop_next();
        true
    }

    /// All that is there comes out in order, up to a fault.
    fn put_all(&mut self)
        requires { MayPutOut self.old }
        ensures { self.new ≡ puts_rest self.old.jobs.slots self.old }
    {
        while self.put_front() {}
        self.fail_front();
    }

    /// Where a fault is there first, it is the block's.
    fn fail_front(&mut self)
        ensures { self.new ≡ fails_where (front_fault self.old.jobs.slots) self.old }
    {
        if let Some(number) = self.jobs.front_fault() {
            self.fail(number);
        }
    }
}

/// All that is there is recorded in order, up to a fault, and the room of each message comes back.
fn record_all(recorded: &mut Vec<Value>, jobs: &mut Jobs, port: &mut Intake)
    requires space { vec_len recorded.old + length (comes_out jobs.old.slots) ≤ vec_capacity recorded.old }
    requires held { length jobs.old.slots ≤ length port.old.waiting }
    requires room { cond (is_some port.old.capacity) (length port.old.waiting) 0 ≤ port.old.load }
    ensures recorded { recorded.new.items ≡ recorded.old.items ++ comes_out jobs.old.slots }
    ensures jobs { jobs.new ≡ jobs_recorded jobs.old.slots jobs.old }
    ensures port { port.new ≡ port_recorded jobs.old.slots port.old }
{
    while let Some(values) = jobs.pop_out() {
        append(recorded, values);
        port.drop_next();
        port.give_room(1);
    }
}

/// Appends values where there is memory for them.
fn append(recorded: &mut Vec<Value>, values: Vec<Value>)
    requires { vec_len recorded.old + length values.items ≤ vec_capacity recorded.old }
    ensures items { recorded.new.items ≡ recorded.old.items ++ values.items }
    ensures len { vec_len recorded.new ≡ vec_len recorded.old + length values.items }
    ensures capacity { vec_capacity recorded.old ≤ vec_capacity recorded.new }
{
    let mut values = values;
    let Ok(()) = recorded.append(&mut values) else {
        unreachable!()
    };
}
