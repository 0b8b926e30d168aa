//! A node of a network: a block with its journal.
//!
//! Room for the mark of a message is set aside with the room for the message, so that the calls that move it take no
//! memory.
ghost use Rattle.std.specs.Prelude.{◌≡◌, ◌<◌, ◌≤◌, ◌+◌, ◌^◌, [], ◌∷◌, true, length, take, is_some, Some, None, Err, OnOk, OnErr};
ghost use Rattle.std.specs.Prelude.{ℕ, List, Result, ◌↔◌, false, IfErr, vec_len, vec_capacity};
ghost use Rattle.flow_value.specs.declared.value.Value.{Value};
ghost use Rattle.flow_link.specs.LinkOk.{HasRoom};
ghost use Rattle.flow_link.specs.Plan.{has_work, is_write_once};
ghost use Rattle.flow_link.specs.declared.trace.Mark.TheVariants.{Complete, Fault, Done};
ghost use Rattle.flow_link.specs.declared.trace.Outcome.TheVariants as outcome;
ghost use Rattle.flow_intake.specs.Port.{stage_at as port_stage, is_offer, is_hand, is_holding, has_room};
ghost use Rattle.flow_intake.specs.Calls.{prepared, is_offered, is_posted, is_postponed, is_arrived};
ghost use Rattle.flow_intake.specs.Calls.{may_be_refused, unprepared, wants, turns_down, postpones, refuses, consumes};
ghost use Rattle.flow_intake.specs.Calls.{asks, claims, releases, opens, looks as port_looks, port_closes};
ghost use Rattle.flow_intake.specs.Calls.{is_front, loses_front};
ghost use Rattle.flow_group.specs.Round.{claims_on};
ghost use Rattle.flow_group.specs.declared.round.RoundStep.TheVariants as steps;
ghost use Rattle.flow_outlet.specs.End.{is_waiting, is_free};
ghost use Rattle.flow_outlet.specs.Outlet.{end_at, stage_at, may_offer, may_give, may_hold, is_wish, prepares, offers};
ghost use Rattle.flow_outlet.specs.Outlet.{holds, denies, withdraws, ends_link, looks, head_of, lacks_ids};
ghost use Rattle.flow_outlet.specs.declared.fault.OutletFault.TheVariants.{Ids, Memory};
ghost use Rattle.flow_block.specs.Block.{port_at, with_port, with_jobs, begins, held_by, records, puts_out, ends_job};
ghost use Rattle.flow_block.specs.Block.{put_by_job, has_ports, fails, stops_by};
ghost use Rattle.flow_block.specs.Jobs.{has_ticket, works_off, is_out, is_front_back, faults_at_once};
ghost use Rattle.flow_block.specs.JournalFits.{marks_due};
ghost use Rattle.flow_block.specs.Node.{next_in, goes_round, with_block, with_exits, marks};
ghost use Rattle.flow_block.specs.Node.{takes_in, gives_from, hand_at, makes_next};
ghost use Rattle.flow_block.specs.Peeks.{may_make, lacks_next};

use crate::block::Block;
use crate::jobs::Answer;
use flow_group::{Round, Source};
use flow_intake::Intake;
use flow_link::{LinkEnd, Mark, Move, Outcome, Phase, PortId};
use flow_outlet::OutletFault;
use flow_value::{Kept, MessageHeader, Parcel, Value};
use std::alloc::{AllocError, Global};
use std::marker::Model;

/// A block with its journal. Contracts see a `NodeState`.
#[derive(Drop)]
pub struct Node {
    pub(crate) journal: Vec<Mark>,
    pub(crate) block: Block,
    /// How many of its marks are no younger than those of the messages that are in groups, if it is a batched join.
    pub(crate) grouped: usize,
    /// How far its round is, if it is a join that reserves.
    pub(crate) round: Round,
}

impl Model for Node {
    ghost use Rattle.std.specs.Coded.{codes};
    ghost use Rattle.std.specs.Prelude.{◌≤◌, ◌+◌, vec_len, vec_capacity};
    ghost use Rattle.flow_value.specs.contracts.value.Value as content;
    ghost use Rattle.flow_link.specs.contracts.trace.Mark as mark;
    ghost use Rattle.flow_block.specs.JournalFits.{marks_due};
    ghost use Rattle.flow_block.specs.Node.{NodeState};

    ghost Value = { NodeState };

    ghost coded = { Prim.hlevel (codes, mark.the_row.coded, content.the_row.coded) };

    ghost view = { λ n. record { block = n.block; journal = n.journal.items; grouped = n.grouped; round = n.round } };

    ghost invariant = { λ n. vec_len n.journal + marks_due n.block ≤ vec_capacity n.journal };
}

impl Node {
    /// A node with this block, for which nothing is under way, and with an empty journal. A join that reserves has the
    /// sources of all links into it; another block has none.
    pub fn new(alloc: Global, block: Block, sources: Vec<Source>) -> Node
        requires { marks_due block ≡ 0 }
        ensures { result ≡ record {
          block = block;
          journal = [];
          grouped = 0;
          round = record { sources = sources.items; step = steps.Asks };
        } }
    {
        Node {
            journal: Vec::new(alloc),
            block,
            grouped: 0,
            round: Round::new(sources),
        }
    }

    /// How far its round is, if it is a join that reserves.
    pub fn round(&self) -> &Round
        ensures { result.now ≡ self.now.round }
    {
        &self.round
    }

    /// What the end of a link into it would do next.
    pub fn next_in(&self, port: usize, place: usize) -> Option<Move>
        requires port { port < length self.now.block.ports }
        requires place { place < length (port_at port self.now.block).ends }
        ensures { result ≡ next_in port place self.now }
    {
        match self.block.in_move(port, place) {
            Some(next) => Some(next),
            None => self.round.next(&self.block.ports, port, place),
        }
    }

    // a round goes on with the ports as they are: an offer in front of one has gone, or none has
    fn settle(&mut self, gone: bool)
        ensures { self.new ≡ goes_round gone self.old }
    {
        self.round.settle(gone, &self.block.ports);
    }

    /// The block.
    pub fn block(&self) -> &Block
        ensures { result.now ≡ self.now.block }
    {
        &self.block
    }

    /// What happened to it, in order.
    pub fn journal(&self) -> &[Mark]
        ensures { result.now ≡ self.now.journal }
    {
        self.journal.as_slice()
    }
}

// The target's side of each move: see `Block`.
impl Node {
    /// Sets memory aside for one more message at a port, and for its mark, from the answer to its offer until it is
    /// taken.
    #[inline(always)]
    pub fn prepare_answer(&mut self, port: PortId) -> Result<(), AllocError>
        requires { port < length self.old.block.ports }
        ensures done { OnOk result (self.new ≡ with_block (with_port port prepared self.old.block) self.old) }
        ensures kept { OnErr result (self.new ≡ self.old) }
    {
        reserve_mark(&mut self.journal, &self.block)?;
        self.block.prepare_answer(port as usize)?;
        Ok(())
    }

    /// Memory is not set aside any more for one more message at a port, nor for its mark.
    pub fn forget_answer(&mut self, port: PortId)
        requires { port < length self.old.block.ports }
        ensures { self.new ≡ with_block (with_port port unprepared self.old.block) self.old }
    {
        self.block.forget_answer(port as usize);
    }

    /// Whether memory is set aside for one more message at a port.
    #[inline(always)]
    pub fn is_port_ready(&self, port: PortId) -> bool
        requires { port < length self.now.block.ports }
        ensures { result ≡ (port_at port self.now.block).ready }
    {
        self.block.ports[port as usize].is_ready()
    }

    /// Accepts the offer over the link at this place.
    pub fn want(&mut self, port: PortId, place: usize)
        requires port { port < length self.old.block.ports }
        requires place { place < length (port_at port self.old.block).ends }
        requires offer { is_offer (port_stage place (port_at port self.old.block)) ≡ true }
        requires ready { (port_at port self.old.block).ready ≡ true }
        requires room { has_room (port_at port self.old.block) ≡ true }
        ensures { self.new ≡ with_block (with_port port (wants place) self.old.block) self.old }
    {
        self.block.want(port as usize, place);
    }

    /// Does not take the message that was posted over the link at this place.
    pub fn turn_down(&mut self, port: PortId, place: usize)
        requires port { port < length self.old.block.ports }
        requires place { place < length (port_at port self.old.block).ends }
        requires posted { is_posted (port_stage place (port_at port self.old.block)) ≡ true }
        ensures { self.new ≡ with_block (with_port port (turns_down place) self.old.block) self.old }
    {
        self.block.turn_down(port as usize, place);
    }

    /// Postpones the offer over the link at this place.
    pub fn postpone(&mut self, port: PortId, place: usize)
        requires port { port < length self.old.block.ports }
        requires place { place < length (port_at port self.old.block).ends }
        requires offered { is_offered (port_stage place (port_at port self.old.block)) ≡ true }
        requires ready { (port_at port self.old.block).ready ≡ true }
        ensures { self.new ≡ with_block (with_port port (postpones place) self.old.block) self.old }
    {
        self.block.postpone(port as usize, place);
    }

    /// Refuses the offer over the link at this place for good, which it may have postponed before.
    pub fn refuse(&mut self, port: PortId, place: usize)
        requires port { port < length self.old.block.ports }
        requires place { place < length (port_at port self.old.block).ends }
        requires refusing { is_some (port_at port self.old.block).refusing ≡ true }
        requires offer { may_be_refused (port_stage place (port_at port self.old.block)) ≡ true }
        ensures { self.new ≡ goes_round (is_front place (port_at port self.old.block))
            (with_block (with_port port (refuses place) self.old.block) self.old) }
    {
        let gone = self.block.ports[port as usize].is_front(place);
        self.block.refuse(port as usize, place);
        self.settle(gone);
    }

    /// Consumes the offer over the link at this place, which it postponed.
    pub fn consume(&mut self, port: PortId, place: usize)
        requires port { port < length self.old.block.ports }
        requires place { place < length (port_at port self.old.block).ends }
        requires postponed { is_postponed (port_stage place (port_at port self.old.block)) ≡ true }
        requires room { has_room (port_at port self.old.block) ≡ true }
        ensures { self.new ≡ with_block (with_port port (consumes place) self.old.block) self.old }
    {
        self.block.consume(port as usize, place);
    }

    /// Asks to reserve the offer over the link at this place, which it postponed.
    pub fn ask(&mut self, port: PortId, place: usize)
        requires port { port < length self.old.block.ports }
        requires place { place < length (port_at port self.old.block).ends }
        requires postponed { is_postponed (port_stage place (port_at port self.old.block)) ≡ true }
        requires room { has_room (port_at port self.old.block) ≡ true }
        ensures { self.new ≡ with_block (with_port port (asks place) self.old.block) self.old }
    {
        self.block.ask(port as usize, place);
    }

    /// Claims the message over the link at this place, which is kept for it.
    pub fn claim(&mut self, port: PortId, place: usize)
        requires port { port < length self.old.block.ports }
        requires place { place < length (port_at port self.old.block).ends }
        requires holding { is_holding (port_stage place (port_at port self.old.block)) ≡ true }
        ensures { self.new ≡ record (with_block (with_port port (claims place) self.old.block) self.old) {
          round = claims_on self.old.round;
        } }
    {
        self.block.claim(port as usize, place);
        self.round.claim();
    }

    /// Gives up the message over the link at this place, which is kept for it.
    pub fn release(&mut self, port: PortId, place: usize)
        requires port { port < length self.old.block.ports }
        requires place { place < length (port_at port self.old.block).ends }
        requires holding { is_holding (port_stage place (port_at port self.old.block)) ≡ true }
        ensures { self.new ≡ goes_round false (with_block (with_port port (releases place) self.old.block) self.old) }
    {
        self.block.release(port as usize, place);
        self.settle(false);
    }

    /// Takes the message out of the slot of the link at this place: this is its parcel.
    pub fn open(&mut self, port: PortId, place: usize, parcel: Parcel)
        requires port { port < length self.old.block.ports }
        requires place { place < length (port_at port self.old.block).ends }
        requires arrived { is_arrived (port_stage place (port_at port self.old.block)) ≡ true }
        ensures { self.new ≡ with_block (with_port port (opens place parcel) self.old.block) self.old }
    {
        self.block.open(port as usize, place, parcel);
    }

    /// Makes the message the block's own that it has in hand from the link at this place, and marks that it took it. A
    /// block that takes one message in all copies it from then on.
    pub fn close(&mut self, port: PortId, place: usize)
        requires port { port < length self.old.block.ports }
        requires place { place < length (port_at port self.old.block).ends }
        requires hand { is_hand (port_stage place (port_at port self.old.block)) ≡ true }
        ensures { self.new ≡ goes_round false (takes_in port place (hand_at port place self.old) self.old) }
    {
        let link = self.block.in_link(port as usize, place);
        let value = self.block.close(port as usize, place);
        let mark = Mark::Took(port, link, Kept::new(value));
        self.journal.push_reserved(mark);
        self.block.copy_taken();
        self.settle(false);
    }

    /// Looks at the phase of the link into it at this place.
    pub fn look_in(&mut self, port: PortId, place: usize, phase: Phase)
        requires port { port < length self.old.block.ports }
        requires place { place < length (port_at port self.old.block).ends }
        ensures { self.new ≡ goes_round (loses_front place phase (port_at port self.old.block))
            (with_block (with_port port (port_looks place phase) self.old.block) self.old) }
    {
        let gone = loses_front(&self.block.ports[port as usize], place, &phase);
        self.block.look_in(port as usize, place, phase);
        self.settle(gone);
    }
}

/// Whether the offer over the link at this place waits longest at its port, and has gone, by a look that finds this phase.
fn loses_front(port: &Intake, place: usize, phase: &Phase) -> bool
    requires { place < length port.now.ends }
    ensures { result ≡ loses_front place phase.now port.now }
{
    port.loses_front(place, *phase)
}

// The source's side.
impl Node {
    /// Sets memory aside for the parcel of the head, and for the mark that it is given.
    #[inline(always)]
    pub fn prepare_offer(&mut self, alloc: Global) -> Result<(), AllocError>
        ensures done { OnOk result (self.new ≡ with_exits (prepares self.old.block.exits) self.old) }
        ensures kept { OnErr result (self.new ≡ self.old) }
    {
        reserve_mark(&mut self.journal, &self.block)?;
        self.block.prepare_offer(alloc)?;
        Ok(())
    }

    /// Offers the head over the link at the place where it may be offered, and tells its header.
    pub fn offer(&mut self, place: usize) -> MessageHeader
        requires may { may_offer self.old.block.exits ≡ Some place }
        requires ready { is_some self.old.block.exits.parcel ≡ true }
        ensures header { result ≡ self.old.block.exits.next }
        ensures out { self.new ≡ with_exits (offers place self.old.block.exits) self.old }
    {
        self.block.offer(place)
    }

    /// Gives the head over the link at this place, where it is wanted, and marks that; this is its parcel.
    pub fn give(&mut self, place: usize) -> Parcel
        requires there { place < length self.old.block.exits.ends }
        requires wanted { may_give place self.old.block.exits ≡ true }
        requires ready { is_some self.old.block.exits.parcel ≡ true }
        requires room { HasRoom (end_at self.old.block.exits place).rule.max (end_at self.old.block.exits place).given }
        ensures oldest { head_of self.old.block.exits ≡ Some result }
        ensures given { self.new ≡ gives_from place (head_of self.old.block.exits) self.old }
    {
        let link = self.block.out_link(place);
        let (value, parcel) = self.block.give(place);
        let mark = Mark::Gave(link, Kept::new(value));
        self.journal.push_reserved(mark);
        parcel
    }

    /// Keeps the head for the target that asks to reserve it over the link at this place.
    pub fn hold(&mut self, place: usize)
        requires there { place < length self.old.block.exits.ends }
        requires asked { may_hold place self.old.block.exits ≡ true }
        ensures { self.new ≡ with_exits (holds place self.old.block.exits) self.old }
    {
        self.block.hold(place);
    }

    /// Denies the wish for a message over the link at this place.
    pub fn deny(&mut self, place: usize)
        requires there { place < length self.old.block.exits.ends }
        requires wish { is_wish (stage_at self.old.block.exits place) ≡ true }
        ensures { self.new ≡ with_exits (denies place self.old.block.exits) self.old }
    {
        self.block.deny(place);
    }

    /// Withdraws the offer that was postponed over the link at this place.
    pub fn withdraw(&mut self, place: usize)
        requires there { place < length self.old.block.exits.ends }
        requires waits { is_waiting (stage_at self.old.block.exits place) ≡ true }
        ensures { self.new ≡ with_exits (withdraws place self.old.block.exits) self.old }
    {
        self.block.withdraw(place);
    }

    /// Ends the link at this place.
    pub fn end(&mut self, place: usize, how: LinkEnd)
        requires there { place < length self.old.block.exits.ends }
        requires free { is_free (stage_at self.old.block.exits place) ≡ true }
        ensures { self.new ≡ with_exits (ends_link place how self.old.block.exits) self.old }
    {
        self.block.end(place, how);
    }

    /// Looks at the phase of the link out of it at this place.
    pub fn look_out(&mut self, place: usize, phase: Phase)
        requires { place < length self.old.block.exits.ends }
        ensures { self.new ≡ with_exits (looks place phase self.old.block.exits) self.old }
    {
        self.block.look_out(place, phase);
    }
}

// What it does by itself.
impl Node {
    /// A block without a function makes its next outputs: it hands on or copies the message that waits longest, or makes a
    /// row, a tuple or a group of those that wait. Where message ids are used up or memory is out, nothing has changed;
    /// where both are wanting, ids are told.
    #[inline(always)]
    pub fn make_next(&mut self, alloc: Global) -> Result<(), OutletFault>
        requires alone { has_ports self.old.block.kind ≡ false → length self.old.block.ports ≡ 1 }
        requires ports { 0 < length self.old.block.ports }
        requires waits { may_make self.old.block ≡ true }
        requires many { is_write_once self.old.block.kind ≡ false }
        ensures done { OnOk result ((result : Value → Result (List Value) ℕ) → self.new ≡ makes_next result self.old) }
        ensures enough { OnOk result ((result : Value → Result (List Value) ℕ) → lacks_next result self.old ≡ false) }
        ensures kept { OnErr result (self.new ≡ self.old) }
        ensures ids { result ≡ Err Ids → (result : Value → Result (List Value) ℕ) → lacks_next result self.old ≡ true }
        ensures memory { result ≡ Err Memory →
            (result : Value → Result (List Value) ℕ) → lacks_next result self.old ≡ false }
    {
        if self.block.kind.unit().makes_groups() {
            return self.make_group(alloc);
        }
        self.block.make_next(alloc)?;
        Ok(())
    }

    /// Has these results of the message that waits longest to give. Where message ids are used up or there is no memory
    /// for them, nothing has changed, and they come back.
    pub fn put_out(&mut self, values: Vec<Value>) -> Result<(), (Vec<Value>, OutletFault)>
        requires alone { length self.old.block.ports ≡ 1 }
        requires waits { 0 < length (held_by self.old.block) }
        requires alone_at_work { self.old.block.jobs.slots ≡ [] }
        requires ticket { has_ticket self.old.block.jobs ≡ true }
        ensures done { OnOk result
            (self.new ≡ with_block (with_jobs works_off (puts_out values.items self.old.block)) self.old) }
        ensures kept { OnErr result (self.new ≡ self.old) }
        ensures back { IfErr result (λ refused. refused.0 ≡ values) }
        ensures ids { (result ≡ Err (values, Ids)) ↔ (lacks_ids values.items self.old.block.exits ≡ true) }
    {
        self.block.put_out(values)?;
        Ok(())
    }

    /// Keeps these results of the message that waits longest. Where there is no memory for them, nothing has changed,
    /// and they come back.
    pub fn record(&mut self, values: Vec<Value>) -> Result<(), Vec<Value>>
        requires alone { length self.old.block.ports ≡ 1 }
        requires waits { 0 < length (held_by self.old.block) }
        requires alone_at_work { self.old.block.jobs.slots ≡ [] }
        requires ticket { has_ticket self.old.block.jobs ≡ true }
        ensures done { OnOk result
            (self.new ≡ with_block (with_jobs works_off (records values.items self.old.block)) self.old) }
        ensures kept { OnErr result (self.new ≡ self.old) }
        ensures back { IfErr result (λ back. back.items ≡ values.items) }
    {
        self.block.record(values)?;
        Ok(())
    }

    /// Has this result of the message that waits longest to give, as [`Node::put_out`] has a list of it, without a list.
    #[inline(always)]
    pub fn put_out_one(&mut self, value: Value) -> Result<(), (Value, OutletFault)>
        requires alone { length self.old.block.ports ≡ 1 }
        requires waits { 0 < length (held_by self.old.block) }
        requires alone_at_work { self.old.block.jobs.slots ≡ [] }
        requires ticket { has_ticket self.old.block.jobs ≡ true }
        ensures done { OnOk result
            (self.new ≡ with_block (with_jobs works_off (puts_out (value ∷ []) self.old.block)) self.old) }
        ensures kept { OnErr result (self.new ≡ self.old) }
        ensures back { IfErr result (λ refused. refused.0 ≡ value) }
        ensures ids { (result ≡ Err (value, Ids)) ↔ (lacks_ids (value ∷ []) self.old.block.exits ≡ true) }
    {
        self.block.put_out_one(value)?;
        Ok(())
    }

    /// Keeps this result of the message that waits longest, as [`Node::record`] does a list of it, without a list.
    #[inline(always)]
    pub fn record_one(&mut self, value: Value) -> Result<(), Value>
        requires alone { length self.old.block.ports ≡ 1 }
        requires waits { 0 < length (held_by self.old.block) }
        requires alone_at_work { self.old.block.jobs.slots ≡ [] }
        requires ticket { has_ticket self.old.block.jobs ≡ true }
        ensures done { OnOk result
            (self.new ≡ with_block (with_jobs works_off (records (value ∷ []) self.old.block)) self.old) }
        ensures kept { OnErr result (self.new ≡ self.old) }
        ensures back { IfErr result (λ back. back ≡ value) }
    {
        self.block.record_one(value)?;
        Ok(())
    }

    /// Keeps the message that waits longest as its result, as [`Node::record_one`] does a copy of it. Where there is no
    /// memory for it, nothing has changed.
    #[inline(always)]
    pub fn record_first(&mut self) -> Result<(), AllocError>
        requires alone { length self.old.block.ports ≡ 1 }
        requires waits { 0 < length (held_by self.old.block) }
        requires alone_at_work { self.old.block.jobs.slots ≡ [] }
        requires ticket { has_ticket self.old.block.jobs ≡ true }
        ensures done { OnOk result
            (self.new ≡ with_block (with_jobs works_off (records (take 1 (held_by self.old.block)) self.old.block)) self.old) }
        ensures kept { OnErr result (self.new ≡ self.old) }
    {
        self.block.record_first()?;
        Ok(())
    }

    /// Works on one more of the messages that the block holds. It is refused where memory is out, and where tickets are
    /// used up, after 2^64 - 1 of them.
    pub fn begin(&mut self) -> Result<(), AllocError>
        ensures done { OnOk result (self.new ≡ with_block (begins self.old.block) self.old) }
        ensures kept { OnErr result (self.new ≡ self.old) }
    {
        self.block.begin()?;
        Ok(())
    }

    /// The result of a job comes back, and what is in order comes out, up to a fault. Where message ids are used up or
    /// there is no memory for what comes out, nothing has changed, and the result comes back.
    pub fn end_job(&mut self, ticket: u64, answer: Answer) -> Result<(), (Answer, OutletFault)>
        requires alone { length self.old.block.ports ≡ 1 }
        requires works { has_work self.old.block.kind ≡ true }
        requires out { is_out ticket self.old.block.jobs ≡ true }
        requires held { length self.old.block.jobs.slots ≤ length (held_by self.old.block) }
        requires drained { self.old.block.fault ≡ None → is_front_back self.old.block.jobs.slots ≡ false }
        ensures done { OnOk result (self.new ≡ with_block (ends_job ticket answer self.old.block) self.old) }
        ensures kept { OnErr result (self.new ≡ self.old) }
        ensures back { IfErr result (λ refused. refused.0 ≡ answer) }
        ensures ids { (result ≡ Err (answer, Ids)) ↔
            (lacks_ids (put_by_job ticket answer self.old.block) self.old.block.exits ≡ true) }
    {
        self.block.end_job(ticket, answer)?;
        Ok(())
    }

    /// The block's function faults on the message that waits longest, with this number.
    pub fn fail(&mut self, number: u32)
        ensures { self.new ≡ with_block (fails number self.old.block) self.old }
    {
        self.block.fail(number);
    }

    /// The block's function faults on the message that it holds first, on which it worked at once. It is refused where
    /// there is no memory for that, and where tickets are used up.
    pub fn fail_at_once(&mut self, number: u32) -> Result<(), AllocError>
        requires { self.old.block.jobs.slots ≡ [] }
        ensures done { OnOk result (self.new ≡ with_block
            (fails number (with_jobs (faults_at_once number) self.old.block)) self.old) }
        ensures kept { OnErr result (self.new ≡ self.old) }
    {
        self.block.fail_at_once(number)?;
        Ok(())
    }

    /// A port takes no message any more, and the journal says so. Where there is no memory for the mark, nothing has
    /// changed.
    ///
    /// Microsoft: `IDataflowBlock.Complete`.
    pub fn complete(&mut self, port: PortId) -> Result<(), AllocError>
        requires { port < length self.old.block.ports }
        ensures done { OnOk result
            (self.new ≡ marks (Complete port) (with_block (with_port port port_closes self.old.block) self.old)) }
        ensures kept { OnErr result (self.new ≡ self.old) }
    {
        reserve_mark(&mut self.journal, &self.block)?;
        self.block.close_port(port as usize);
        self.journal.push_reserved(Mark::Complete(port));
        Ok(())
    }

    /// The block stops by a fault, and the journal says so. Where there is no memory for the mark, nothing has changed.
    ///
    /// Microsoft: `IDataflowBlock.Fault`.
    pub fn fault(&mut self, number: u32) -> Result<(), AllocError>
        ensures done { OnOk result
            (self.new ≡ marks (Fault number) (with_block (stops_by (outcome.Faulted number) self.old.block) self.old)) }
        ensures kept { OnErr result (self.new ≡ self.old) }
    {
        reserve_mark(&mut self.journal, &self.block)?;
        self.block.stop(Outcome::Faulted(number));
        self.journal.push_reserved(Mark::Fault(number));
        Ok(())
    }

    /// The block stops, and has nothing left; the journal says so. Where there is no memory for the mark, nothing has
    /// changed.
    pub fn finish(&mut self) -> Result<(), AllocError>
        ensures done { OnOk result
            (self.new ≡ marks Done (with_block (stops_by outcome.Done self.old.block) self.old)) }
        ensures kept { OnErr result (self.new ≡ self.old) }
    {
        reserve_mark(&mut self.journal, &self.block)?;
        self.block.stop(Outcome::Done);
        self.journal.push_reserved(Mark::Done);
        Ok(())
    }
}

/// Sets room aside in the journal for one more mark than those that may follow anyway.
#[inline(always)]
pub(crate) fn reserve_mark(journal: &mut Vec<Mark>, block: &Block) -> Result<(), AllocError>
    requires { vec_len journal.old + marks_due block.now ≤ vec_capacity journal.old }
    ensures items { journal.new.items ≡ journal.old.items }
    ensures len { vec_len journal.new ≡ vec_len journal.old }
    ensures room { OnOk result (vec_len journal.new + marks_due block.now + 1 ≤ vec_capacity journal.new) }
    ensures capacity { vec_capacity journal.old ≤ vec_capacity journal.new }
{
    let count = block.marks_due() + 1;
    if count <= journal.capacity() - journal.len() {
        return Ok(());
    }
    grow(journal, count)
}

// Cold, since memory for as many marks again is taken each time.
#[cold]
#[inline(never)]
fn grow(journal: &mut Vec<Mark>, count: usize) -> Result<(), AllocError>
    ensures items { journal.new.items ≡ journal.old.items }
    ensures len { vec_len journal.new ≡ vec_len journal.old }
    ensures room { OnOk result (vec_len journal.new + count ≤ vec_capacity journal.new) }
    ensures capacity { vec_capacity journal.old ≤ vec_capacity journal.new }
{
    journal.reserve(count)
}
