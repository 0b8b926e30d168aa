//! The target's end, with what it took: it counts the numbers, and notes whether each came in its turn.
ghost use Rattle.std.specs.Prelude.{◌≡◌, true, false, None};
ghost use Rattle.std.specs.Coded.{codes, Coded, Coded-set};
ghost use Rattle.flow_value.specs.contracts.value.Value as content;
ghost use Rattle.flow_value.specs.declared.value.Value.{Value};
ghost use Rattle.flow_link.specs.Views as views;
ghost use Rattle.flow_link.specs.Stage.{target_stage_of};
ghost use Rattle.flow_link.specs.declared.stage.TargetStage.TheVariants.{Free, Offered, Posted, Postponed, Holding, Arrived};
ghost use Rattle.flow_low_rows.specs.Trials.{facts_of};

use crate::chance::Chance;
use flow_link::{LinkEnd, TargetStage};
use flow_value::{MessageHeader, Value};
use flow_wire::{TargetEnd, Wire};

#[derive(Drop)]
pub(crate) struct Receiver {
    end: TargetEnd,
    stage: TargetStage,
    reserves: bool,
    taken: u64,
    is_in_order: bool,
    chance: Chance,
    ghost knows: { end.side.view.stage ≡ target_stage_of stage None } by { let code : Coded (views.TargetStage Value) = Prim.hlevel (codes, content.the_row.coded) in Coded-set code _ _ },
    ghost facts: { end.side.facts ≡ facts_of reserves },
}

impl Receiver {
    pub(crate) fn new(end: TargetEnd, reserves: bool, seed: u64) -> Receiver
        requires free { end.side.view.stage ≡ target_stage_of Free None }
        requires facts { end.side.facts ≡ facts_of reserves }
        ensures { result.end ≡ end }
    {
        Receiver {
            end,
            stage: TargetStage::Free,
            reserves,
            taken: 0,
            is_in_order: true,
            chance: Chance::new(seed),
        }
    }

    pub(crate) fn into_end(self) -> TargetEnd
        ensures { result ≡ self.end }
    {
        self.end
    }

    /// Whether the source has ended the link.
    pub(crate) fn is_done(&self) -> bool {
        matches!(self.stage(), TargetStage::Ended(LinkEnd::Complete))
    }

    /// Whether it took the numbers up to this one, each once and in its turn.
    pub(crate) fn took_all(&self, count: u64) -> bool {
        self.is_in_order && self.taken == count
    }

    // where the end stands
    fn stage(&self) -> TargetStage
        ensures { result ≡ self.now.stage }
    {
        self.stage
    }

    fn look(&mut self, wire: &Wire)
        requires { self.old.end.table ≡ wire.now }
        ensures { self.new.end.table ≡ self.old.end.table }
    {
        let stage = self.stage();
        let phase = self.end.look(wire);
        self.stage = stage.look(phase);
    }

    /// One step, or a look where the other end has to move first.
    pub(crate) fn turn(&mut self, wire: &Wire)
        requires { self.old.end.table ≡ wire.now }
        ensures { self.new.end.table ≡ self.old.end.table }
    {
        match self.stage() {
            TargetStage::Free
            | TargetStage::Accepted(_)
            | TargetStage::Consuming(_)
            | TargetStage::Asking(_)
            | TargetStage::Claiming(_) => self.look(wire),
            TargetStage::Offered(header) => self.answer_offer(wire, header),
            TargetStage::Posted(header) => self.answer_post(wire, header),
            TargetStage::Postponed(header) => self.come_back(wire, header),
            TargetStage::Holding(header) => self.use_held(wire, header),
            TargetStage::Arrived(header) => self.take(wire, header),
            TargetStage::Hand(_) | TargetStage::Refused(_) | TargetStage::Ended(_) => {}
        }
    }

    fn answer_offer(&mut self, wire: &Wire, header: MessageHeader)
        requires table { self.old.end.table ≡ wire.now }
        requires offered { self.old.stage ≡ Offered header }
        ensures { self.new.end.table ≡ self.old.end.table }
    {
        if self.reserves || self.chance.is_one_in(2) {
            self.end.postpone(wire, header);
            self.stage = TargetStage::Postponed(header);
        } else {
            self.end.want(wire, header);
            self.stage = TargetStage::Accepted(header);
        }
    }

    fn answer_post(&mut self, wire: &Wire, header: MessageHeader)
        requires table { self.old.end.table ≡ wire.now }
        requires posted { self.old.stage ≡ Posted header }
        ensures { self.new.end.table ≡ self.old.end.table }
    {
        if self.reserves || self.chance.is_one_in(2) {
            self.end.turn_down(wire);
            self.stage = TargetStage::Free;
        } else {
            self.end.want(wire, header);
            self.stage = TargetStage::Accepted(header);
        }
    }

    // asks for the message or consumes it, now and then
    fn come_back(&mut self, wire: &Wire, header: MessageHeader)
        requires table { self.old.end.table ≡ wire.now }
        requires postponed { self.old.stage ≡ Postponed header }
        ensures { self.new.end.table ≡ self.old.end.table }
    {
        if self.chance.is_one_in(2) {
            self.look(wire);
        } else if self.reserves {
            if self.end.ask(wire, header) {
                self.stage = TargetStage::Asking(header);
            }
        } else if self.end.consume(wire, header) {
            self.stage = TargetStage::Consuming(header);
        }
    }

    // claims what is kept for it, or gives it up
    fn use_held(&mut self, wire: &Wire, header: MessageHeader)
        requires table { self.old.end.table ≡ wire.now }
        requires held { self.old.stage ≡ Holding header }
        ensures { self.new.end.table ≡ self.old.end.table }
    {
        if self.chance.is_one_in(4) {
            self.end.release(wire, header);
            self.stage = TargetStage::Postponed(header);
        } else {
            self.end.claim(wire, header);
            self.stage = TargetStage::Claiming(header);
        }
    }

    fn take(&mut self, wire: &Wire, header: MessageHeader)
        requires table { self.old.end.table ≡ wire.now }
        requires arrived { self.old.stage ≡ Arrived header }
        ensures { self.new.end.table ≡ self.old.end.table }
    {
        let parcel = self.end.open(wire, header);
        self.end.close(wire);
        self.stage = TargetStage::Free;
        self.taken = self.taken.saturating_add(1);
        let (value, _) = parcel.into_parts();
        let is_next = match value {
            Value::Int(number) => number >= 0
                && number as u64 == self.taken
                && header.id() == self.taken,
            Value::Text(_) | Value::Row(_) => false,
        };
        self.is_in_order = self.is_in_order && is_next;
    }
}
