//! The source's end, with what it gives next: the numbers 1, 2, 3 and so on, each under the id of the same number.
ghost use Rattle.std.specs.Prelude.{◌≡◌, ◌⊎◌, ◌<◌, true, false, None};
ghost use Rattle.flow_link.specs.Stage.{source_stage_of};
ghost use Rattle.flow_link.specs.declared.stage.SourceStage.TheVariants.{Free, Waiting, Accepted, Wished, AskedBy, Claimed};
ghost use Rattle.flow_wire.specs.Ends.{fills, is_to_fill};

use crate::chance::Chance;
use flow_link::{LinkEnd, SourceStage};
use flow_value::{MessageHeader, Parcel, Value};
use flow_wire::{SourceEnd, Wire};
use std::alloc::{AllocError, Global};

#[derive(Drop)]
pub(crate) struct Sender {
    end: SourceEnd,
    stage: SourceStage,
    next: u64,
    count: u64,
    chance: Chance,
    ghost knows: { end.side.view.stage ≡ source_stage_of stage },
    ghost no_limit: { end.side.facts.max ≡ None },
    ghost propagates: { end.side.facts.propagates ≡ true },
    ghost rises: { end.side.view.last < next },
}

impl Sender {
    pub(crate) fn new(end: SourceEnd, count: u64, seed: u64) -> Sender
        requires free { end.side.view.stage ≡ source_stage_of Free }
        requires no_limit { end.side.facts.max ≡ None }
        requires propagates { end.side.facts.propagates ≡ true }
        requires first { end.side.view.last ≡ 0 }
        ensures { result.end ≡ end }
    {
        Sender {
            end,
            stage: SourceStage::Free,
            next: 1,
            count,
            chance: Chance::new(seed),
        }
    }

    pub(crate) fn into_end(self) -> SourceEnd
        ensures end { result ≡ self.end }
        ensures home { fills result.side.view.stage ≡ false }
    {
        self.end
    }

    /// Whether it has given all its numbers and ended the link.
    pub(crate) fn is_done(&self) -> bool {
        matches!(self.stage(), SourceStage::Ended(LinkEnd::Complete)) && self.next > self.count
    }

    // where the end stands
    fn stage(&self) -> SourceStage
        ensures { result ≡ self.now.stage }
    {
        self.stage
    }

    fn look(&mut self, wire: &Wire)
        requires { self.old.end.table ≡ wire.now }
        ensures { self.new.end.table ≡ self.old.end.table }
    {
        let stage = self.stage();
        let phase = self.end.look(wire);
        self.stage = stage.look(phase);
    }

    /// One step, or a look where the other end has to move first.
    pub(crate) fn turn(&mut self, alloc: Global, wire: &Wire) -> Result<(), AllocError>
        requires { self.old.end.table ≡ wire.now }
        ensures { self.new.end.table ≡ self.old.end.table }
    {
        match self.stage() {
            SourceStage::Free => self.begin(wire),
            SourceStage::Waiting(header) => self.wait(wire, header),
            SourceStage::Wished(header) => return self.answer_wish(alloc, wire, header),
            SourceStage::AskedBy(header) => self.answer_ask(wire, header),
            SourceStage::Accepted(header) | SourceStage::Claimed(header) => {
                return self.give(alloc, wire, header);
            }
            SourceStage::Posted(_)
            | SourceStage::Out(_)
            | SourceStage::Reserved(_)
            | SourceStage::Crossing => self.look(wire),
            SourceStage::Refused | SourceStage::Ended(_) => {}
        }
        Ok(())
    }

    // posts or offers the next number, or ends the link where there is none
    fn begin(&mut self, wire: &Wire)
        requires table { self.old.end.table ≡ wire.now }
        requires free { self.old.stage ≡ Free }
        ensures { self.new.end.table ≡ self.old.end.table }
    {
        if self.next > self.count {
            self.end.end(wire, LinkEnd::Complete);
            self.stage = SourceStage::Ended(LinkEnd::Complete);
        } else if let Some(header) = MessageHeader::new(self.next) {
            if self.chance.is_one_in(4) {
                self.end.post(wire, header);
                self.stage = SourceStage::Posted(header);
            } else {
                self.end.offer(wire, header);
                self.stage = SourceStage::Out(header);
            }
        }
    }

    // withdraws, now and then
    fn wait(&mut self, wire: &Wire, header: MessageHeader)
        requires table { self.old.end.table ≡ wire.now }
        requires waits { self.old.stage ≡ Waiting header }
        ensures { self.new.end.table ≡ self.old.end.table }
    {
        if self.chance.is_one_in(4) {
            if self.end.withdraw(wire, header) {
                self.stage = SourceStage::Free;
            }
        } else {
            self.look(wire);
        }
    }

    fn answer_wish(
        &mut self,
        alloc: Global,
        wire: &Wire,
        header: MessageHeader,
    ) -> Result<(), AllocError>
        requires table { self.old.end.table ≡ wire.now }
        requires wished { self.old.stage ≡ Wished header }
        ensures { self.new.end.table ≡ self.old.end.table }
    {
        if self.chance.is_one_in(4) {
            self.end.deny(wire);
            self.stage = SourceStage::Free;
            Ok(())
        } else {
            self.give(alloc, wire, header)
        }
    }

    fn answer_ask(&mut self, wire: &Wire, header: MessageHeader)
        requires table { self.old.end.table ≡ wire.now }
        requires asked { self.old.stage ≡ AskedBy header }
        ensures { self.new.end.table ≡ self.old.end.table }
    {
        if self.chance.is_one_in(4) {
            self.end.deny(wire);
            self.stage = SourceStage::Free;
        } else {
            self.end.hold(wire, header);
            self.stage = SourceStage::Reserved(header);
        }
    }

    fn give(&mut self, alloc: Global, wire: &Wire, header: MessageHeader) -> Result<(), AllocError>
        requires table { self.old.end.table ≡ wire.now }
        requires wanted { is_to_fill (source_stage_of self.old.stage) ≡ true }
        requires named { (self.old.stage ≡ Accepted header) ⊎ (self.old.stage ≡ Wished header) ⊎ (self.old.stage ≡ Claimed header) }
        ensures { self.new.end.table ≡ self.old.end.table }
    {
        let number = header.id();
        let Ok(parcel) = Parcel::new(alloc, Value::Int(number as i64)) else {
            return Err(AllocError)
        };
        self.end.take_slot(wire);
        self.end.give(wire, header, parcel);
        self.stage = SourceStage::Crossing;
        self.next = number + 1;
        Ok(())
    }
}
