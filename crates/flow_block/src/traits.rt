//! A block by the calls that all blocks have in common.
//!
//! These calls name a link. At a link out of it the block stands as its end of that link does, whether it shares its
//! messages out or copies them. At a link into it, it stands as the end at the port into which the link leads. A caller
//! that has both ends and drives the phase of each link uses the calls of [`Block`] that name a place.
//!
//! What a block does not know, these calls do not do: the function of one that has a function, and in which order messages
//! came in over the ports of a batched join. Such a block makes nothing by itself.
ghost use Rattle.std.specs.Prelude.{◌≡◌, true, false, length, Err, OnOk, OnErr};
ghost use Rattle.flow_link.specs.Plan.{is_broadcast};
ghost use Rattle.flow_outlet.specs.declared.fault.OutletFault.TheVariants.{Ids, Memory};
ghost use Rattle.flow_block.specs.Traits.{makes_alone, makes_itself, makes_its_next, lacks_its_ids, shares};

use crate::block::Block;
use crate::by_link::{hold, port_into, wishing_port};
use flow_link::{
    BlockUnit, Completing, DataflowBlock, LinkId, MakeFault, Outcome, PortId, SourceBlock,
    TargetBlock, Wish, WishAnswer,
};
use flow_outlet::OutletFault;
use flow_value::{MessageHeader, MessageStatus, Parcel};
use std::alloc::{AllocError, Global};

/// A block that has nothing left to do stops as done when it is asked: from then on it takes nothing more.
///
/// Microsoft: `IDataflowBlock.Completion`.
impl Completing for Block {
    ghost use Rattle.std.specs.Prelude.{◌≡◌};
    ghost use Rattle.flow_block.specs.Traits.{outcome_of, settles};

    ghost outcome = { outcome_of };

    ghost learns = { λ old new. new ≡ settles old };

    fn completion(&mut self) -> Option<Outcome> {
        if self.may_finish() {
            self.stop(Outcome::Done);
        }
        self.stopped
    }
}

/// Microsoft: `IDataflowBlock`.
impl DataflowBlock for Block {
    ghost use Rattle.flow_block.specs.Traits.{MayCompletePort, MayFault, Acts};

    ghost may_complete = { MayCompletePort };

    ghost may_fault = { MayFault };

    ghost acts = { Acts };

    fn complete(&mut self, port: PortId) {
        self.close_port(port as usize);
    }

    fn fault(&mut self, number: u32) {
        if self.stopped.is_none() {
            self.stop(Outcome::Faulted(number));
        }
    }

    fn make(&mut self, alloc: Global) -> Result<bool, MakeFault> {
        if !self.makes_itself() {
            return Ok(false);
        }
        match self.make_next(alloc) {
            Ok(()) => Ok(true),
            Err(OutletFault::Ids) => Err(MakeFault::Ids),
            Err(OutletFault::Memory) => Err(MakeFault::Memory),
        }
    }
}

/// Microsoft: `ISourceBlock<TOutput>`.
impl SourceBlock for Block {
    ghost use Rattle.flow_block.specs.Traits.{source_at, is_source_busy, shares, rests_by, Gives};

    ghost source_stage = { source_at };

    ghost is_busy = { is_source_busy };

    ghost gives = { Gives };

    fn next_offer(&mut self, alloc: Global) -> Result<Option<(LinkId, MessageHeader)>, AllocError> {
        if self.stopped.is_some() {
            return Ok(None);
        }
        if self.shares() {
            self.offer_head(alloc)
        } else {
            self.offer_next_copy(alloc)
        }
    }

    fn note_answer(&mut self, link: LinkId, header: MessageHeader, status: MessageStatus) {
        if self.shares() {
            self.exits.note_answer(link, header, status);
        } else {
            self.note_copy(link, header, status);
        }
    }

    fn consume_message(&mut self, link: LinkId, header: MessageHeader) -> Option<Parcel> {
        if self.shares() {
            self.give_head(link, header)
        } else {
            self.give_copy_over(link, header)
        }
    }

    fn reserve_message(&mut self, link: LinkId, header: MessageHeader) -> bool {
        if self.shares() {
            self.keep_head(link, header)
        } else {
            self.keep_copy(link, header)
        }
    }

    fn release_reservation(&mut self, link: LinkId, header: MessageHeader) {
        if self.shares() {
            self.exits.release_reservation(link, header);
        } else {
            self.release_copy(link, header);
        }
    }

    ghost rests = { λ block nothing. rests_by (shares block) block nothing };
}

/// Microsoft: `ITargetBlock<TInput>`.
impl TargetBlock for Block {
    ghost use Rattle.std.specs.Prelude.{length};
    ghost use Rattle.flow_block.specs.Traits.{target_over, port_into, Takes, completes_at_rest, faults_at_rest};

    ghost target_stage = { λ block. target_over block.ports };

    ghost port_count = { λ block. length block.ports };

    ghost port_into = { λ block link. port_into link block.ports };

    ghost takes = { Takes };

    fn offer_message(
        &mut self,
        _alloc: Global,
        origin: LinkId,
        header: MessageHeader,
        may_postpone: bool,
    ) -> Result<MessageStatus, AllocError> {
        let port = port_into(&self.ports, origin);
        self.ports[port].answer(origin, header, may_postpone)
    }

    fn hand_over(&mut self, origin: LinkId, _header: MessageHeader, parcel: Parcel) {
        let port = port_into(&self.ports, origin);
        self.ports[port].arrive(origin, parcel);
        self.copy_taken();
    }

    fn next_wish(&mut self) -> Wish {
        let Some(port) = wishing_port(&self.ports) else {
            return Wish::None;
        };
        match self.ports[port].next_postponed() {
            Some((link, _)) => Wish::Consume(link),
            None => Wish::None,
        }
    }

    fn note_wish(&mut self, origin: LinkId, answer: WishAnswer) {
        let port = port_into(&self.ports, origin);
        match answer {
            WishAnswer::Coming => {}
            WishAnswer::Held => hold(&mut self.ports[port], origin),
            WishAnswer::NotAvailable | WishAnswer::Withdrawn => {
                self.ports[port].drop_postponed(origin);
            }
        }
    }

    ghost may_complete_at_rest = { λ block port there rests. completes_at_rest block port there rests };

    ghost may_fault_at_rest = { λ block rests. faults_at_rest block rests };
}

impl Block {
    /// Whether its links share its messages; else each is given a copy.
    fn shares(&self) -> bool
        ensures { result ≡ shares self.now }
    {
        self.kind.unit().shares()
    }

    /// Whether it makes outputs without a function, and holds what it needs for the next. A broadcast does also where its
    /// element was put off.
    fn makes_itself(&self) -> bool
        ensures { result ≡ makes_itself self.now }
    {
        if !self.makes_alone() {
            return false;
        }
        if self.kind.unit().copies_each() {
            self.would_copy()
        } else {
            self.may_make()
        }
    }

    /// Whether it is of a kind that makes outputs without a function, and has the ports of that kind.
    fn makes_alone(&self) -> bool
        ensures { result ≡ makes_alone self.now.kind (length self.now.ports) }
    {
        if self.kind.has_work() {
            return false;
        }
        match self.kind.unit() {
            BlockUnit::Message | BlockUnit::Row | BlockUnit::Copy => self.ports.len() == 1,
            BlockUnit::Tuple => !self.ports.is_empty(),
            BlockUnit::Group | BlockUnit::OneCopy => false,
        }
    }

    /// A buffer hands on what waits longest, a batch makes its next row, a join its next tuple, and a broadcast copies what
    /// waits longest from now on. Where message ids are used up or memory is out, nothing has changed.
    #[inline(always)]
    pub(crate) fn make_next(&mut self, alloc: Global) -> Result<(), OutletFault>
        requires { makes_itself self.old ≡ true }
        ensures done { OnOk result (self.new ≡ makes_its_next self.old) }
        ensures kept { OnErr result (self.new ≡ self.old) }
        ensures enough { OnOk result (lacks_its_ids self.old ≡ false) }
        ensures ids { result ≡ Err Ids → lacks_its_ids self.old ≡ true }
        ensures copies_none { result ≡ Err Memory → is_broadcast self.old.kind ≡ false }
        ensures memory { result ≡ Err Memory → lacks_its_ids self.old ≡ false }
    {
        match self.kind.unit() {
            BlockUnit::Message => self.hand_on(),
            BlockUnit::Row => self.make_row(alloc),
            BlockUnit::Tuple => self.make_tuple(alloc),
            BlockUnit::Copy => self.copy_next(),
            BlockUnit::Group | BlockUnit::OneCopy => unreachable!(),
        }
    }
}
