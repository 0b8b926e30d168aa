//! A join that reserves by the calls that all blocks have in common: they are those of its block, but that it wishes by its
//! round.
use crate::reserving_join::ReservingJoin;
use crate::wishes::{loses_front, make_wish};
use flow_link::{
    Completing, DataflowBlock, LinkId, MakeFault, Outcome, PortId, SourceBlock, TargetBlock, Wish,
    WishAnswer,
};
use flow_value::{MessageHeader, MessageStatus, Parcel};
use std::alloc::{AllocError, Global};

/// Microsoft: `IDataflowBlock.Completion`.
impl Completing for ReservingJoin {
    ghost use Rattle.flow_block.specs.Traits.{outcome_of};
    ghost use Rattle.flow_kinds.specs.ReservingCalls.{Learns};

    ghost outcome = { λ join. outcome_of join.block };

    ghost learns = { Learns };

    fn completion(&mut self) -> Option<Outcome> {
        self.block.completion()
    }
}

/// Microsoft: `IDataflowBlock`.
impl DataflowBlock for ReservingJoin {
    ghost use Rattle.flow_block.specs.Traits.{MayCompletePort, MayFault};
    ghost use Rattle.flow_kinds.specs.ReservingCalls.{Acts};

    ghost may_complete = { λ join. MayCompletePort join.block };

    ghost may_fault = { λ join. MayFault join.block };

    ghost acts = { Acts };

    fn complete(&mut self, port: PortId) {
        DataflowBlock::complete(&mut self.block, port);
    }

    fn fault(&mut self, number: u32) {
        DataflowBlock::fault(&mut self.block, number);
    }

    fn make(&mut self, alloc: Global) -> Result<bool, MakeFault> {
        self.block.make(alloc)
    }
}

/// Microsoft: `ISourceBlock<TOutput>`.
impl SourceBlock for ReservingJoin {
    ghost use Rattle.flow_block.specs.Traits.{source_at, is_source_busy, shares, rests_by};
    ghost use Rattle.flow_kinds.specs.ReservingCalls.{Gives};

    ghost source_stage = { λ join. source_at join.block };

    ghost is_busy = { λ join. is_source_busy join.block };

    ghost gives = { Gives };

    fn next_offer(&mut self, alloc: Global) -> Result<Option<(LinkId, MessageHeader)>, AllocError> {
        SourceBlock::next_offer(&mut self.block, alloc)
    }

    fn note_answer(&mut self, link: LinkId, header: MessageHeader, status: MessageStatus) {
        self.block.note_answer(link, header, status);
    }

    fn consume_message(&mut self, link: LinkId, header: MessageHeader) -> Option<Parcel> {
        self.block.consume_message(link, header)
    }

    fn reserve_message(&mut self, link: LinkId, header: MessageHeader) -> bool {
        self.block.reserve_message(link, header)
    }

    fn release_reservation(&mut self, link: LinkId, header: MessageHeader) {
        self.block.release_reservation(link, header);
    }

    ghost rests = { λ join nothing. rests_by (shares join.block) join.block nothing };
}

/// Microsoft: `ITargetBlock<TInput>`.
impl TargetBlock for ReservingJoin {
    ghost use Rattle.std.specs.Prelude.{length};
    ghost use Rattle.flow_block.specs.Traits.{target_over, port_into, completes_at_rest, faults_at_rest};
    ghost use Rattle.flow_kinds.specs.ReservingCalls.{Takes};

    ghost target_stage = { λ join. target_over join.block.ports };

    ghost port_count = { λ join. length join.block.ports };

    ghost port_into = { λ join link. port_into link join.block.ports };

    ghost takes = { Takes };

    fn offer_message(
        &mut self,
        alloc: Global,
        origin: LinkId,
        header: MessageHeader,
        may_postpone: bool,
    ) -> Result<MessageStatus, AllocError> {
        self.block
            .offer_message(alloc, origin, header, may_postpone)
    }

    fn hand_over(&mut self, origin: LinkId, header: MessageHeader, parcel: Parcel) {
        self.block.hand_over(origin, header, parcel);
        self.round.settle(false, self.block.ports());
    }

    fn next_wish(&mut self) -> Wish {
        make_wish(&mut self.block, &mut self.round)
    }

    fn note_wish(&mut self, origin: LinkId, answer: WishAnswer) {
        let gone = loses_front(&self.block, origin, answer);
        self.block.note_wish(origin, answer);
        self.round.settle(gone, self.block.ports());
    }

    ghost may_complete_at_rest = { λ join port there rests. completes_at_rest join.block port there rests };

    ghost may_fault_at_rest = { λ join rests. faults_at_rest join.block rests };
}
