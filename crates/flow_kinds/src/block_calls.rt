//! A block without a function by the calls that all blocks have in common: they are those of its block.
use crate::block::TypedBlock;
use crate::kind::Kind;
use flow_link::{
    Completing, DataflowBlock, LinkId, MakeFault, Outcome, PortId, SourceBlock, TargetBlock, Wish,
    WishAnswer,
};
use flow_value::{MessageHeader, MessageStatus, Parcel};
use std::alloc::{AllocError, Global};

/// Microsoft: `IDataflowBlock.Completion`.
impl<K: Kind> Completing for TypedBlock<K> {
    ghost use Rattle.std.specs.Prelude.{◌≡◌};
    ghost use Rattle.flow_block.specs.Traits.{outcome_of, settles};

    ghost outcome = { outcome_of };

    ghost learns = { λ old new. new ≡ settles old };

    fn completion(&mut self) -> Option<Outcome> {
        self.block.completion()
    }
}

/// Microsoft: `IDataflowBlock`.
impl<K: Kind> DataflowBlock for TypedBlock<K> {
    ghost use Rattle.flow_block.specs.Traits.{MayCompletePort, MayFault, Acts};

    ghost may_complete = { MayCompletePort };

    ghost may_fault = { MayFault };

    ghost acts = { Acts };

    fn complete(&mut self, port: PortId) {
        DataflowBlock::complete(&mut self.block, port);
    }

    fn fault(&mut self, number: u32) {
        DataflowBlock::fault(&mut self.block, number);
    }

    fn make(&mut self, alloc: Global) -> Result<bool, MakeFault> {
        self.block.make(alloc)
    }
}

/// Microsoft: `ISourceBlock<TOutput>`.
impl<K: Kind> SourceBlock for TypedBlock<K> {
    ghost use Rattle.flow_block.specs.Traits.{source_at, is_source_busy, Gives, shares, rests_by};

    ghost source_stage = { source_at };

    ghost is_busy = { is_source_busy };

    ghost gives = { Gives };

    fn next_offer(&mut self, alloc: Global) -> Result<Option<(LinkId, MessageHeader)>, AllocError> {
        SourceBlock::next_offer(&mut self.block, alloc)
    }

    fn note_answer(&mut self, link: LinkId, header: MessageHeader, status: MessageStatus) {
        self.block.note_answer(link, header, status);
    }

    fn consume_message(&mut self, link: LinkId, header: MessageHeader) -> Option<Parcel> {
        self.block.consume_message(link, header)
    }

    fn reserve_message(&mut self, link: LinkId, header: MessageHeader) -> bool {
        self.block.reserve_message(link, header)
    }

    fn release_reservation(&mut self, link: LinkId, header: MessageHeader) {
        self.block.release_reservation(link, header);
    }

    ghost rests = { λ block nothing. rests_by (shares block) block nothing };
}

/// Microsoft: `ITargetBlock<TInput>`.
impl<K: Kind> TargetBlock for TypedBlock<K> {
    ghost use Rattle.std.specs.Prelude.{length};
    ghost use Rattle.flow_block.specs.Traits.{target_over, port_into, Takes, completes_at_rest, faults_at_rest};

    ghost target_stage = { λ block. target_over block.ports };

    ghost port_count = { λ block. length block.ports };

    ghost port_into = { λ block link. port_into link block.ports };

    ghost takes = { Takes };

    fn offer_message(
        &mut self,
        alloc: Global,
        origin: LinkId,
        header: MessageHeader,
        may_postpone: bool,
    ) -> Result<MessageStatus, AllocError> {
        self.block
            .offer_message(alloc, origin, header, may_postpone)
    }

    fn hand_over(&mut self, origin: LinkId, header: MessageHeader, parcel: Parcel) {
        self.block.hand_over(origin, header, parcel);
    }

    fn next_wish(&mut self) -> Wish {
        self.block.next_wish()
    }

    fn note_wish(&mut self, origin: LinkId, answer: WishAnswer) {
        self.block.note_wish(origin, answer);
    }

    ghost may_complete_at_rest = { λ block port there rests. completes_at_rest block port there rests };

    ghost may_fault_at_rest = { λ block rests. faults_at_rest block rests };
}
