//! An execution block by the calls that all blocks have in common: they are those of its block, and leave its work as it
//! is. It makes nothing by itself, since it has a function.
use crate::execution::Execution;
use flow_link::{
    Completing, DataflowBlock, LinkId, MakeFault, Outcome, PortId, SourceBlock, TargetBlock, Wish,
    WishAnswer,
};
use flow_value::{MessageHeader, MessageStatus, Parcel};
use std::alloc::{AllocError, Global};

/// Microsoft: `IDataflowBlock.Completion`.
impl<W> Completing for Execution<W> {
    ghost use Rattle.flow_block.specs.Traits.{outcome_of};
    ghost use Rattle.flow_exec.specs.Calls.{Learns};

    ghost outcome = { λ execution. outcome_of execution.block };

    ghost learns = { Learns };

    fn completion(&mut self) -> Option<Outcome> {
        self.block.completion()
    }
}

/// Microsoft: `IDataflowBlock`.
impl<W> DataflowBlock for Execution<W> {
    ghost use Rattle.flow_block.specs.Traits.{MayCompletePort, MayFault};
    ghost use Rattle.flow_exec.specs.Calls.{Acts};

    ghost may_complete = { λ execution. MayCompletePort execution.block };

    ghost may_fault = { λ execution. MayFault execution.block };

    ghost acts = { Acts };

    fn complete(&mut self, port: PortId) {
        DataflowBlock::complete(&mut self.block, port);
    }

    fn fault(&mut self, number: u32) {
        DataflowBlock::fault(&mut self.block, number);
    }

    fn make(&mut self, alloc: Global) -> Result<bool, MakeFault> {
        self.block.make(alloc)
    }
}

/// Microsoft: `ISourceBlock<TOutput>`.
impl<W> SourceBlock for Execution<W> {
    ghost use Rattle.flow_block.specs.Traits.{source_at, is_source_busy, shares, rests_by};
    ghost use Rattle.flow_exec.specs.Calls.{Gives};

    ghost source_stage = { λ execution. source_at execution.block };

    ghost is_busy = { λ execution. is_source_busy execution.block };

    ghost gives = { Gives };

    fn next_offer(&mut self, alloc: Global) -> Result<Option<(LinkId, MessageHeader)>, AllocError> {
        SourceBlock::next_offer(&mut self.block, alloc)
    }

    fn note_answer(&mut self, link: LinkId, header: MessageHeader, status: MessageStatus) {
        self.block.note_answer(link, header, status);
    }

    fn consume_message(&mut self, link: LinkId, header: MessageHeader) -> Option<Parcel> {
        self.block.consume_message(link, header)
    }

    fn reserve_message(&mut self, link: LinkId, header: MessageHeader) -> bool {
        self.block.reserve_message(link, header)
    }

    fn release_reservation(&mut self, link: LinkId, header: MessageHeader) {
        self.block.release_reservation(link, header);
    }

    ghost rests = { λ execution nothing. rests_by (shares execution.block) execution.block nothing };
}

/// Microsoft: `ITargetBlock<TInput>`.
impl<W> TargetBlock for Execution<W> {
    ghost use Rattle.std.specs.Prelude.{length};
    ghost use Rattle.flow_block.specs.Traits.{target_over, port_into, completes_at_rest, faults_at_rest};
    ghost use Rattle.flow_exec.specs.Calls.{Takes};

    ghost target_stage = { λ execution. target_over execution.block.ports };

    ghost port_count = { λ execution. length execution.block.ports };

    ghost port_into = { λ execution link. port_into link execution.block.ports };

    ghost takes = { Takes };

    fn offer_message(
        &mut self,
        alloc: Global,
        origin: LinkId,
        header: MessageHeader,
        may_postpone: bool,
    ) -> Result<MessageStatus, AllocError> {
        self.block
            .offer_message(alloc, origin, header, may_postpone)
    }

    fn hand_over(&mut self, origin: LinkId, header: MessageHeader, parcel: Parcel) {
        self.block.hand_over(origin, header, parcel);
    }

    fn next_wish(&mut self) -> Wish {
        self.block.next_wish()
    }

    fn note_wish(&mut self, origin: LinkId, answer: WishAnswer) {
        self.block.note_wish(origin, answer);
    }

    ghost may_complete_at_rest = { λ execution port there rests. completes_at_rest execution.block port there rests };

    ghost may_fault_at_rest = { λ execution rests. faults_at_rest execution.block rests };
}
