//! A batched join by the calls that all blocks have in common: they are those of its block, and each message that comes is
//! noted. It makes the groups of those that came first.
ghost use Rattle.std.specs.Prelude.{◌≡◌, ◌≤◌, ◌+◌, OnOk};
ghost use Rattle.flow_block.specs.JournalFits.{ports_due};

use crate::batched_join::BatchedJoin;
use flow_block::Block;
use flow_group::Arrivals;
use flow_link::{
    Completing, DataflowBlock, LinkId, MakeFault, Outcome, PortId, SourceBlock, TargetBlock, Wish,
    WishAnswer,
};
use flow_outlet::OutletFault;
use flow_value::{MessageHeader, MessageStatus, Parcel};
use std::alloc::{AllocError, Global};

/// Microsoft: `IDataflowBlock.Completion`.
impl Completing for BatchedJoin {
    ghost use Rattle.flow_block.specs.Traits.{outcome_of};
    ghost use Rattle.flow_kinds.specs.BatchedCalls.{Learns};

    ghost outcome = { λ join. outcome_of join.block };

    ghost learns = { Learns };

    fn completion(&mut self) -> Option<Outcome> {
        self.block.completion()
    }
}

/// Microsoft: `IDataflowBlock`.
impl DataflowBlock for BatchedJoin {
    ghost use Rattle.flow_block.specs.Traits.{MayCompletePort, MayFault};
    ghost use Rattle.flow_kinds.specs.BatchedCalls.{Acts};

    ghost may_complete = { λ join. MayCompletePort join.block };

    ghost may_fault = { λ join. MayFault join.block };

    ghost acts = { Acts };

    fn complete(&mut self, port: PortId) {
        DataflowBlock::complete(&mut self.block, port);
    }

    fn fault(&mut self, number: u32) {
        DataflowBlock::fault(&mut self.block, number);
    }

    fn make(&mut self, alloc: Global) -> Result<bool, MakeFault> {
        if !self.has_group() {
            return Ok(false);
        }
        match self.block.make_group(alloc, &mut self.order) {
            Ok(()) => Ok(true),
            Err(OutletFault::Ids) => Err(MakeFault::Ids),
            Err(OutletFault::Memory) => Err(MakeFault::Memory),
        }
    }
}

/// Microsoft: `ISourceBlock<TOutput>`.
impl SourceBlock for BatchedJoin {
    ghost use Rattle.flow_block.specs.Traits.{source_at, is_source_busy, shares, rests_by};
    ghost use Rattle.flow_kinds.specs.BatchedCalls.{Gives};

    ghost source_stage = { λ join. source_at join.block };

    ghost is_busy = { λ join. is_source_busy join.block };

    ghost gives = { Gives };

    fn next_offer(&mut self, alloc: Global) -> Result<Option<(LinkId, MessageHeader)>, AllocError> {
        SourceBlock::next_offer(&mut self.block, alloc)
    }

    fn note_answer(&mut self, link: LinkId, header: MessageHeader, status: MessageStatus) {
        self.block.note_answer(link, header, status);
    }

    fn consume_message(&mut self, link: LinkId, header: MessageHeader) -> Option<Parcel> {
        self.block.consume_message(link, header)
    }

    fn reserve_message(&mut self, link: LinkId, header: MessageHeader) -> bool {
        self.block.reserve_message(link, header)
    }

    fn release_reservation(&mut self, link: LinkId, header: MessageHeader) {
        self.block.release_reservation(link, header);
    }

    ghost rests = { λ join nothing. rests_by (shares join.block) join.block nothing };
}

/// Microsoft: `ITargetBlock<TInput>`.
impl TargetBlock for BatchedJoin {
    ghost use Rattle.std.specs.Prelude.{length};
    ghost use Rattle.flow_block.specs.Traits.{target_over, port_into, completes_at_rest, faults_at_rest};
    ghost use Rattle.flow_kinds.specs.BatchedCalls.{Takes};

    ghost target_stage = { λ join. target_over join.block.ports };

    ghost port_count = { λ join. length join.block.ports };

    ghost port_into = { λ join link. port_into link join.block.ports };

    ghost takes = { Takes };

    fn offer_message(
        &mut self,
        alloc: Global,
        origin: LinkId,
        header: MessageHeader,
        may_postpone: bool,
    ) -> Result<MessageStatus, AllocError> {
        reserve_arrival(&mut self.order, &self.block)?;
        self.block
            .offer_message(alloc, origin, header, may_postpone)
    }

    fn hand_over(&mut self, origin: LinkId, header: MessageHeader, parcel: Parcel) {
        let port = self.block.port_into(origin);
        self.block.hand_over(origin, header, parcel);
        self.order.note(port);
    }

    fn next_wish(&mut self) -> Wish {
        self.block.next_wish()
    }

    fn note_wish(&mut self, origin: LinkId, answer: WishAnswer) {
        self.block.note_wish(origin, answer);
    }

    ghost may_complete_at_rest = { λ join port there rests. completes_at_rest join.block port there rests };

    ghost may_fault_at_rest = { λ join rests. faults_at_rest join.block rests };
}

/// Sets memory aside to note one message more than those that may come anyway.
fn reserve_arrival(order: &mut Arrivals, block: &Block) -> Result<(), AllocError>
    requires { ports_due block.now.ports ≤ order.old.room }
    ensures ports { order.new.ports ≡ order.old.ports }
    ensures room { OnOk result (ports_due block.now.ports + 1 ≤ order.new.room) }
    ensures more { order.old.room ≤ order.new.room }
{
    let room = order.room();
    if block.messages_due() == room {
        order.prepare(room.checked_add(1).ok_or(AllocError)?)?;
    }
    Ok(())
}
