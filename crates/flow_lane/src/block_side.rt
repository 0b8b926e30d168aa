//! The block's side of a lane: its looks, and its moves of the word and the slot.
ghost use Rattle.std.specs.Prelude.{◌≡◌, ◌↔◌, true, Some, IsOk, OnOk, OnErr, IfErr};
ghost use Rattle.flow_lane.specs.BlockLanes.{has_ticket, is_ended};
ghost use Rattle.flow_lane.specs.Items.{state_of, state_in, ticket_of};
ghost use Rattle.flow_lane.specs.Sides.{FoundNotFree, block_looked, putting, fetching, clearing, ending};
ghost use Rattle.flow_lane.specs.Standing.{standing_of};
ghost use Rattle.flow_lane.specs.Views.{BlockStage, FoundByBlock, StandsAsBlock, is_free, is_ready, is_sent, has_in_hand};

use crate::item::LaneItem;
use crate::phase::{LanePhase, phase_of, word_of};
use crate::plays::{BlockLook, Clear, End, Fetch, Put, SlotOut};
use crate::standing::Standing;
use crate::table::{Lane, SideSeat};
use flow_exec::{Job, JobResult};
use flow_value::Runs;
use std::marker::Model;

/// The block's side of a lane. It belongs to one `Lane`, and each call takes that one.
#[derive(Drop)]
pub struct BlockSide<W: Runs> {
    pub(crate) seat: SideSeat<W>,
    /// What it knows of the lane.
    pub(crate) standing: Standing,
}

impl<W: Runs> Model for BlockSide<W> {
    ghost use Rattle.std.specs.Coded.{codes};
    ghost use Rattle.atomic_table.specs.Seated.{table_id_coded};
    ghost use Rattle.flow_value.specs.contracts.value.Value as content;
    ghost use Rattle.flow_lane.specs.Items.{JobState, ticket_of};
    ghost use Rattle.flow_lane.specs.Sides.{BlockOf};
    ghost use Rattle.flow_lane.specs.SideSeats.{block_of, IsBlockSeat};

    ghost Value = { BlockOf (JobState W) };

    ghost coded = { Prim.hlevel (codes, table_id_coded, content.the_row.coded, W.code) };

    ghost view = { λ b. block_of b.seat.table_id b.seat.me };

    ghost invariant = { λ b. IsBlockSeat ticket_of b.seat.table_id b.seat.me b.standing };
}

impl<W: Runs> BlockSide<W> {
    /// Where the lane stands, as far as it knows.
    pub fn standing(&self) -> Standing
        ensures { standing_of ticket_of self.now.side.stage ≡ Some result }
    {
        self.standing
    }

    /// Whether the job that it put, and that has not come back, has this ticket.
    pub fn has_ticket(&self, ticket: u64) -> bool
        ensures { result ≡ has_ticket ticket self.now }
    {
        match self.standing.ticket() {
            Some(own) => own == ticket,
            None => false,
        }
    }

    /// Whether it knows the lane to be free.
    pub fn is_free(&self) -> bool
        ensures { result ≡ is_free self.now.side.stage }
    {
        self.standing.is_free()
    }

    /// Whether it put a job whose result it has not seen.
    pub fn is_sent(&self) -> bool
        ensures { result ≡ is_sent self.now.side.stage }
    {
        self.standing.is_sent()
    }

    /// Whether it has seen that the result is there.
    pub fn is_ready(&self) -> bool
        ensures { result ≡ is_ready self.now.side.stage }
    {
        self.standing.is_ready()
    }

    /// Whether it ended the lane.
    pub fn has_ended(&self) -> bool
        ensures { result ≡ is_ended self.now.side.stage }
    {
        self.standing.is_ended()
    }

    /// The phase, which the lane may leave at once. The side goes to the stage that the phase tells.
    pub fn look(&mut self, lane: &Lane<W>) -> LanePhase
        requires { self.old.table ≡ lane.now }
        ensures side { self.new ≡ record { table = self.old.table; side = block_looked result self.old.side } }
        ensures found { FoundByBlock result self.old.side.stage }
        ensures stands { StandsAsBlock result self.new.side.stage }
    {
        let phase = phase_of(lane.table.shared.load::<BlockLook>(&mut self.seat, 0));
        self.standing = self.standing.looked_at(phase);
        phase
    }

    /// Puts a job into the lane. Where the lane is not free, the job comes back.
    pub fn put(&mut self, lane: &Lane<W>, job: Job<W>) -> Result<(), Job<W>>
        requires { self.old.table ≡ lane.now }
        ensures free { IsOk result ↔ (self.old.side.stage ≡ BlockStage.free) }
        ensures put { OnOk result (self.new ≡ record { table = self.old.table; side = putting (state_of job) self.old.side }) }

        // The job comes back, and but for the look nothing is changed.
        ensures back { IfErr result (λ back. back ≡ job) }
        ensures not_free { OnErr result (FoundNotFree self.old self.new) }
    {
        let shared = &lane.table.shared;
        let free = word_of(LanePhase::Free);
        let found = shared.load::<SlotOut>(&mut self.seat, 0);
        if found != free {
            return Err(job);
        }
        let ticket = job.ticket();
        drop(shared.exchange(&mut self.seat, 0, Some(LaneItem::Job(job))));
        shared.store::<Put>(&mut self.seat, 0, word_of(LanePhase::Job));
        self.standing = Standing::Sent(ticket);
        Ok(())
    }

    /// Takes the result that is there into its hand: what came of the job that it put.
    pub fn fetch(&mut self, lane: &Lane<W>) -> JobResult<W>
        requires table { self.old.table ≡ lane.now }
        requires ready { is_ready self.old.side.stage ≡ true }
        ensures of_job { self.old.side.stage ≡ BlockStage.ready (state_in result) }
        ensures side { self.new ≡ record { table = self.old.table; side = fetching (state_in result) self.old.side } }
    {
        let shared = &lane.table.shared;
        shared.store::<Fetch>(&mut self.seat, 0, word_of(LanePhase::Fetching));
        let Some(LaneItem::Result(done)) = shared.exchange(&mut self.seat, 0, None) else {
            unreachable!()
        };
        self.standing = Standing::InHand(done.job().ticket());
        done
    }

    /// Frees the lane, once the result in hand is taken back.
    pub fn clear(&mut self, lane: &Lane<W>)
        requires table { self.old.table ≡ lane.now }
        requires in_hand { has_in_hand self.old.side.stage ≡ true }
        ensures { self.new ≡ record { table = self.old.table; side = clearing self.old.side } }
    {
        lane.table
            .shared
            .store::<Clear>(&mut self.seat, 0, word_of(LanePhase::Free));
        self.standing = Standing::Free;
    }

    /// Ends the lane, in which nothing is.
    pub fn end(&mut self, lane: &Lane<W>)
        requires table { self.old.table ≡ lane.now }
        requires free { self.old.side.stage ≡ BlockStage.free }
        ensures { self.new ≡ record { table = self.old.table; side = ending self.old.side } }
    {
        lane.table
            .shared
            .store::<End>(&mut self.seat, 0, word_of(LanePhase::Ended));
        self.standing = Standing::Ended;
    }
}
