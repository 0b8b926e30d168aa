//! The lanes of a block, from the block's side.
//!
//! A job goes into a free lane (`put`), is seen to be done (`look`), and its result is taken out (`fetch`). The caller gives it
//! back to its block. Where the block takes it, the lane is freed (`clear`); where it cannot be taken yet, it is kept here
//! (`keep`) and taken out again later (`take_kept`). No ticket ever stands in two lanes.
ghost use Rattle.std.specs.Prelude.{◌≡◌, ◌↔◌, ◌<◌, true, false, length, option_map, is_some, Some, None};
ghost use Rattle.std.specs.Prelude.{All, count_by, position, slice_set, IsOk, IfErr, IfSome, OnErr, OnOk};
ghost use Rattle.std.specs.List.{list_all, list_any};
ghost use Rattle.std.specs.Option.{ForSome};
ghost use Rattle.flow_exec.specs.Jobs.{ticket_in};
ghost use Rattle.flow_lane.specs.BlockLanes.{AreApart, HasLooked, HaveLooked, MayPut};
ghost use Rattle.flow_lane.specs.BlockLanes.{has_ended, has_result, has_room, has_ticket, side_at, stage_at, tables_of, ticket_at, with_side};
ghost use Rattle.flow_lane.specs.Items.{state_of, state_in};
ghost use Rattle.flow_lane.specs.Sides.{clearing, ending, fetching, putting};
ghost use Rattle.flow_lane.specs.Views.{BlockStage, is_ready, has_in_hand};

use crate::block_side::BlockSide;
use crate::table::Lane;
use flow_exec::{Job, JobResult};
use flow_value::Runs;
use std::marker::Model;

/// The block's sides of all its lanes, and the result that it keeps, if any. Each call takes the lanes that they are of, in the same
/// order; a lane is named by its place.
#[derive(Drop)]
pub struct BlockLanes<W: Runs> {
    sides: Vec<BlockSide<W>>,
    /// A result that was fetched and not taken yet, and the place of its lane.
    kept: Option<(usize, JobResult<W>)>,
}

impl<W: Runs> Model for BlockLanes<W> {
    ghost use Rattle.std.specs.Prelude.{◌≡◌, option_map};
    ghost use Rattle.std.specs.Coded.{codes};
    ghost use Rattle.std.specs.Option.{ForSome};
    ghost use Rattle.atomic_table.specs.Seated.{table_id_coded};
    ghost use Rattle.flow_value.specs.contracts.value.Value as content;
    ghost use Rattle.flow_lane.specs.BlockLanes.{AreApart, LanesState, side_in};
    ghost use Rattle.flow_lane.specs.Items.{state_in};
    ghost use Rattle.flow_lane.specs.Views.{BlockStage};

    ghost Value = { LanesState W };

    ghost coded = { Prim.hlevel (codes, table_id_coded, content.the_row.coded, W.code) };

    ghost view = { λ b. record { sides = b.sides.items; kept = option_map (λ kept. kept.0) b.kept } };

    ghost invariant = { λ b. AreApart b.sides.items
        × ForSome b.kept (λ kept. (side_in b.sides.items kept.0).side.stage ≡ BlockStage.hand (state_in kept.1)) };
}

impl<W: Runs> BlockLanes<W> {
    /// A block's lanes, from its side of each, in which nothing is.
    pub fn new(sides: Vec<BlockSide<W>>) -> BlockLanes<W>
        requires { All (λ side. side.side.stage ≡ BlockStage.free) sides.items }
        ensures { result ≡ record { sides = sides.items; kept = None } }
    {
        BlockLanes { sides, kept: None }
    }

    /// How many lanes it has.
    pub fn len(&self) -> usize
        ensures { result ≡ length self.now.sides }
    {
        self.sides.len()
    }

    /// What holds of each block's lanes: no ticket stands in two of them, and a result that is kept is of a lane whose result is in
    /// hand.
    pub fn stand(&self)
        ensures apart { AreApart self.now.sides }
        ensures kept { ForSome self.now.kept (λ place. has_in_hand (stage_at place self.now) ≡ true) }
    {
        let _sides = &self.sides;
    }

    /// Whether a job with this ticket stands in one of them.
    pub fn has(&self, ticket: u64) -> bool
        ensures { result ≡ list_any (has_ticket ticket) self.now.sides }
    {
        self.sides.iter().any(|side| side.has_ticket(ticket))
    }

    /// Whether nothing is in any of them.
    pub fn are_free(&self) -> bool
        ensures { result ≡ list_all has_room self.now.sides }
    {
        self.sides.iter().all(|side| side.is_free())
    }

    /// Whether nothing is in one of them.
    pub fn has_room(&self) -> bool
        ensures { result ≡ list_any has_room self.now.sides }
    {
        self.sides.iter().any(|side| side.is_free())
    }

    /// Whether all are ended.
    pub fn have_ended(&self) -> bool
        ensures { result ≡ list_all has_ended self.now.sides }
    {
        self.sides.iter().all(|side| side.has_ended())
    }

    /// How many are ended.
    pub fn ended_count(&self) -> usize
        ensures { result ≡ count_by has_ended self.now.sides }
    {
        self.sides.iter().filter(|side| side.has_ended()).count()
    }

    /// The first one in which nothing is.
    pub fn free_place(&self) -> Option<usize>
        ensures first { result ≡ position has_room self.now.sides }
        ensures free { IfSome result (λ place. stage_at place self.now ≡ BlockStage.free) }
    {
        self.first_free()
    }

    fn first_free(&self) -> Option<usize>
        ensures { result ≡ position has_room self.now.sides }
    {
        self.sides.iter().position(|side| side.is_free())
    }

    /// The first one whose result was seen, and not fetched yet.
    fn first_ready(&self) -> Option<usize>
        ensures { result ≡ position has_result self.now.sides }
    {
        self.sides.iter().position(|side| side.is_ready())
    }

    /// Whether nothing is in the one at this place.
    pub(crate) fn is_free_at(&self, place: usize) -> bool
        ensures is { result ≡ has_room (side_at place self.now) }
        ensures free { result ≡ true → stage_at place self.now ≡ BlockStage.free }
    {
        match self.sides.get(place) {
            Some(side) => side.is_free(),
            None => false,
        }
    }

    /// Puts a job into the lane at this place. Where that is not free, or a job with this ticket stands in a lane, the job comes back.
    pub fn put(&mut self, lanes: &[Lane<W>], place: usize, job: Job<W>) -> Result<(), Job<W>>
        requires { tables_of self.old.sides ≡ lanes.now }
        ensures may { IsOk result ↔ MayPut place (ticket_in job) self.old }
        ensures put { OnOk result (self.new ≡ with_side place (putting (state_of job)) self.old) }
        ensures tables { tables_of self.new.sides ≡ lanes.now }

        // The job comes back, and nothing has changed.
        ensures back { IfErr result (λ back. back ≡ job) }
        ensures kept { OnErr result (self.new ≡ self.old) }
    {
        if !self.is_free_at(place) || self.has(job.ticket()) {
            return Err(job);
        }
        self.put_there(lanes, place, job);
        Ok(())
    }

    /// Puts a job into the free lane at this place.
    fn put_there(&mut self, lanes: &[Lane<W>], place: usize, job: Job<W>)
        requires table { tables_of self.old.sides ≡ lanes.now }
        requires may { MayPut place (ticket_in job) self.old }
        ensures side { self.new ≡ with_side place (putting (state_of job)) self.old }
        ensures tables { tables_of self.new.sides ≡ lanes.now }
    {
        let Ok(()) = self.sides[place].put(&lanes[place], job) else {
            unreachable!()
        };
    }

    /// Looks at each lane into which a job was put and whose result was not seen yet. The first place whose result is there.
    pub fn look(&mut self, lanes: &[Lane<W>]) -> Option<usize>
        requires { tables_of self.old.sides ≡ lanes.now }
        ensures looked { HaveLooked self.old self.new }
        ensures first { result ≡ position has_result self.new.sides }
        ensures ready { IfSome result (λ place. is_ready (stage_at place self.new) ≡ true) }
        ensures tables { tables_of self.new.sides ≡ lanes.now }
    {
        for place in 0..lanes.len() {
            self.look_at(lanes, place);
        }
        self.first_ready()
    }

    /// Looks at the lane at this place, if a job was put into it whose result was not seen yet.
    fn look_at(&mut self, lanes: &[Lane<W>], place: usize)
        requires table { tables_of self.old.sides ≡ lanes.now }
        requires there { place < length self.old.sides }
        ensures looked { HasLooked (side_at place self.old) (side_at place self.new) }
        ensures tables { tables_of self.new.sides ≡ lanes.now }
        ensures others { self.new ≡ record { sides = slice_set self.old.sides place (side_at place self.new); kept = self.old.kept } }
    {
        if self.sides[place].is_sent() {
            self.sides[place].look(&lanes[place]);
        }
    }

    /// Takes out the result that is there, which is of the job that was put at this place.
    pub fn fetch(&mut self, lanes: &[Lane<W>], place: usize) -> JobResult<W>
        requires table { tables_of self.old.sides ≡ lanes.now }
        requires ready { is_ready (stage_at place self.old) ≡ true }
        ensures of_job { stage_at place self.old ≡ BlockStage.ready (state_in result) }
        ensures in_hand { stage_at place self.new ≡ BlockStage.hand (state_in result) }
        ensures side { self.new ≡ with_side place (fetching (state_in result)) self.old }
        ensures tables { tables_of self.new.sides ≡ lanes.now }
    {
        self.sides[place].fetch(&lanes[place])
    }

    /// Frees the lane at this place, once its result is taken back. No lane has its ticket then.
    pub fn clear(&mut self, lanes: &[Lane<W>], place: usize)
        requires table { tables_of self.old.sides ≡ lanes.now }
        requires in_hand { has_in_hand (stage_at place self.old) ≡ true }
        requires none_kept { self.old.kept ≡ None }
        ensures side { self.new ≡ with_side place clearing self.old }
        ensures gone { ForSome (ticket_at (stage_at place self.old)) (λ ticket. list_any (has_ticket ticket) self.new.sides ≡ false) }
        ensures tables { tables_of self.new.sides ≡ lanes.now }
    {
        self.sides[place].clear(&lanes[place]);
    }

    /// Keeps the result that was fetched at this place, where it could not be taken back yet.
    pub fn keep(&mut self, place: usize, done: JobResult<W>)
        requires in_hand { stage_at place self.old ≡ BlockStage.hand (state_in done) }
        requires none_kept { self.old.kept ≡ None }
        ensures { self.new ≡ record { sides = self.old.sides; kept = Some place } }
    {
        self.kept = Some((place, done));
    }

    /// The result that it keeps, and the place of its lane. It keeps none then.
    pub fn take_kept(&mut self) -> Option<(usize, JobResult<W>)>
        ensures place { option_map (λ taken. taken.0) result ≡ self.old.kept }
        ensures of_job { IfSome result (λ taken. stage_at taken.0 self.old ≡ BlockStage.hand (state_in taken.1)) }
        ensures rest { self.new ≡ record { sides = self.old.sides; kept = None } }
    {
        self.kept.take()
    }

    /// The result that it keeps.
    pub fn in_hand(&self) -> Option<&JobResult<W>>
        ensures kept { is_some result ≡ is_some self.now.kept }
        ensures of_job { IfSome result (λ done. ForSome self.now.kept (λ place. stage_at place self.now ≡ BlockStage.hand (state_in done.now))) }
    {
        match &self.kept {
            Some((_, done)) => Some(done),
            None => None,
        }
    }

    /// Ends the lane at this place, in which nothing is.
    pub fn end(&mut self, lanes: &[Lane<W>], place: usize)
        requires table { tables_of self.old.sides ≡ lanes.now }
        requires free { stage_at place self.old ≡ BlockStage.free }
        ensures side { self.new ≡ with_side place ending self.old }
        ensures tables { tables_of self.new.sides ≡ lanes.now }
    {
        self.sides[place].end(&lanes[place]);
    }

    /// The block's sides, with which the lanes are closed. A result that is kept is let go: its block keeps the message.
    pub fn into_sides(self) -> Vec<BlockSide<W>>
        ensures { result.items ≡ self.sides }
    {
        self.sides
    }
}
