//! The lanes of a block with their tables, which the block shares with the threads that do its jobs.
ghost use Rattle.std.specs.Prelude.{◌≡◌, ◌+◌, ◌<◌, true, false, count_by, is_some, length, map, option_map, position, set, IfErr, IfOk, IfSome, OnErr, OnOk, Some, None};
ghost use Rattle.std.specs.Arc.{arc_value};
ghost use Rattle.std.specs.List.{list_all, list_any};
ghost use Rattle.std.specs.Option.{ForSome};
ghost use Rattle.flow_block.specs.Peeks.{may_begin};
ghost use Rattle.flow_exec.specs.Execution.{next_message, next_ticket};
ghost use Rattle.flow_exec.specs.Jobs.{kind_in, message_in, ticket_in};
ghost use Rattle.flow_lane.specs.BlockLanes.{AreFree, TakesFirst, ended_where_free, job_at, jobs_of, side_at, stage_at, tables_of, with_free_ended, with_side};
ghost use Rattle.flow_lane.specs.BlockLanes.{has_ended, has_room, has_ticket, ticket_at};
ghost use Rattle.flow_lane.specs.Items.{state_in, state_of};
ghost use Rattle.flow_lane.specs.Sides.{clearing, putting};
ghost use Rattle.flow_lane.specs.Views.{BlockStage, has_in_hand};

use crate::block_lanes::BlockLanes;
use crate::block_side::BlockSide;
use crate::job_lane::JobLane;
use crate::lane_end::LaneEnd;
use crate::table::Lane;
use flow_block::Block;
use flow_exec::{Job, JobResult};
use flow_value::Runs;
use std::alloc::{AllocError, Global};
use std::marker::Model;
use std::sync::Arc;

/// A block's lanes, and a share of its work for the jobs that go through them. Contracts see the block's sides.
#[derive(Drop)]
pub struct JobLanes<W: Runs> {
    work: Option<Arc<W, Global>>,
    tables: Arc<Vec<Lane<W>>, Global>,
    sides: BlockLanes<W>,
}

impl<W: Runs> Model for JobLanes<W> {
    ghost use Rattle.std.specs.Prelude.{◌≡◌};
    ghost use Rattle.std.specs.Arc.{arc_value};
    ghost use Rattle.std.specs.Coded.{codes};
    ghost use Rattle.atomic_table.specs.Seated.{table_id_coded};
    ghost use Rattle.flow_value.specs.contracts.value.Value as content;
    ghost use Rattle.flow_lane.specs.BlockLanes.{LanesState, tables_of};

    ghost Value = { LanesState W };

    ghost coded = { Prim.hlevel (codes, table_id_coded, content.the_row.coded, W.code) };

    ghost view = { λ l. l.sides };

    ghost invariant = { λ l. tables_of l.sides.sides ≡ (arc_value l.tables).items };
}

/// Lanes that are made, and not shared yet.
#[derive(Drop)]
struct Made<W: Runs> {
    tables: Vec<Lane<W>>,
    sides: Vec<BlockSide<W>>,
    ends: Vec<LaneEnd<W>>,
}

impl<W: Runs> JobLanes<W> {
    /// So many lanes in which nothing is, for the jobs of a block with this work, and beside them each lane for the thread that does
    /// its jobs.
    pub fn new(
        alloc: Global,
        work: Option<Arc<W, Global>>,
        count: usize,
    ) -> Result<(JobLanes<W>, Vec<JobLane<W>>), AllocError>
        ensures free { IfOk result (λ made. AreFree made.0.sides) }
        ensures none_kept { IfOk result (λ made. made.0.kept ≡ None) }
        ensures sides { IfOk result (λ made. length made.0.sides ≡ count) }
        ensures count { IfOk result (λ made. length made.1.items ≡ count) }
        ensures same { IfOk result (λ made. map (λ lane. lane.table) made.1.items ≡ tables_of made.0.sides) }
    {
        let Made {
            tables,
            sides,
            ends,
        } = make(alloc, count)?;
        let tables = Arc::new(alloc, tables)?;
        let lanes = share(alloc, &tables, ends)?;
        let sides = BlockLanes::new(sides);
        Ok((
            JobLanes {
                work,
                tables,
                sides,
            },
            lanes,
        ))
    }

    /// Whether nothing is in any of them.
    pub fn are_free(&self) -> bool
        ensures { result ≡ list_all has_room self.now.sides }
    {
        self.sides.are_free()
    }

    /// Whether nothing is in one of them.
    pub fn has_room(&self) -> bool
        ensures { result ≡ list_any has_room self.now.sides }
    {
        self.sides.has_room()
    }

    /// How many of them are ended.
    pub fn ended_count(&self) -> usize
        ensures { result ≡ count_by has_ended self.now.sides }
    {
        self.sides.ended_count()
    }

    /// The job that a block begins next, with the work of these lanes.
    pub fn next_job(&self, alloc: Global, block: &Block) -> Result<Job<W>, AllocError>
        requires ports { 0 < length block.now.ports }
        requires begins { may_begin block.now ≡ true }
        ensures ticket { IfOk result (λ job. ticket_in job ≡ next_ticket block.now) }
        ensures message { IfOk result (λ job. message_in job ≡ next_message block.now) }
        ensures kind { IfOk result (λ job. kind_in job ≡ block.now.kind) }
    {
        if !block.has_ticket() {
            return Err(AllocError);
        }
        let message = block.begun_message().copy(alloc)?;
        let work = self.share_of_work()?;
        Ok(Job::new(work, block.kind(), message, block.next_ticket()))
    }

    /// A share of the work.
    fn share_of_work(&self) -> Result<Option<Arc<W, Global>>, AllocError> {
        match &self.work {
            Some(work) => Ok(Some(Arc::try_clone(work)?)),
            None => Ok(None),
        }
    }

    /// Puts a job into the first lane in which nothing is. Where there is none, or a job with this ticket stands in a lane, the job
    /// comes back, and nothing has changed.
    pub fn put(&mut self, job: Job<W>) -> Result<(), Job<W>>
        ensures put { OnOk result (ForSome (position has_room self.old.sides) (λ place.
            self.new ≡ with_side place (putting (state_of job)) self.old)) }
        ensures stands { list_any has_room self.old.sides ≡ true → list_any (has_ticket (ticket_in job)) self.new.sides ≡ true }
        ensures back { IfErr result (λ back. back ≡ job) }
        ensures kept { OnErr result (self.new ≡ self.old) }
    {
        match self.sides.free_place() {
            Some(place) => self.sides.put(&self.tables, place, job),
            None => Err(job),
        }
    }

    /// The next result, and the place of its lane: the one that is kept, or one that a look finds. It is of the job that was put there.
    pub fn next_result(&mut self) -> Option<(usize, JobResult<W>)>
        ensures of_job { IfSome result (λ next. job_at (stage_at next.0 self.old) ≡ Some (state_in next.1)) }
        ensures in_hand { IfSome result (λ next. stage_at next.0 self.new ≡ BlockStage.hand (state_in next.1)) }
        ensures none_kept { self.new.kept ≡ None }
        ensures jobs { jobs_of self.new.sides ≡ jobs_of self.old.sides }

        // A result that is kept is the next, and nothing else changes then.
        ensures first { is_some self.old.kept ≡ true → option_map (λ next. next.0) result ≡ self.old.kept }
        ensures rest { is_some self.old.kept ≡ true → self.new ≡ record { sides = self.old.sides; kept = None } }

        // Where none is kept, each lane is looked at. So None says that no result was there.
        ensures looks { self.old.kept ≡ None → TakesFirst (option_map (λ next. (next.0, state_in next.1)) result) self.old self.new }
    {
        match self.sides.take_kept() {
            Some(kept) => Some(kept),
            None => self.fetch_next(),
        }
    }

    /// The next result that a look finds, where none is kept.
    fn fetch_next(&mut self) -> Option<(usize, JobResult<W>)>
        requires { self.old.kept ≡ None }
        ensures of_job { IfSome result (λ next. job_at (stage_at next.0 self.old) ≡ Some (state_in next.1)) }
        ensures in_hand { IfSome result (λ next. stage_at next.0 self.new ≡ BlockStage.hand (state_in next.1)) }
        ensures none_kept { self.new.kept ≡ None }
        ensures jobs { jobs_of self.new.sides ≡ jobs_of self.old.sides }
        ensures looks { TakesFirst (option_map (λ next. (next.0, state_in next.1)) result) self.old self.new }
    {
        match self.sides.look(&self.tables) {
            Some(place) => Some((place, self.sides.fetch(&self.tables, place))),
            None => None,
        }
    }

    /// Frees the lane at this place, once its result is taken back. No lane has its ticket then.
    pub fn clear(&mut self, place: usize)
        requires in_hand { has_in_hand (stage_at place self.old) ≡ true }
        requires none_kept { self.old.kept ≡ None }
        ensures side { self.new ≡ with_side place clearing self.old }
        ensures gone { ForSome (ticket_at (stage_at place self.old)) (λ ticket. list_any (has_ticket ticket) self.new.sides ≡ false) }
    {
        self.sides.clear(&self.tables, place);
    }

    /// Keeps the result that was taken out at this place, where it could not be taken back yet.
    pub fn keep(&mut self, place: usize, done: JobResult<W>)
        requires in_hand { stage_at place self.old ≡ BlockStage.hand (state_in done) }
        requires none_kept { self.old.kept ≡ None }
        ensures { self.new ≡ record { sides = self.old.sides; kept = Some place } }
    {
        self.sides.keep(place, done);
    }

    /// Ends each lane in which nothing is: no job comes there any more. Whether all are ended.
    pub fn end(&mut self) -> bool
        ensures ended { self.new ≡ with_free_ended self.old }
        ensures all { result ≡ list_all has_ended self.new.sides }
    {
        for place in 0..self.sides.len() {
            self.end_at(place);
        }
        self.sides.have_ended()
    }

    /// Ends the lane at this place, if nothing is in it.
    fn end_at(&mut self, place: usize)
        ensures { self.new ≡ record { sides = set self.old.sides place (ended_where_free (side_at place self.old)); kept = self.old.kept } }
    {
        if self.sides.is_free_at(place) {
            self.sides.end(&self.tables, place);
        }
    }
}

/// Makes so many lanes, in which nothing is.
fn make<W: Runs>(alloc: Global, count: usize) -> Result<Made<W>, AllocError>
    ensures free { IfOk result (λ made. AreFree made.sides.items) }
    ensures count { IfOk result (λ made. length made.ends.items ≡ count) }
    ensures sides { IfOk result (λ made. tables_of made.sides.items ≡ made.tables.items) }
    ensures ends { IfOk result (λ made. map (λ end. end.table) made.ends.items ≡ made.tables.items) }
{
    let mut made = Made {
        tables: Vec::with_capacity(alloc, count)?,
        sides: Vec::with_capacity(alloc, count)?,
        ends: Vec::with_capacity(alloc, count)?,
    };
    for _ in 0..count {
        made.add(alloc)?;
    }
    Ok(made)
}

impl<W: Runs> Made<W> {
    /// One lane more.
    fn add(&mut self, alloc: Global) -> Result<(), AllocError>
        requires free { AreFree self.old.sides.items }
        requires sides { tables_of self.old.sides.items ≡ self.old.tables.items }
        requires ends { map (λ end. end.table) self.old.ends.items ≡ self.old.tables.items }
        ensures free { OnOk result (AreFree self.new.sides.items) }
        ensures sides { OnOk result (tables_of self.new.sides.items ≡ self.new.tables.items) }
        ensures ends { OnOk result (map (λ end. end.table) self.new.ends.items ≡ self.new.tables.items) }
        ensures count { OnOk result (length self.new.ends.items ≡ length self.old.ends.items + 1) }
    {
        let (table, side, lane) = Lane::new(alloc)?;
        self.tables.push(table)?;
        self.sides.push(side)?;
        self.ends.push(LaneEnd::new(lane))?;
        Ok(())
    }
}

/// Each of these lanes, for the thread that does its jobs.
fn share<W: Runs>(
    alloc: Global,
    tables: &Arc<Vec<Lane<W>>, Global>,
    ends: Vec<LaneEnd<W>>,
) -> Result<Vec<JobLane<W>>, AllocError>
    requires { map (λ end. end.table) ends.items ≡ (arc_value tables.now).items }
    ensures { IfOk result (λ lanes. map (λ lane. lane.table) lanes.items ≡ (arc_value tables.now).items) }
{
    let mut lanes = Vec::with_capacity(alloc, ends.len())?;
    for end in ends {
        let place = lanes.len();
        lanes.push(JobLane::new(Arc::try_clone(tables)?, place, end))?;
    }
    Ok(lanes)
}
