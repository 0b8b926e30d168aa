//! The lanes of blocks that have several: each block's, and one by one for the threads that do their jobs.
ghost use Rattle.std.specs.Prelude.{◌≡◌, ◌<◌, ◌+◌, true, length, IfOk, OnOk};
ghost use Rattle.std.specs.List.{list_all};
ghost use Rattle.std.specs.Option.{ForSome};
ghost use Rattle.flow_block.specs.Planned.{lanes_of};
ghost use Rattle.flow_lane.specs.BlockLanes.{has_room};
ghost use Rattle.flow_link.specs.Planned.{layout_of};
ghost use Rattle.flow_task.specs.Lanes.{lane_count, tasks_for};

use crate::lane_task::BlockLane;
use flow_lane::{JobLane, JobLanes};
use flow_link::{BlockDef, Plan};
use flow_value::Runs;
use std::alloc::{AllocError, Global};
use std::sync::Arc;

/// How many lanes of a plan's blocks are tasks.
pub(crate) fn lane_count<W>(plan: &Plan<W>) -> usize
    ensures { result ≡ lane_count (layout_of plan.now) }
{
    let mut count = 0;
    for number in 0..plan.block_count() {
        count += tasks_for(plan, number);
    }
    count
}

/// How many lanes of a block are tasks: all, where it has several.
fn tasks_for<W>(plan: &Plan<W>, number: usize) -> usize
    requires { number < length (layout_of plan.now).blocks }
    ensures { result ≡ tasks_for (lanes_of (layout_of plan.now) number) }
{
    match plan.block(number).lanes {
        Some(lanes) if lanes > 1 => lanes as usize,
        Some(_) | None => 0,
    }
}

/// The lanes of a block, in which nothing is.
#[derive(Drop)]
pub(crate) struct FreeLanes<W: Runs> {
    pub(crate) lanes: JobLanes<W>,
    ghost free: { list_all has_room lanes.sides ≡ true },
}

/// By the blocks' numbers the lanes of each, if it has several; and all of them in the same order.
#[derive(Drop)]
pub(crate) struct LaneRows<W: Runs> {
    pub(crate) rows: Vec<Option<FreeLanes<W>>>,
    pub(crate) lanes: Vec<BlockLane<W>>,
}

impl<W: Runs> LaneRows<W> {
    /// The lanes of all blocks of a plan, in which nothing is.
    pub(crate) fn new(alloc: Global, plan: &Plan<W>) -> Result<LaneRows<W>, AllocError>
        ensures rows { IfOk result (λ made. length made.rows.items ≡ length (layout_of plan.now).blocks) }
        ensures lanes { IfOk result (λ made. length made.lanes.items ≡ lane_count (layout_of plan.now)) }
    {
        let mut made = LaneRows {
            rows: Vec::new(alloc),
            lanes: Vec::new(alloc),
        };
        for number in 0..plan.block_count() {
            made.add(alloc, plan, number)?;
        }
        Ok(made)
    }

    /// Those of one block more.
    fn add(&mut self, alloc: Global, plan: &Plan<W>, number: usize) -> Result<(), AllocError>
        requires { number < length (layout_of plan.now).blocks }
        ensures rows { OnOk result (length self.new.rows.items ≡ length self.old.rows.items + 1) }
        ensures lanes { OnOk result (length self.new.lanes.items ≡
            length self.old.lanes.items + tasks_for (lanes_of (layout_of plan.now) number)) }
    {
        let count = tasks_for(plan, number);
        if count == 0 {
            self.rows.push(None)?;
            return Ok(());
        }
        let work = work_of(alloc, plan.block(number))?;
        let (row, lanes) = JobLanes::new(alloc, work, count)?;
        self.rows.push(Some(FreeLanes { lanes: row }))?;
        self.push_all(number, lanes)
    }

    /// Puts the lanes of a block behind those that are there.
    fn push_all(&mut self, block: usize, lanes: Vec<JobLane<W>>) -> Result<(), AllocError>
        ensures rows { self.new.rows ≡ self.old.rows }
        ensures lanes { OnOk result (length self.new.lanes.items ≡ length self.old.lanes.items + length lanes.items) }
    {
        for lane in lanes {
            self.lanes.push(BlockLane { block, lane })?;
        }
        Ok(())
    }
}

/// The lanes themselves, if a block has several.
pub(crate) fn lanes_in<W: Runs>(row: Option<FreeLanes<W>>) -> Option<JobLanes<W>>
    ensures { ForSome result (λ lanes. list_all has_room lanes.sides ≡ true) }
{
    match row {
        Some(free) => Some(free.lanes),
        None => None,
    }
}

/// A share of a block's work.
fn work_of<W: Runs>(
    alloc: Global,
    block: &BlockDef<W>,
) -> Result<Option<Arc<W, Global>>, AllocError> {
    match &block.work {
        Some(work) => Ok(Some(Arc::new(alloc, work.copy_here(alloc)?)?)),
        None => Ok(None),
    }
}
