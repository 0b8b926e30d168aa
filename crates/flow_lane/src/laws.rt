//! What of a lane may go to another thread, or be seen by two.
ghost use Rattle.std.specs.Thread.{IsSend, IsSync};
ghost use Rattle.flow_exec.specs.contracts.job.Job as job;
ghost use Rattle.flow_exec.specs.contracts.result.JobResult as result_of;
ghost use Rattle.flow_lane.specs.contracts.block_lanes.BlockLanes as block_lanes;
ghost use Rattle.flow_lane.specs.contracts.block_side.BlockSide as block;
ghost use Rattle.flow_lane.specs.contracts.item.LaneItem as item;
ghost use Rattle.flow_lane.specs.contracts.job_lane.JobLane as job_lane;
ghost use Rattle.flow_lane.specs.contracts.job_lanes.JobLanes as job_lanes;
ghost use Rattle.flow_lane.specs.contracts.lane_end.LaneEnd as lane_end;
ghost use Rattle.flow_lane.specs.contracts.lane_side.LaneSide as lane_side;
ghost use Rattle.flow_lane.specs.contracts.table.Lane as lane;

use crate::block_side::BlockSide;
use crate::item::LaneItem;
use crate::lane_side::LaneSide;
use crate::table::Lane;
use flow_exec::{Job, JobResult};
use flow_value::Runs;
use std::alloc::Global;
use std::sync::Arc;

fn crosses<T: Send>()
    ensures { IsSend T.row }
{}

fn is_shared<T: Sync>()
    ensures { IsSync T.row }
{}

/// Jobs and results cross threads, so what lies in a lane does. Call it before a lane or a side of it is sent or shared
/// where the kind of work is a parameter.
pub fn items_cross<W: Runs + Send + Sync>()
    ensures { IsSend (item.the_row W.row (record { meaning = W.meaning }) (record { eq = W.eq })) }
{
    crosses::<LaneItem<W>>();
}

/// So the two sides of a lane cross threads.
pub fn sides_cross<W: Runs + Send + Sync>()
    ensures block { IsSend (block.the_row W.row (record { meaning = W.meaning }) (record { eq = W.eq })) }
    ensures lane { IsSend (lane_side.the_row W.row (record { meaning = W.meaning }) (record { eq = W.eq })) }
{
    items_cross::<W>();
    crosses::<BlockSide<W>>();
    crosses::<LaneSide<W>>();
}

/// A job crosses threads, and so does what came of it.
pub fn results_cross<W: Runs + Send + Sync>()
    ensures job { IsSend (job.the_row W.row) }
    ensures result { IsSend (result_of.the_row W.row (record { meaning = W.meaning }) (record { eq = W.eq })) }
{
    crosses::<Job<W>>();
    crosses::<JobResult<W>>();
}

/// So a block's sides of all its lanes cross threads, and so does the end of a lane.
pub fn ends_cross<W: Runs + Send + Sync>()
    ensures block { IsSend (block_lanes.the_row W.row (record { meaning = W.meaning }) (record { eq = W.eq })) }
    ensures lane { IsSend (lane_end.the_row W.row (record { meaning = W.meaning }) (record { eq = W.eq })) }
{
    sides_cross::<W>();
    results_cross::<W>();
}

/// So a lane crosses threads, and two may share it.
pub fn lanes_cross<W: Runs + Send + Sync>()
    ensures sent { IsSend (lane.the_row W.row (record { meaning = W.meaning }) (record { eq = W.eq }) (record {})) }
    ensures shared { IsSync (lane.the_row W.row (record { meaning = W.meaning }) (record { eq = W.eq }) (record {})) }
{
    items_cross::<W>();
    crosses::<Lane<W>>();
    is_shared::<Lane<W>>();
}

/// So a block's lanes with their tables cross threads, and so does each of them for the thread that does its jobs.
pub fn job_lanes_cross<W: Runs + Send + Sync>()
    ensures block { IsSend (job_lanes.the_row W.row (record { meaning = W.meaning }) (record {}) (record { eq = W.eq })) }
    ensures lane { IsSend (job_lane.the_row W.row (record { meaning = W.meaning }) (record {}) (record { eq = W.eq })) }
{
    ends_cross::<W>();
    lanes_cross::<W>();
    crosses::<Option<Arc<W, Global>>>();
    crosses::<Arc<Vec<Lane<W>>, Global>>();
}
