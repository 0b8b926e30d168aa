//! A block's side and a lane's side in two threads. Each waits for the other by its looks, and prints nothing that depends on
//! how the threads take turns.
ghost use Rattle.std.specs.Prelude.{◌≡◌, true, IfSome, IsSome};
ghost use Rattle.flow_lane.specs.Items.{state_of};
ghost use Rattle.flow_lane.specs.Views.{BlockStage, LaneStage, has_in_hand};

use crate::lane_jobs;
use flow_exec::{Job, JobResult};
use flow_lane::{BlockSide, Lane, LanePhase, LaneSide, items_cross, sides_cross};
use flow_value::Steps;
use std::alloc::Global;
use std::sync::Arc;
use std::thread::{Threads, join, yield_now};

/// How many jobs go through the lane.
const JOBS: u32 = 1_000;

/// More looks than a side needs until the other has moved, also where that waits long for a processor.
pub(crate) const LOOKS: u32 = 1_000_000_000;

/// How many looks a side takes before it lets other threads run.
const LOOKS_A_TURN: u32 = 1_000;

pub(crate) fn let_others_run(looks: u32) {
    if looks % LOOKS_A_TURN == 0 {
        yield_now();
    }
}

/// What came of the job that the block put, once that is there.
fn wait_for_result(lane: &Lane<Steps>, block: &mut BlockSide<Steps>) -> Option<JobResult<Steps>>
    requires { block.old.table ≡ lane.now }
    ensures table { block.new.table ≡ block.old.table }
    ensures hand { IsSome result → has_in_hand block.new.side.stage ≡ true }
{
    for looks in 0..LOOKS {
        if let LanePhase::Result = block.look(lane) {
            return Some(block.fetch(lane));
        }
        let_others_run(looks);
    }
    None
}

/// The block's way with one job: it puts it, and a second one in vain, and takes back what came of it. Whether that is right.
fn have_done(
    alloc: Global,
    lane: &Lane<Steps>,
    block: &mut BlockSide<Steps>,
    work: &Arc<Steps, Global>,
    ticket: u32,
) -> bool
    requires { block.old.table ≡ lane.now }
    ensures { block.new.table ≡ block.old.table }
{
    let Ok(job) = lane_jobs::job(alloc, work, ticket) else {
        return false
    };
    let Ok(second) = lane_jobs::job(alloc, work, JOBS) else {
        return false
    };
    if block.put(lane, job).is_err() {
        return false;
    }
    let is_one = match block.put(lane, second) {
        Ok(()) => false,
        Err(back) => back.ticket() == u64::from(JOBS),
    };
    match wait_for_result(lane, block) {
        Some(done) => {
            block.clear(lane);
            is_one && lane_jobs::is_result_of(done, ticket)
        }
        None => false,
    }
}

/// The block's thread: it has all jobs done, and ends the lane. With the number of those that were done right.
fn send(
    alloc: Global,
    lane: &Lane<Steps>,
    mut block: BlockSide<Steps>,
    work: &Arc<Steps, Global>,
) -> (BlockSide<Steps>, u32)
    requires { block.table ≡ lane.now }
    ensures { result.0.table ≡ block.table }
{
    let mut right = 0;
    for ticket in 0..JOBS {
        if !have_done(alloc, lane, &mut block, work, ticket) {
            break;
        }
        right = ticket + 1;
    }
    if let LanePhase::Free = block.look(lane) {
        block.end(lane);
    }
    (block, right)
}

/// The next job, once it is there; none where the lane has ended.
fn wait_for_job(lane: &Lane<Steps>, side: &mut LaneSide<Steps>) -> Option<Job<Steps>>
    requires { side.old.table ≡ lane.now }
    ensures table { side.new.table ≡ side.old.table }
    ensures works { IfSome result (λ job. side.new.side.stage ≡ LaneStage.working (state_of job)) }
{
    for looks in 0..LOOKS {
        match side.look(lane) {
            LanePhase::Job => return Some(side.open(lane)),
            LanePhase::Ended => return None,
            LanePhase::Free | LanePhase::Working | LanePhase::Result | LanePhase::Fetching => {
                let_others_run(looks);
            }
        }
    }
    None
}

/// The lane's thread: it does jobs until none comes any more. With their number.
fn work_off(alloc: Global, lane: &Lane<Steps>, mut side: LaneSide<Steps>) -> (LaneSide<Steps>, u32)
    requires { side.table ≡ lane.now }
    ensures { result.0.table ≡ side.table }
{
    let mut count = 0;
    for place in 0..u32::MAX {
        let Some(job) = wait_for_job(lane, &mut side) else {
            break;
        };
        let Ok(done) = job.run(alloc) else { break };
        side.finish(lane, done);
        count = place + 1;
    }
    (side, count)
}

/// How many jobs two threads got done rightly, as the block and as the lane count them, and where the lane stands then.
fn done_by_two(
    rt: &(impl Threads + Sync),
    alloc: Global,
    work: Arc<Steps, Global>,
) -> Option<(u32, u32, LanePhase)> {
    let Ok((lane, block, side)) = Lane::new(alloc) else {
        return None
    };
    items_cross::<Steps>();
    sides_cross::<Steps>();
    let shared = &lane;
    let ((block, right), (side, count)) = join(
        rt,
        move ||
            requires { block.table ≡ shared.now }
            ensures { result.0.table ≡ block.table }
        { send(alloc, shared, block, &work) },
        move ||
            requires { side.table ≡ shared.now }
            ensures { result.0.table ≡ side.table }
        { work_off(alloc, shared, side) },
    );
    let left = lane.close(block, side);
    Some((right, count, left.phase))
}

#[test]
fn two_threads_get_a_thousand_jobs_done(rt: HostRuntime) {
    let work = lane_jobs::function(&rt, rt.alloc());
    let Some((right, count, phase)) = done_by_two(&rt, rt.alloc(), work) else {
        panic!(&rt; "out of memory");
    };
    assert!(rt; right == JOBS && count == JOBS && phase == LanePhase::Ended);
}
