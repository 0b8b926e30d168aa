//! A block with two lanes in one thread, and the ends of both lanes in another.
ghost use Rattle.std.specs.Prelude.{◌≡◌, [], ◌∷◌, None, IfSome};
ghost use Rattle.flow_lane.specs.BlockLanes.{stage_at, tables_of};
ghost use Rattle.flow_lane.specs.Views.{BlockStage};

use crate::lane_jobs;
use crate::two_lanes::new_lanes;
use crate::two_threads::{LOOKS, let_others_run};
use flow_exec::JobResult;
use flow_lane::{BlockLanes, Lane, LaneEnd, ends_cross, items_cross};
use flow_value::Steps;
use std::alloc::Global;
use std::process::Abort;
use std::sync::Arc;
use std::thread::{Threads, join};

/// How many jobs go through the lanes.
const JOBS: u32 = 300;

/// How many lanes the block has.
const LANES: u32 = 2;

/// Whether it is what has to come of its job.
fn is_right(done: JobResult<Steps>) -> bool {
    match u32::try_from(done.job().ticket()) {
        Ok(ticket) => lane_jobs::is_result_of(done, ticket),
        Err(_) => false,
    }
}

/// How many results were taken back that are right: one or none.
fn take_back(lanes: &[Lane<Steps>], block: &mut BlockLanes<Steps>) -> u32
    requires tables { tables_of block.old.sides ≡ lanes.now }
    requires none_kept { block.old.kept ≡ None }
    ensures tables { tables_of block.new.sides ≡ lanes.now }
    ensures none_kept { block.new.kept ≡ None }
{
    let Some(place) = block.look(lanes) else {
        return 0
    };
    let done = block.fetch(lanes, place);
    block.clear(lanes, place);
    if is_right(done) { 1 } else { 0 }
}

/// A free lane, once there is one. The results that come meanwhile are taken back and counted.
fn wait_for_place(
    lanes: &[Lane<Steps>],
    block: &mut BlockLanes<Steps>,
    right: &mut u32,
) -> Option<usize>
    requires tables { tables_of block.old.sides ≡ lanes.now }
    requires none_kept { block.old.kept ≡ None }
    ensures tables { tables_of block.new.sides ≡ lanes.now }
    ensures none_kept { block.new.kept ≡ None }
    ensures free { IfSome result (λ place. stage_at place block.new ≡ BlockStage.free) }
{
    for looks in 0..LOOKS {
        if let Some(place) = block.free_place() {
            return Some(place);
        }
        *right = right.saturating_add(take_back(lanes, block));
        let_others_run(looks);
    }
    None
}

/// The block's thread: it has all jobs done, and ends its lanes. With the number of those that were done right.
fn send(
    alloc: Global,
    lanes: &[Lane<Steps>],
    mut block: BlockLanes<Steps>,
    work: &Arc<Steps, Global>,
) -> u32
    requires tables { tables_of block.sides ≡ lanes.now }
    requires none_kept { block.kept ≡ None }
{
    let mut right = 0;
    for ticket in 0..JOBS {
        let Ok(job) = lane_jobs::job(alloc, work, ticket) else {
            break
        };
        let Some(place) = wait_for_place(lanes, &mut block, &mut right) else {
            break
        };
        if block.put(lanes, place, job).is_err() {
            break;
        }
    }
    end_all(lanes, &mut block, &mut right);
    right
}

/// Ends each lane, once it is free.
fn end_all(lanes: &[Lane<Steps>], block: &mut BlockLanes<Steps>, right: &mut u32)
    requires tables { tables_of block.old.sides ≡ lanes.now }
    requires none_kept { block.old.kept ≡ None }
{
    for _lane in 0..LANES {
        let Some(place) = wait_for_place(lanes, block, right) else {
            break
        };
        block.end(lanes, place);
    }
}

/// The end of a lane does what there is to do. Whether it did a job.
fn turn(alloc: Global, lane: &Lane<Steps>, end: &mut LaneEnd<Steps>) -> bool
    requires { end.old.table ≡ lane.now }
    ensures { end.new.table ≡ end.old.table }
{
    end.ticket(lane).is_some() && matches!(end.work(alloc, lane), Ok(true))
}

/// The thread of both lanes: it does jobs until none comes any more.
fn work_off(
    alloc: Global,
    first_lane: &Lane<Steps>,
    second_lane: &Lane<Steps>,
    mut first: LaneEnd<Steps>,
    mut second: LaneEnd<Steps>,
) -> u32
    requires first { first.table ≡ first_lane.now }
    requires second { second.table ≡ second_lane.now }
{
    let mut count: u32 = 0;
    for looks in 0..LOOKS {
        if turn(alloc, first_lane, &mut first) {
            count = count.saturating_add(1);
        }
        if turn(alloc, second_lane, &mut second) {
            count = count.saturating_add(1);
        }
        if first.has_ended() && second.has_ended() {
            break;
        }
        let_others_run(looks);
    }
    count
}

/// How many jobs two threads got done rightly, as the block and as the lanes count them.
fn done_by_two(
    rt: &(impl Threads + Sync + Abort),
    alloc: Global,
    work: Arc<Steps, Global>,
) -> (u32, u32) {
    let (first_lane, second_lane, block, first, second) = new_lanes(rt, alloc);
    let lanes = [first_lane, second_lane];
    items_cross::<Steps>();
    ends_cross::<Steps>();
    let shared = lanes.as_slice();
    join(
        rt,
        move ||
            requires tables { tables_of block.sides ≡ shared.now }
            requires none_kept { block.kept ≡ None }
        { send(alloc, shared, block, &work) },
        move ||
            requires first { first.table ∷ second.table ∷ [] ≡ shared.now }
        { work_off(alloc, &shared[0], &shared[1], first, second) },
    )
}

#[test]
fn two_threads_get_jobs_done_through_two_lanes(rt: HostRuntime) {
    let work = lane_jobs::function(&rt, rt.alloc());
    let (right, count) = done_by_two(&rt, rt.alloc(), work);
    assert!(rt; right == JOBS && count == JOBS);
}
