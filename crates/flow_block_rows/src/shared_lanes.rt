//! A block's lanes with their tables, and each lane for the thread that does its jobs, on one thread.
ghost use Rattle.std.specs.Prelude.{◌≡◌, None};

use crate::lane_jobs;
use flow_lane::{JobLane, JobLanes};
use flow_value::Steps;
use std::alloc::Global;
use std::process::Abort;

/// The tickets of the jobs that go through the lanes.
const FIRST: u32 = 7;

const SECOND: u32 = 8;

/// The ticket of a job for which there is no lane.
const THIRD: u32 = 9;

/// A block's lanes, two of them, and each for its thread.
fn two_lanes(rt: &impl Abort, alloc: Global) -> (JobLanes<Steps>, JobLane<Steps>, JobLane<Steps>)
    ensures { result.0.kept ≡ None }
{
    let work = lane_jobs::function(rt, alloc);
    let Ok((block, mut ends)) = JobLanes::new(alloc, Some(work), 2) else {
        panic!(rt; "out of memory");
    };
    let (Some(second), Some(first)) = (ends.pop(), ends.pop()) else {
        panic!(rt; "there are too few lanes");
    };
    assert!(rt; ends.is_empty());
    (block, first, second)
}

/// The block puts the job with this ticket into a lane, if one takes it.
fn put(rt: &impl Abort, alloc: Global, block: &mut JobLanes<Steps>, ticket: u32) -> bool {
    match block.put(lane_jobs::own_job(rt, alloc, ticket)) {
        Ok(()) => true,
        Err(back) => {
            assert!(rt; back.ticket() == u64::from(ticket));
            false
        }
    }
}

/// The job with this ticket is done in its lane.
fn work_off(rt: &impl Abort, alloc: Global, lane: &mut JobLane<Steps>, ticket: u32) {
    let Ok(false) = lane.work(alloc) else {
        panic!(rt; "a job is done that was not taken");
    };
    assert!(rt; lane.ticket() == Some(u64::from(ticket)));
    let Ok(true) = lane.work(alloc) else {
        panic!(rt; "no job is done");
    };
    assert!(rt; lane.ticket().is_none() && !lane.has_ended());
}

/// The result of the job with this ticket is the next, also once it was kept, and its lane is at this place.
fn take_back(rt: &impl Abort, block: &mut JobLanes<Steps>, place: usize, ticket: u32) {
    let Some((there, done)) = block.next_result() else {
        panic!(rt; "no result is there");
    };
    assert!(rt; there == place);
    block.keep(there, done);
    let Some((kept, done)) = block.next_result() else {
        panic!(rt; "the result is not kept");
    };
    assert!(rt; kept == place && lane_jobs::is_result_of(done, ticket));
    block.clear(kept);
}

/// No lane takes a job any more, and the thread of each comes to know it.
fn end_both(
    rt: &impl Abort,
    alloc: Global,
    block: &mut JobLanes<Steps>,
    first: &mut JobLane<Steps>,
    second: &mut JobLane<Steps>,
) {
    assert!(rt; block.end() && !block.has_room() && !put(rt, alloc, block, FIRST));
    assert!(rt; first.ticket().is_none() && first.has_ended());
    assert!(rt; second.ticket().is_none() && second.has_ended());
}

/// Two jobs go through two lanes, the second done first, and the lanes end.
pub(crate) fn two_jobs_go_through(rt: &impl Abort, alloc: Global) {
    let (mut block, mut first, mut second) = two_lanes(rt, alloc);
    assert!(rt; block.are_free() && first.ticket().is_none());
    assert!(rt; put(rt, alloc, &mut block, FIRST) && block.has_room());
    assert!(rt; put(rt, alloc, &mut block, SECOND) && !block.has_room());
    assert!(rt; !put(rt, alloc, &mut block, THIRD) && block.next_result().is_none());
    work_off(rt, alloc, &mut second, SECOND);
    take_back(rt, &mut block, 1, SECOND);
    assert!(rt; block.next_result().is_none());
    assert!(rt; block.has_room() && !block.are_free() && !block.end());
    work_off(rt, alloc, &mut first, FIRST);
    take_back(rt, &mut block, 0, FIRST);
    end_both(rt, alloc, &mut block, &mut first, &mut second);
}
