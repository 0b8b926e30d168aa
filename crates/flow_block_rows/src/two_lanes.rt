//! A block with two lanes, and the ends at which its jobs are done, on one thread.
ghost use Rattle.std.specs.Prelude.{◌≡◌, [], ◌∷◌, None};
ghost use Rattle.flow_lane.specs.BlockLanes.{tables_of};

use crate::{lane_jobs, shared_lanes};
use flow_lane::{BlockLanes, Lane, LaneEnd};
use flow_value::Steps;
use std::alloc::Global;
use std::process::Abort;

/// The tickets of the jobs that go through the lanes.
const FIRST: u32 = 3;

const SECOND: u32 = 4;

/// The ticket of a job for which there is no lane.
const THIRD: u32 = 5;

/// How many lanes the block has.
const LANES: usize = 2;

/// The block puts the job with this ticket into the lane at this place.
fn put(
    rt: &impl Abort,
    alloc: Global,
    lanes: &[Lane<Steps>],
    block: &mut BlockLanes<Steps>,
    place: usize,
    ticket: u32,
)
    requires { tables_of block.old.sides ≡ lanes.now }
    ensures tables { tables_of block.new.sides ≡ lanes.now }
    ensures kept { block.new.kept ≡ block.old.kept }
{
    let Ok(()) = block.put(lanes, place, lane_jobs::own_job(rt, alloc, ticket)) else {
        panic!(rt; "the lane takes no job");
    };
}

/// The lane at this place does not take the job with this ticket.
fn comes_back(
    rt: &impl Abort,
    alloc: Global,
    lanes: &[Lane<Steps>],
    block: &mut BlockLanes<Steps>,
    place: usize,
    ticket: u32,
)
    requires { tables_of block.old.sides ≡ lanes.now }
    ensures { tables_of block.new.sides ≡ lanes.now }
{
    let Err(back) = block.put(lanes, place, lane_jobs::own_job(rt, alloc, ticket)) else {
        panic!(rt; "the lane takes the job");
    };
    assert!(rt; back.ticket() == u64::from(ticket));
}

/// The job with this ticket is done at the end of its lane.
fn work_off(
    rt: &impl Abort,
    alloc: Global,
    lane: &Lane<Steps>,
    end: &mut LaneEnd<Steps>,
    ticket: u32,
)
    requires { end.old.table ≡ lane.now }
    ensures { end.new.table ≡ end.old.table }
{
    assert!(rt; end.ticket(lane) == Some(u64::from(ticket)));
    assert!(rt; end.ticket(lane) == Some(u64::from(ticket)));
    let Ok(true) = end.work(alloc, lane) else {
        panic!(rt; "no job is done");
    };
    let Ok(false) = end.work(alloc, lane) else {
        panic!(rt; "a job is done twice");
    };
    assert!(rt; end.ticket(lane).is_none() && !end.has_ended());
}

/// The block takes the result of the job with this ticket back, which it first keeps.
fn take_back(
    rt: &impl Abort,
    lanes: &[Lane<Steps>],
    block: &mut BlockLanes<Steps>,
    place: usize,
    ticket: u32,
)
    requires tables { tables_of block.old.sides ≡ lanes.now }
    requires none_kept { block.old.kept ≡ None }
    ensures tables { tables_of block.new.sides ≡ lanes.now }
    ensures none_kept { block.new.kept ≡ None }
{
    let Some(there) = block.look(lanes) else {
        panic!(rt; "no result is there");
    };
    assert!(rt; there == place);
    let done = block.fetch(lanes, there);
    block.keep(there, done);
    assert!(rt; block.in_hand().is_some() && block.has(u64::from(ticket)));
    let Some((kept, done)) = block.take_kept() else {
        panic!(rt; "the result is not kept");
    };
    assert!(rt; kept == place && lane_jobs::is_result_of(done, ticket));
    block.clear(lanes, kept);
    assert!(rt; block.in_hand().is_none() && !block.has(u64::from(ticket)));
}

/// Two lanes, with the block's sides of both and the end of each.
pub(crate) fn new_lanes(
    rt: &impl Abort,
    alloc: Global,
) -> (
    Lane<Steps>,
    Lane<Steps>,
    BlockLanes<Steps>,
    LaneEnd<Steps>,
    LaneEnd<Steps>,
)
    ensures block { tables_of result.2.sides ≡ result.0 ∷ result.1 ∷ [] }
    ensures none_kept { result.2.kept ≡ None }
    ensures first { result.3.table ≡ result.0 }
    ensures second { result.4.table ≡ result.1 }
{
    let Ok((first, first_block, first_lane)) = Lane::new(alloc) else {
        panic!(rt; "out of memory");
    };
    let Ok((second, second_block, second_lane)) = Lane::new(alloc) else {
        panic!(rt; "out of memory");
    };
    let Ok(sides) = Vec::from_array(alloc, [first_block, second_block]) else {
        panic!(rt; "out of memory");
    };
    (
        first,
        second,
        BlockLanes::new(sides),
        LaneEnd::new(first_lane),
        LaneEnd::new(second_lane),
    )
}

#[test]
fn two_jobs_go_through_two_lanes(rt: HostRuntime) {
    let alloc = rt.alloc();
    let (first, second, mut block, mut first_end, mut second_end) = new_lanes(&rt, alloc);
    let lanes = [first, second];
    assert!(rt; block.len() == LANES && block.free_place() == Some(0));
    assert!(rt; first_end.ticket(&lanes[0]).is_none());
    put(&rt, alloc, &lanes, &mut block, 0, FIRST);
    assert!(rt; block.free_place() == Some(1));
    put(&rt, alloc, &lanes, &mut block, 1, SECOND);
    assert!(rt; block.free_place().is_none());
    assert!(rt; block.look(&lanes).is_none());
    work_off(&rt, alloc, &lanes[1], &mut second_end, SECOND);
    take_back(&rt, &lanes, &mut block, 1, SECOND);
    work_off(&rt, alloc, &lanes[0], &mut first_end, FIRST);
    take_back(&rt, &lanes, &mut block, 0, FIRST);
    assert!(rt; block.free_place() == Some(0));
    shared_lanes::two_jobs_go_through(&rt, alloc);
}

#[test]
fn a_ticket_stands_in_one_lane(rt: HostRuntime) {
    let alloc = rt.alloc();
    let (first, second, mut block, _, _) = new_lanes(&rt, alloc);
    let lanes = [first, second];
    put(&rt, alloc, &lanes, &mut block, 0, FIRST);
    assert!(rt; block.has(u64::from(FIRST)) && !block.has(u64::from(THIRD)));
    comes_back(&rt, alloc, &lanes, &mut block, 1, FIRST);
    comes_back(&rt, alloc, &lanes, &mut block, 0, THIRD);
    comes_back(&rt, alloc, &lanes, &mut block, LANES, THIRD);
    put(&rt, alloc, &lanes, &mut block, 1, THIRD);
}

#[test]
fn lanes_end(rt: HostRuntime) {
    let alloc = rt.alloc();
    let (first, second, mut block, mut first_end, second_end) = new_lanes(&rt, alloc);
    let lanes = [first, second];
    end_next(&rt, &lanes, &mut block, 0);
    assert!(rt; first_end.ticket(&lanes[0]).is_none() && first_end.has_ended());
    comes_back(&rt, alloc, &lanes, &mut block, 0, FIRST);
    end_next(&rt, &lanes, &mut block, 1);
    assert!(rt; block.free_place().is_none() && block.into_sides().len() == LANES);
    assert!(rt; !second_end.has_ended());
    drop(second_end.into_side());
}

/// The block ends the first lane that is free, which is the one at this place.
fn end_next(rt: &impl Abort, lanes: &[Lane<Steps>], block: &mut BlockLanes<Steps>, place: usize)
    requires { tables_of block.old.sides ≡ lanes.now }
    ensures { tables_of block.new.sides ≡ lanes.now }
{
    let Some(free) = block.free_place() else {
        panic!(rt; "no lane is free");
    };
    assert!(rt; free == place);
    block.end(lanes, free);
}
