//! A lane that one thread takes to each phase, and closes there.
ghost use Rattle.std.specs.Prelude.{◌≡◌};

use crate::lane_jobs;
use flow_lane::{BlockSide, Lane, LaneItem, LanePhase, LaneSide, LaneState};
use flow_value::Steps;
use std::alloc::Global;
use std::process::Abort;

/// The ticket of the job that goes through the lane.
const FIRST: u32 = 3;

/// The ticket of a job that the lane does not take.
const SECOND: u32 = 4;

fn put(rt: &impl Abort, alloc: Global, lane: &Lane<Steps>, block: &mut BlockSide<Steps>)
    requires { block.old.table ≡ lane.now }
    ensures { block.new.table ≡ block.old.table }
{
    let Ok(()) = block.put(lane, lane_jobs::own_job(rt, alloc, FIRST)) else {
        panic!(rt; "a free lane takes no job");
    };
}

/// The lane has the job in hand.
fn open(rt: &impl Abort, lane: &Lane<Steps>, side: &mut LaneSide<Steps>)
    requires { side.old.table ≡ lane.now }
    ensures { side.new.table ≡ side.old.table }
{
    let LanePhase::Job = side.look(lane) else {
        panic!(rt; "no job is there");
    };
    if side.open(lane).ticket() != u64::from(FIRST) {
        panic!(rt; "it opens another job");
    }
}

/// The lane does the job.
fn work_off(rt: &impl Abort, alloc: Global, lane: &Lane<Steps>, side: &mut LaneSide<Steps>)
    requires { side.old.table ≡ lane.now }
    ensures { side.new.table ≡ side.old.table }
{
    let LanePhase::Job = side.look(lane) else {
        panic!(rt; "no job is there");
    };
    let Ok(done) = side.open(lane).run(alloc) else {
        panic!(rt; "out of memory");
    };
    side.finish(lane, done);
}

/// The block has the result in hand.
fn fetch(rt: &impl Abort, lane: &Lane<Steps>, block: &mut BlockSide<Steps>)
    requires { block.old.table ≡ lane.now }
    ensures { block.new.table ≡ block.old.table }
{
    let LanePhase::Result = block.look(lane) else {
        panic!(rt; "no result is there");
    };
    let done = block.fetch(lane);
    assert!(rt; lane_jobs::is_result_of(done, FIRST));
}

fn clear(rt: &impl Abort, lane: &Lane<Steps>, block: &mut BlockSide<Steps>)
    requires { block.old.table ≡ lane.now }
    ensures { block.new.table ≡ block.old.table }
{
    let LanePhase::Fetching = block.look(lane) else {
        panic!(rt; "no result is in hand");
    };
    block.clear(lane);
}

fn end(rt: &impl Abort, lane: &Lane<Steps>, block: &mut BlockSide<Steps>)
    requires { block.old.table ≡ lane.now }
    ensures { block.new.table ≡ block.old.table }
{
    let LanePhase::Free = block.look(lane) else {
        panic!(rt; "the lane is not free");
    };
    block.end(lane);
}

/// A new lane comes to this phase; to Free it comes again.
fn bring_to(
    rt: &impl Abort,
    alloc: Global,
    lane: &Lane<Steps>,
    block: &mut BlockSide<Steps>,
    side: &mut LaneSide<Steps>,
    phase: LanePhase,
)
    requires block { block.old.table ≡ lane.now }
    requires lane { side.old.table ≡ lane.now }
    ensures block { block.new.table ≡ block.old.table }
    ensures lane { side.new.table ≡ side.old.table }
{
    if phase == LanePhase::Ended {
        return end(rt, lane, block);
    }
    put(rt, alloc, lane, block);
    if phase == LanePhase::Job {
        return;
    }
    if phase == LanePhase::Working {
        return open(rt, lane, side);
    }
    work_off(rt, alloc, lane, side);
    if phase == LanePhase::Result {
        return;
    }
    fetch(rt, lane, block);
    if phase == LanePhase::Fetching {
        return;
    }
    clear(rt, lane, block);
}

/// A lane that is not free takes no job.
fn takes_none(
    rt: &impl Abort,
    alloc: Global,
    lane: &Lane<Steps>,
    block: &mut BlockSide<Steps>,
    at: &str,
)
    requires { block.old.table ≡ lane.now }
    ensures { block.new.table ≡ block.old.table }
{
    let Err(back) = block.put(lane, lane_jobs::own_job(rt, alloc, SECOND)) else {
        panic!(rt; "it takes a job");
    };
    if back.ticket() != u64::from(SECOND) {
        panic!(rt; "another job comes back at {at}");
    }
}

/// Whether this is what a lane that is closed at this phase has.
fn is_left_at(phase: LanePhase, left: LaneState<Steps>) -> bool {
    let LaneState { phase: last, slot } = left;
    last == phase && is_in_slot(phase, slot)
}

/// Whether this is what the slot has at this phase.
fn is_in_slot(phase: LanePhase, slot: Option<LaneItem<Steps>>) -> bool {
    match phase {
        LanePhase::Job => match slot {
            Some(LaneItem::Job(job)) => job.ticket() == u64::from(FIRST),
            Some(LaneItem::Result(_)) | None => false,
        },
        LanePhase::Result => match slot {
            Some(LaneItem::Result(done)) => lane_jobs::is_result_of(done, FIRST),
            Some(LaneItem::Job(_)) | None => false,
        },
        LanePhase::Free | LanePhase::Working | LanePhase::Fetching | LanePhase::Ended => {
            slot.is_none()
        }
    }
}

fn closes_at(rt: &impl Abort, alloc: Global, phase: LanePhase, at: &str) {
    let Ok((lane, mut block, mut side)) = Lane::new(alloc) else {
        panic!(rt; "out of memory");
    };
    bring_to(rt, alloc, &lane, &mut block, &mut side, phase);
    if phase != LanePhase::Free {
        takes_none(rt, alloc, &lane, &mut block, at);
    }
    if block.look(&lane) != phase || side.look(&lane) != phase {
        panic!(rt; "it is not at {at}");
    }
    if !is_left_at(phase, lane.close(block, side)) {
        panic!(rt; "something else is left at {at}");
    }
}

#[test]
fn a_closed_lane_gives_what_is_in_it(rt: HostRuntime) {
    let (rt, alloc) = (&rt, rt.alloc());
    closes_at(rt, alloc, LanePhase::Free, "free");
    closes_at(rt, alloc, LanePhase::Job, "job");
    closes_at(rt, alloc, LanePhase::Working, "working");
    closes_at(rt, alloc, LanePhase::Result, "result");
    closes_at(rt, alloc, LanePhase::Fetching, "fetching");
    closes_at(rt, alloc, LanePhase::Ended, "ended");
}
