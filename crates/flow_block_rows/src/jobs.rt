//! Blocks with functions, by the calls that all blocks have in common. The test begins their jobs, and brings the results
//! back. A lane takes one of them at a time.
ghost use Rattle.flow_block.specs.Traits.{target_over};
ghost use Rattle.flow_block_rows.specs.Driven.{Rests};

use crate::check::check;
use crate::script::takes;
use crate::shared::{are, has_left, one_rule};
use flow_exec::{EndFault, Execution, Job, JobResult};
use flow_lane::{Lane, LaneItem, LanePhase, LaneState};
use flow_link::BlockKind;
use flow_value::Steps;
use std::alloc::Global;
use std::process::Abort;
use std::sync::Arc;

/// The function with this one step.
pub(crate) fn one_step(rt: &impl Abort, alloc: Global, step: &str) -> Arc<Steps, Global> {
    let Ok(steps) = Steps::read(alloc, &[step]) else {
        panic!(rt; "it is no step");
    };
    let Ok(work) = Arc::new(alloc, steps) else {
        panic!(rt; "out of memory");
    };
    work
}

/// A transform with two lanes, which reads integers.
fn transform(rt: &impl Abort, alloc: Global) -> Execution<Steps>
    ensures { Rests (target_over result.block.ports) }
{
    let work = Some(one_step(rt, alloc, "int"));
    let Ok(transform) = Execution::transform(alloc, 2, None, work, one_rule(rt, alloc, 7)) else {
        panic!(rt; "out of memory");
    };
    transform
}

/// An action that reads integers, with room for one message.
fn action(rt: &impl Abort, alloc: Global) -> Execution<Steps>
    ensures { Rests (target_over result.block.ports) }
{
    let work = Some(one_step(rt, alloc, "int"));
    let Ok(action) = Execution::action(alloc, 1, Some(1), work, Vec::new(alloc)) else {
        panic!(rt; "out of memory");
    };
    action
}

/// A transform_many block without a function.
fn transform_many(rt: &impl Abort, alloc: Global) -> Execution<Steps>
    ensures { Rests (target_over result.block.ports) }
{
    let rules = one_rule(rt, alloc, 7);
    let Ok(many) = Execution::transform_many(alloc, 1, None, None, rules) else {
        panic!(rt; "out of memory");
    };
    many
}

/// The job that the block begins next, which has this ticket.
fn begin(rt: &impl Abort, alloc: Global, block: &mut Execution<Steps>, ticket: u64) -> Job<Steps> {
    let Ok(Some(job)) = block.begin(alloc) else {
        panic!(rt; "no job begins");
    };
    if job.ticket() != ticket || !block.is_own_job(&job) {
        panic!(rt; "it is another job");
    }
    job
}

/// What comes of a job.
fn run(rt: &impl Abort, alloc: Global, job: Job<Steps>) -> JobResult<Steps> {
    let Ok(done) = job.run(alloc) else {
        panic!(rt; "out of memory");
    };
    done
}

/// The result of the job that the block begins next, which has this ticket.
fn run_next(
    rt: &impl Abort,
    alloc: Global,
    block: &mut Execution<Steps>,
    ticket: u64,
) -> JobResult<Steps> {
    let job = begin(rt, alloc, block, ticket);
    run(rt, alloc, job)
}

/// The block takes the result back.
fn bring_back(rt: &impl Abort, block: &mut Execution<Steps>, done: JobResult<Steps>) {
    let Ok(()) = block.end(done) else {
        panic!(rt; "it is not taken back");
    };
}

/// The block takes a message and works on it, as its first job.
fn work_on(rt: &impl Abort, alloc: Global, block: &mut Execution<Steps>, message: &str)
    requires { Rests (target_over block.old.block.ports) }
{
    takes(rt, alloc, block, message);
    let done = run_next(rt, alloc, block, 0);
    bring_back(rt, block, done);
}

/// No other job begins.
fn begins_none(rt: &impl Abort, alloc: Global, block: &mut Execution<Steps>) {
    let Ok(None) = block.begin(alloc) else {
        panic!(rt; "one more job begins");
    };
}

/// The result of the second job of a block that is equal to the transform.
fn second_result(rt: &impl Abort, alloc: Global) -> JobResult<Steps> {
    let mut equal = transform(rt, alloc);
    takes(rt, alloc, &mut equal, "0 '1, 0 '2");
    run_next(rt, alloc, &mut equal, 0);
    run_next(rt, alloc, &mut equal, 1)
}

/// Whether the block hands the result back, since no job of its own is out that it could be of.
fn is_strange(block: &mut Execution<Steps>, done: JobResult<Steps>) -> bool {
    matches!(block.end(done), Err((_, EndFault::Strange)))
}

#[test]
fn tickets_return_out_of_order(rt: HostRuntime) {
    let (rt, alloc) = (&rt, rt.alloc());
    let mut block = transform(rt, alloc);
    takes(rt, alloc, &mut block, "0 '1, 0 '2, 0 '3");
    let first = run_next(rt, alloc, &mut block, 0);
    let second = run_next(rt, alloc, &mut block, 1);
    begins_none(rt, alloc, &mut block);
    bring_back(rt, &mut block, second);
    check(rt, "what is left", has_left(block.left(), &[]));
    bring_back(rt, &mut block, first);
    check(rt, "what is left", has_left(block.left(), &[1, 2]));
    let again = second_result(rt, alloc);
    check(rt, "it is of another", is_strange(&mut block, again));
}

#[test]
fn a_result_that_waits_keeps_no_lane_busy(rt: HostRuntime) {
    let (rt, alloc) = (&rt, rt.alloc());
    let mut block = transform(rt, alloc);
    takes(rt, alloc, &mut block, "0 '1, 0 '2, 0 '3, 0 '4");
    let first = run_next(rt, alloc, &mut block, 0);
    let second = run_next(rt, alloc, &mut block, 1);
    bring_back(rt, &mut block, second);
    let third = run_next(rt, alloc, &mut block, 2);
    begins_none(rt, alloc, &mut block);
    bring_back(rt, &mut block, third);
    check(rt, "what is left", has_left(block.left(), &[]));
    bring_back(rt, &mut block, first);
    check(rt, "what is left", has_left(block.left(), &[1, 2, 3]));
}

#[test]
fn an_action_records(rt: HostRuntime) {
    let mut block = action(&rt, rt.alloc());
    work_on(&rt, rt.alloc(), &mut block, "0 '5");
    check(&rt, "its record", are(block.recorded(), &[5]));
    check(&rt, "its work", block.work().is_some());
    check(&rt, "its kind", block.block().kind() == BlockKind::Action);
}

#[test]
fn a_transform_many_without_a_function_gives_its_messages(rt: HostRuntime) {
    let mut block = transform_many(&rt, rt.alloc());
    work_on(&rt, rt.alloc(), &mut block, "0 '5");
    check(&rt, "its message", gives_text(&block, "5"));
}

/// Whether the block gives this text first.
fn gives_text(block: &Execution<Steps>, content: &str) -> bool {
    match block.left().front() {
        Some(value) => value.as_str() == Some(content),
        None => false,
    }
}

/// A lane that is closed after two jobs were put, of which the second came back.
fn closed_after_two(
    rt: &impl Abort,
    alloc: Global,
    first: Job<Steps>,
    second: Job<Steps>,
) -> LaneState<Steps> {
    let Ok((lane, mut block, side)) = Lane::new(alloc) else {
        panic!(rt; "out of memory");
    };
    let Ok(()) = block.put(&lane, first) else {
        panic!(rt; "a free lane takes no job");
    };
    let Err(back) = block.put(&lane, second) else {
        panic!(rt; "a lane takes two jobs");
    };
    if back.ticket() != 1 {
        panic!(rt; "another job comes back");
    }
    lane.close(block, side)
}

/// The job that a closed lane has.
fn job_in(rt: &impl Abort, left: LaneState<Steps>) -> Job<Steps> {
    let LaneState { phase, slot } = left;
    if phase != LanePhase::Job {
        panic!(rt; "the lane is at another phase");
    }
    match slot {
        Some(LaneItem::Job(job)) => job,
        Some(LaneItem::Result(_)) | None => panic!(rt; "the lane has no job"),
    }
}

#[test]
fn a_second_put_into_a_lane_gives_the_job_back(rt: HostRuntime) {
    let (rt, alloc) = (&rt, rt.alloc());
    let mut block = transform(rt, alloc);
    takes(rt, alloc, &mut block, "0 '5, 0 '6");
    let first = begin(rt, alloc, &mut block, 0);
    let second = begin(rt, alloc, &mut block, 1);
    let job = job_in(rt, closed_after_two(rt, alloc, first, second));
    check(rt, "its ticket", job.ticket() == 0);
    let done = run(rt, alloc, job);
    bring_back(rt, &mut block, done);
    check(rt, "what is left", has_left(block.left(), &[5]));
}
