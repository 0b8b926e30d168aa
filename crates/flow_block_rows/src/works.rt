//! Blocks with a function: the test begins their jobs, and brings the results back.
use crate::check::check;
use crate::plans::execution;
use crate::script::{does, takes};
use crate::shared::{are, makes, tells};
use flow_exec::{EndFault, JobResult};
use flow_kinds::kind::WorkKind;
use flow_kinds::{Action, Transform, TransformMany, TypedExecution};
use flow_link::BlockKind;
use flow_value::Steps;
use std::alloc::Global;
use std::process::Abort;

/// The result of the job that the block begins next, which has this ticket.
fn run_next<K: WorkKind>(
    rt: &impl Abort,
    alloc: Global,
    block: &mut TypedExecution<K, Steps>,
    ticket: u64,
) -> JobResult<Steps> {
    let Ok(Some(job)) = block.begin(alloc) else {
        panic!(rt; "no job begins");
    };
    if job.ticket() != ticket || !block.execution().is_own_job(&job) {
        panic!(rt; "it is another job");
    }
    let Ok(done) = job.run(alloc) else {
        panic!(rt; "out of memory");
    };
    done
}

/// The block works on its next message, which has this ticket.
fn work<K: WorkKind>(
    rt: &impl Abort,
    alloc: Global,
    block: &mut TypedExecution<K, Steps>,
    ticket: u64,
) {
    let done = run_next(rt, alloc, block, ticket);
    bring_back(rt, block, done);
}

#[test]
fn a_typed_action_records(rt: HostRuntime) {
    let (rt, alloc) = (&rt, rt.alloc());
    let mut action: Action<Steps> = execution(rt, alloc, BlockKind::Action);
    takes(rt, alloc, &mut action, "0 '5");
    makes(rt, alloc, &mut action, false);
    work(rt, alloc, &mut action, 0);
    check(rt, "its record", are(action.record(), &[5]));
    tells(rt, &mut action, None);
}

/// The block takes the result back.
fn bring_back<K: WorkKind>(
    rt: &impl Abort,
    block: &mut TypedExecution<K, Steps>,
    done: JobResult<Steps>,
) {
    let Ok(()) = block.end(done) else {
        panic!(rt; "it is not taken back");
    };
}

#[test]
fn a_transform_gives_results_in_order(rt: HostRuntime) {
    let (rt, alloc) = (&rt, rt.alloc());
    let mut transform: Transform<Steps> = execution(rt, alloc, BlockKind::Transform);
    takes(rt, alloc, &mut transform, "0 '1, 1 '2");
    let first = run_next(rt, alloc, &mut transform, 0);
    let second = run_next(rt, alloc, &mut transform, 1);
    bring_back(rt, &mut transform, second);
    bring_back(rt, &mut transform, first);
    does(
        rt,
        alloc,
        &mut transform,
        "hands 2 1 1; hands 2 2 2; hands nothing",
    );
}

#[test]
fn a_transform_many_gives_all_results(rt: HostRuntime) {
    let (rt, alloc) = (&rt, rt.alloc());
    let mut many: TransformMany<Steps> = execution(rt, alloc, BlockKind::TransformMany);
    takes(rt, alloc, &mut many, "0 '7");
    work(rt, alloc, &mut many, 0);
    does(rt, alloc, &mut many, "hands 2 1 7; hands nothing");
}

/// Whether the block hands the result back, since no job of its own is out that it could be of.
fn is_strange<K: WorkKind>(block: &mut TypedExecution<K, Steps>, done: JobResult<Steps>) -> bool {
    matches!(block.end(done), Err((_, EndFault::Strange)))
}

#[test]
fn a_result_of_another_block_is_strange(rt: HostRuntime) {
    let (rt, alloc) = (&rt, rt.alloc());
    let mut transform: Transform<Steps> = execution(rt, alloc, BlockKind::Transform);
    let mut equal: Transform<Steps> = execution(rt, alloc, BlockKind::Transform);
    takes(rt, alloc, &mut equal, "0 '1");
    let done = run_next(rt, alloc, &mut equal, 0);
    check(rt, "it is of another", is_strange(&mut transform, done));
}
