//! Blocks that work on several messages at once: their results come out in the order of the messages.
use flow_link::Ending;
use flow_net::Settled;
use flow_trial::{ENOUGH, came_to, network, settles};
use std::alloc::Global;
use std::sync::Wait;
use std::test::Fail;
use std::thread::Threads;

const FOUR_LANES: &str = r#"in buffer => t transform/4 ["int", "add 1"] => out action []"#;

/// Whether a chain whose transform has four lanes comes to what it should, where this many workers do so many events of
/// it, other ones do as many again, and the caller alone does the rest.
fn settles_with(
    rt: &(impl Threads + Wait + Sync),
    alloc: Global,
    workers: usize,
    limit: u64,
) -> Result<bool, Fail> {
    let words = "'1 '2 '3 '4 '5 '6 '7 '8";
    let mut net = network(alloc, FOUR_LANES, words, Ending::Complete)?;
    let has_begun = net.settle_with(rt, alloc, workers, limit).is_ok();
    let settled = net.settle_with(rt, alloc, workers, limit);
    let is_stopped = settled == Ok(Settled::Stopped) && !net.is_quiet();
    let is_quiet = settled == Ok(Settled::Quiet) && net.is_quiet();
    let end = "block in done ; block t done ; block out done ; record [2,3,4,5,6,7,8,9]";
    Ok(
        has_begun
            && (is_quiet || is_stopped && settles(alloc, &mut net))
            && came_to(alloc, &net, &[end])?.is_some(),
    )
}

#[test]
fn workers_come_to_the_same(rt: HostRuntime) -> Result<(), Fail> {
    for workers in [1, 2, 8, 64] {
        assert!(rt;
            settles_with(&rt, rt.alloc(), workers, ENOUGH)?,
            "{workers}"
        );
    }
    Ok(())
}

#[test]
fn what_workers_leave_is_done(rt: HostRuntime) -> Result<(), Fail> {
    for limit in 0..180 {
        assert!(rt; settles_with(&rt, rt.alloc(), 3, limit)?, "{limit}");
    }
    Ok(())
}
