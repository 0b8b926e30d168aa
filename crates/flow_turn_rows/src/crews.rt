//! Crews run each network, in rounds of their own.
ghost use Rattle.std.specs.Prelude.{◌≤◌, ◌<◌};

use crate::ends::has_ended;
use crate::journals::{go_on, journals};
use crate::midway::{in_mid_move, one_message};
use crate::networks::{case_of, network_of};
use flow_board::OpenGate;
use flow_crew::run_workers;
use flow_net::{Net, Settled};
use flow_trial::{FAULTS, TABLES};
use flow_value::Steps;
use std::alloc::Global;
use std::process::Abort;
use std::sync::Wait;
use std::thread::Threads;
use std::time::Clock;

/// The network after so many workers ran it to its end.
fn ran(
    rt: &(impl Abort + Threads + Wait + Clock + Sync),
    alloc: Global,
    net: Net<Steps>,
    workers: usize,
) -> Net<Steps>
    requires workers { (0 < workers) × (workers ≤ 64) }
{
    let Ok((net, Settled::Quiet)) = run_workers(rt, alloc, net, workers, &OpenGate, u64::MAX) else {
        panic!(rt; "the run does not end");
    };
    net
}

/// Asserts that each case of a table comes to its end by so many workers.
fn each_ends(
    rt: &(impl Abort + Threads + Wait + Clock + Sync),
    alloc: Global,
    table: &str,
    workers: usize,
)
    requires workers { (0 < workers) × (workers ≤ 64) }
{
    for lines in table.trim().split("\n\n") {
        let case = case_of(rt, lines);
        let net = ran(rt, alloc, network_of(rt, alloc, &case), workers);
        has_ended(rt, alloc, &net, &case);
    }
}

/// Asserts that all cases come to their ends by so many workers.
fn all_end(rt: &(impl Abort + Threads + Wait + Clock + Sync), alloc: Global, workers: usize)
    requires workers { (0 < workers) × (workers ≤ 64) }
{
    for table in TABLES {
        each_ends(rt, alloc, table, workers);
    }
    each_ends(rt, alloc, FAULTS, workers);
}

#[test]
fn runs_end_by_one_worker(rt: HostRuntime) {
    all_end(&rt, rt.alloc(), 1);
}

#[test]
fn runs_end_by_two_workers(rt: HostRuntime) {
    all_end(&rt, rt.alloc(), 2);
}

#[test]
fn runs_end_by_eight_workers(rt: HostRuntime) {
    all_end(&rt, rt.alloc(), 8);
}

#[test]
fn a_message_that_is_gathered_in_mid_move_arrives_once_by_workers(rt: HostRuntime) {
    let alloc = rt.alloc();
    let net = in_mid_move(&rt, alloc);
    let kept = journals(&rt, alloc, &net);
    let net = ran(&rt, alloc, net, 2);
    go_on(&rt, alloc, &net, &kept);
    has_ended(&rt, alloc, &net, &one_message(&rt));
}
