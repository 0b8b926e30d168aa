//! Networks of all kinds of blocks, run by one worker, by two and by eight.
ghost use Rattle.std.specs.Prelude.{◌≤◌};

use crate::check::check;
use crate::told::told_with;
use flow_trial::{Case, ENOUGH, TABLES, read_case};
use std::alloc::Global;
use std::process::Abort;
use std::sync::Wait;
use std::test::Fail;
use std::thread::Threads;
use std::time::{Clock, CpuClock};

/// Whether a run of a case's texts by so many workers comes to what is due.
fn is_met(
    rt: &(impl Threads + Wait + Clock + CpuClock + Sync),
    alloc: Global,
    case: &Case,
    workers: u32,
) -> Result<bool, Fail>
    requires { (1 ≤ workers) × (workers ≤ 64) }
{
    let (network, records) = case.texts(alloc)?;
    let told = told_with(rt, alloc, &network, records.as_slice(), workers, ENOUGH)?;
    Ok(case.is_told(alloc, Some(told.status), told.text.as_slice())?)
}

/// Tests each case of a table.
fn check_each(
    rt: &(impl Abort + Print + Threads + Wait + Clock + CpuClock + Sync),
    alloc: Global,
    table: &str,
    workers: u32,
) -> Result<(), Fail>
    requires { (1 ≤ workers) × (workers ≤ 64) }
{
    for lines in table.trim().split("\n\n") {
        let case = read_case(lines).ok_or("no case")?;
        check(rt, case.name, is_met(rt, alloc, &case, workers)?);
    }
    Ok(())
}

/// Tests each case of all tables.
fn check_all(
    rt: &(impl Abort + Print + Threads + Wait + Clock + CpuClock + Sync),
    alloc: Global,
    workers: u32,
) -> Result<(), Fail>
    requires { (1 ≤ workers) × (workers ≤ 64) }
{
    for table in TABLES {
        check_each(rt, alloc, table, workers)?;
    }
    Ok(())
}

#[test]
fn one_worker_runs_networks_to_their_ends(rt: HostRuntime) -> Result<(), Fail> {
    check_all(&rt, rt.alloc(), 1)
}

#[test]
fn two_workers_run_networks_to_their_ends(rt: HostRuntime) -> Result<(), Fail> {
    check_all(&rt, rt.alloc(), 2)
}

#[test]
fn eight_workers_run_networks_to_their_ends(rt: HostRuntime) -> Result<(), Fail> {
    check_all(&rt, rt.alloc(), 8)
}
