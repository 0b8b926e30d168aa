//! Tables of networks that are drawn in a line, with records, each with what it comes to.

use crate::events::check::check;
use flow_drawn::draft;
use flow_link::{PlanFault, PlanRefusal, plan_check};
use flow_trial::{Case, do_first, in_order, read_case, settles, wander};
use std::alloc::Global;
use std::process::Abort;
use std::test::Fail;

/// Whether the draft, settled at once, comes to what is due.
fn comes_to_its_end(alloc: Global, case: Case) -> Result<bool, Fail> {
    let mut net = case.network(alloc).ok_or("no network")?;
    Ok(settles(alloc, &mut net) && case.is_met(alloc, &net))
}

/// Whether the draft comes to what is due by the schedule with this seed.
fn wanders(alloc: Global, case: Case, seed: u64) -> Result<bool, Fail> {
    let mut net = case.network(alloc).ok_or("no network")?;
    Ok(wander(alloc, &mut net, seed)? && case.is_met(alloc, &net))
}

/// Whether the draft comes to what is due with links first or blocks first, forwards or backwards.
fn is_met_in_order(
    alloc: Global,
    case: Case,
    links_first: bool,
    backwards: bool,
) -> Result<bool, Fail> {
    let mut net = case.network(alloc).ok_or("no network")?;
    let choices = in_order(alloc, net.plan(), links_first, backwards)?;
    Ok(do_first(alloc, &mut net, choices.as_slice())? && case.is_met(alloc, &net))
}

/// How many schedules each network is driven by.
const SEEDS: u64 = 6;

fn check_orders(rt: &(impl Abort + Print), alloc: Global, case: Case) -> Result<(), Fail> {
    for seed in 0..SEEDS {
        check(rt, case.name, wanders(alloc, case, seed)?);
    }
    for (links_first, backwards) in [(true, false), (false, false), (true, true), (false, true)] {
        let is_met = is_met_in_order(alloc, case, links_first, backwards)?;
        check(rt, case.name, is_met);
    }
    Ok(())
}

/// Tests each case of a table, between which empty lines stand: settled at once, and in several orders of events.
pub(crate) fn check_cases(
    rt: &(impl Abort + Print),
    alloc: Global,
    table: &str,
) -> Result<(), Fail> {
    for lines in table.trim().split("\n\n") {
        let case = read_case(lines).ok_or("no case")?;
        check(rt, case.name, comes_to_its_end(alloc, case)?);
        check_orders(rt, alloc, case)?;
    }
    Ok(())
}

/// The fault of the draft that is drawn so; none where it is a plan.
pub(crate) fn fault_of(alloc: Global, drawn: &str) -> Result<Option<PlanFault>, Fail> {
    match plan_check(alloc, draft(alloc, drawn).ok_or("no draft")?) {
        Ok(_) => Ok(None),
        Err((_, PlanRefusal::Fault(fault))) => Ok(Some(fault)),
        Err((_, PlanRefusal::Memory)) => Err(Fail::new("out of memory")),
    }
}
