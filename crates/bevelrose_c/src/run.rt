//! Runs a plan over records. One owner does all events, so no thread is started.
ghost use Rattle.std.specs.Prelude.{◌≡◌, IfOk, IfErr, MatchResult, MatchOption, None, List, ℕ};
ghost use Rattle.flow_link.specs.Planned.{layout_of};
ghost use Rattle.flow_net.specs.Net.{layout_in, parts_of};
ghost use Rattle.bevelrose_c.specs.Answers.{plan_in};
ghost use Rattle.bevelrose_c.specs.Ran.{Begins, IsReported, IsUnreported, OfHeld, run_status};

use crate::handle::Handle;
use crate::refusal::Refusal;
use flow_link::Plan;
use flow_net::{Net, NetFault, NetParts, Settled};
use flow_text::{is_complete, read_records, write_report};
use flow_value::Steps;
use std::alloc::Global;

/// What a run came to.
#[derive(Drop)]
pub struct Outcome {
    pub settled: Settled,
    /// Every block is done, and nothing waits at an input.
    pub complete: bool,
    pub report: Vec<u8>,
}

impl Outcome {
    /// The status that the program `flow_run` ends such a run with.
    pub fn status(&self) -> u8
        ensures { result ≡ run_status self.now.settled self.now.complete }
    {
        match self.settled {
            Settled::Quiet if self.complete => 0,
            Settled::Quiet => 1,
            Settled::Stopped => 3,
        }
    }
}

/// Runs the network that a handle holds; none where it holds none. The handle holds the same plan afterwards.
pub fn run_held(
    alloc: Global,
    handle: &mut Handle,
    records: &[u8],
    limit: u64,
) -> Option<Result<Outcome, Refusal>>
    ensures same_plan { plan_in handle.new.held ≡ plan_in handle.old.held }
    ensures ran { MatchOption result (plan_in handle.old.held ≡ None) (λ done. OfHeld (plan_in handle.old.held) (λ plan.
        MatchResult done (λ outcome. IsReported plan records.now limit outcome.settled outcome.complete outcome.report.items)
        (IsUnreported plan records.now limit))) }
{
    let mut network = handle.take(alloc)?;
    let done = match network.plan.take() {
        Some(plan) => {
            let (plan, done) = run_plan(alloc, plan, records, limit);
            network.plan = Some(plan);
            Some(done)
        }
        None => None,
    };
    handle.put(network);
    done
}

/// Runs this plan over the records until nothing may happen any more or `limit` events are done, and hands it back with what came of it.
fn run_plan(
    alloc: Global,
    plan: Plan<Steps>,
    records: &[u8],
    limit: u64,
) -> (Plan<Steps>, Result<Outcome, Refusal>)
    ensures same_plan { layout_of result.0 ≡ layout_of plan }
    ensures ran { MatchResult result.1
        (λ outcome. IsReported (layout_of plan) records.now limit outcome.settled outcome.complete outcome.report.items)
        (IsUnreported (layout_of plan) records.now limit) }
{
    match begin(alloc, plan, records) {
        Ok(mut net) => {
            let done = settle(alloc, &mut net, limit);
            let NetParts { plan, .. } = net.into_parts();
            (plan, done)
        }
        Err((plan, refusal)) => (plan, Err(refusal)),
    }
}

/// The network of a plan, to which the records are posted.
fn begin(
    alloc: Global,
    plan: Plan<Steps>,
    records: &[u8],
) -> Result<Net<Steps>, (Plan<Steps>, Refusal)>
    ensures begins { IfOk result (λ net. Begins (layout_of plan) records.now (parts_of net)) }
    ensures same_plan { IfOk result (λ net. layout_in net ≡ layout_of plan) }
    ensures refused { IfErr result (λ failed. (limit : ℕ) → IsUnreported (layout_of plan) records.now limit failed.1) }
    ensures back { IfErr result (λ failed. layout_of failed.0 ≡ layout_of plan) }
{
    let posted = match read_records(alloc, records, &plan) {
        Ok(posted) => posted,
        Err(refusal) => return Err((plan, Refusal::of(refusal))),
    };
    match Net::new(alloc, plan, posted) {
        Ok(net) => Ok(net),
        Err((plan, _)) => Err((plan, Refusal::Memory)),
    }
}

/// Does the events of a network that has begun, and writes the report.
fn settle(alloc: Global, net: &mut Net<Steps>, limit: u64) -> Result<Outcome, Refusal>
    ensures same_plan { layout_in net.new ≡ layout_in net.old }
    ensures reported { IfOk result (λ outcome. (records : List ℕ) → Begins (layout_in net.old) records (parts_of net.old)
        → IsReported (layout_in net.old) records limit outcome.settled outcome.complete outcome.report.items) }
    ensures refused { IfErr result (λ refusal. (records : List ℕ) → Begins (layout_in net.old) records (parts_of net.old)
        → IsUnreported (layout_in net.old) records limit refusal) }
{
    let settled = match net.settle(alloc, limit) {
        Ok(settled) => settled,
        Err(NetFault::Ids) => return Err(Refusal::Ids),
        Err(NetFault::Memory) => return Err(Refusal::Memory),
        Err(NetFault::NotEnabled) => unreachable!(),
    };
    let mut report = Vec::new(alloc);
    if write_report(alloc, net, settled, &mut report).is_err() {
        return Err(Refusal::Memory);
    }
    let complete = is_complete(net);
    Ok(Outcome {
        settled,
        complete,
        report,
    })
}
