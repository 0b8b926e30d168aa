//! A network is run by its owner while its events are short, and by a crew while they are long.
ghost use Rattle.std.specs.Prelude.{◌≡◌, ◌↔◌, ◌<◌, ◌≤◌, true, IfOk, IfErr};
ghost use Rattle.flow_lawful.specs.Lawful.{Lawful};
ghost use Rattle.flow_lawful.specs.Quiet.{Quiet};
ghost use Rattle.flow_core.specs.AtRest.{AtRest};
ghost use Rattle.flow_core.specs.Inputs.{none_posted};
ghost use Rattle.flow_net.specs.Net.{NetIsStill, NetSettles, layout_in, parts_of, run_of};
ghost use Rattle.flow_net.specs.declared.settled.Settled.TheVariants as settled;
ghost use Rattle.flow_crew.specs.Runs.{IsLeft, RunsOn};
ghost use Rattle.flow_pace.specs.Alone.{IsLeftAlone};

use crate::pace::{AGAIN, AT_FIRST, Watch};
use crate::short::settle_while_short;
use flow_board::Gate;
use flow_crew::{RunFault, Shift, how_settled, run_shift, run_workers};
use flow_net::{Net, NetFault, Settled};
use flow_value::Runs;
use std::alloc::Global;
use std::sync::Wait;
use std::thread::{Threads, available_parallelism};
use std::time::{Clock, CpuClock, Duration};

/// How many milliseconds a crew goes on at first before it is seen again how long events take; later it is four times as long each time.
/// Should events turn short meanwhile, so much time is lost at most.
const SHIFT: u64 = 256;

/// How many events it does at least. With few, it would cost more to begin than it does.
const EVENTS: u64 = 4_096;

/// When a crew begins to do events.
#[derive(Clone, Copy)]
pub enum Start {
    /// While they are long.
    WhileLong,
    /// At once, and it does all of them. So each event goes through the crew, whatever it costs.
    AtOnce,
}

/// Runs a network on so many threads, 1 to 64, until nothing may happen any more, or as many events are done as the limit. Inputs that
/// stay open and exits do what the network does for them by itself; no call is made there.
///
/// One worker does the events one after another, as `Net::settle` does. Of several, one does so while events are short, a microsecond of
/// processor time each on average, or half of one where a block has several lanes; while they are long a crew does, as
/// `flow_crew::run_workers` has it. It is no larger than the processors that the process may use, but of two at least: works compute, and
/// more threads than processors gain nothing. Each job that a crew does goes through the gate.
///
/// Errors: message ids or memory are used up. Whatever was done until then stays done, and comes back.
///
/// It waits for its threads.
pub fn run_paced<
    W: Runs + Send + Sync,
    R: Threads + Wait + Clock + CpuClock + Sync,
    G: Gate + Sync,
>(
    rt: &R,
    alloc: Global,
    net: Net<W>,
    workers: usize,
    gate: &G,
    start: Start,
    limit: u64,
) -> Result<(Net<W>, Settled), RunFault<W>>
    requires workers { (0 < workers) × (workers ≤ 64) }
    ensures runs_on { IfOk result (λ ran. RunsOn net ran.0) }
    ensures lawful { IfOk result (λ ran. Lawful (run_of W.meaning ran.0)) }
    ensures still { IfOk result (λ ran. (ran.1 ≡ settled.Quiet) ↔ NetIsStill W.meaning ran.0) }
    ensures quiet { IfOk result (λ ran. ran.1 ≡ settled.Quiet → Quiet (run_of W.meaning ran.0)) }
    ensures at_rest { IfOk result (λ ran. ran.1 ≡ settled.Quiet → AtRest (layout_in ran.0) (parts_of ran.0)) }
    ensures same_inputs { IfOk result (λ ran. none_posted (parts_of net) ≡ true →
        (run_of W.meaning ran.0).trace.inputs ≡ (run_of W.meaning net).trace.inputs) }
    ensures left { IfErr result (λ fault. IsLeft W.meaning net fault) }
    ensures alone { IfOk result (λ ran. workers ≡ 1 → NetSettles W.meaning limit net ran.0 ran.1) }
    ensures left_alone { IfErr result (λ fault. workers ≡ 1 → IsLeftAlone W.meaning limit net fault) }
{
    if workers == 1 {
        return run_alone(alloc, net, limit);
    }
    match start {
        Start::WhileLong => run_together(rt, alloc, net, workers, gate, limit),
        Start::AtOnce => run_workers(rt, alloc, net, workers, gate, limit),
    }
}

/// The owner does all events, at most so many.
fn run_alone<W: Runs>(
    alloc: Global,
    mut net: Net<W>,
    limit: u64,
) -> Result<(Net<W>, Settled), RunFault<W>>
    ensures runs_on { IfOk result (λ ran. RunsOn net ran.0) }
    ensures lawful { IfOk result (λ ran. Lawful (run_of W.meaning ran.0)) }
    ensures settles { IfOk result (λ ran. NetSettles W.meaning limit net ran.0 ran.1) }
    ensures still { IfOk result (λ ran. (ran.1 ≡ settled.Quiet) ↔ NetIsStill W.meaning ran.0) }
    ensures quiet { IfOk result (λ ran. ran.1 ≡ settled.Quiet → Quiet (run_of W.meaning ran.0)) }
    ensures at_rest { IfOk result (λ ran. ran.1 ≡ settled.Quiet → AtRest (layout_in ran.0) (parts_of ran.0)) }
    ensures left { IfErr result (λ fault. IsLeft W.meaning net fault) }
    ensures left_alone { IfErr result (λ fault. IsLeftAlone W.meaning limit net fault) }
{
    match net.settle(alloc, limit) {
        Ok(settled) => Ok((net, settled)),
        Err(NetFault::Ids) => Err(RunFault::Ids(net)),
        Err(NetFault::Memory) => Err(RunFault::Net(net)),
        Err(NetFault::NotEnabled) => unreachable!(),
    }
}

/// The owner and a crew do the events by turns, at most so many.
fn run_together<W: Runs + Send + Sync, R: Threads + Wait + Clock + CpuClock + Sync, G: Gate + Sync>(
    rt: &R,
    alloc: Global,
    mut net: Net<W>,
    workers: usize,
    gate: &G,
    limit: u64,
) -> Result<(Net<W>, Settled), RunFault<W>>
    requires workers { (0 < workers) × (workers ≤ 64) }
    ensures runs_on { IfOk result (λ ran. RunsOn net ran.0) }
    ensures lawful { IfOk result (λ ran. Lawful (run_of W.meaning ran.0)) }
    ensures still { IfOk result (λ ran. (ran.1 ≡ settled.Quiet) ↔ NetIsStill W.meaning ran.0) }
    ensures quiet { IfOk result (λ ran. ran.1 ≡ settled.Quiet → Quiet (run_of W.meaning ran.0)) }
    ensures at_rest { IfOk result (λ ran. ran.1 ≡ settled.Quiet → AtRest (layout_in ran.0) (parts_of ran.0)) }
    ensures left { IfErr result (λ fault. IsLeft W.meaning net fault) }
{
    let crew = crew_of(rt, workers);
    let mut left = limit;
    let mut watch = AT_FIRST;
    let mut time = Duration::from_millis(SHIFT);
    while left > 0 {
        let (next, fewer) = run_turn(rt, alloc, net, crew, gate, watch, time, left)?;
        net = next;
        left = fewer;
        watch = AGAIN;
        time = time.saturating_mul(4);
    }
    let settled = how_settled(&net);
    Ok((net, settled))
}

/// So many workers, but no more than there are processors that the process may use, and two at least.
fn crew_of<R: Threads>(rt: &R, workers: usize) -> usize
    requires workers { (0 < workers) × (workers ≤ 64) }
    ensures workers { (0 < result) × (result ≤ 64) }
{
    match available_parallelism(rt) {
        Ok(count) => workers.min(count.get().max(2)),
        Err(_) => workers,
    }
}

/// The owner does events while they are short, and then a crew does some for so long. Answers how many may be done yet, of so many that
/// might be: none where nothing may happen any more.
fn run_turn<W: Runs + Send + Sync, R: Threads + Wait + Clock + CpuClock + Sync, G: Gate + Sync>(
    rt: &R,
    alloc: Global,
    mut net: Net<W>,
    workers: usize,
    gate: &G,
    watch: Watch,
    time: Duration,
    limit: u64,
) -> Result<(Net<W>, u64), RunFault<W>>
    requires workers { (0 < workers) × (workers ≤ 64) }
    requires some { 0 < limit }
    ensures runs_on { IfOk result (λ ran. RunsOn net ran.0) }
    ensures fewer { IfOk result (λ ran. ran.1 < limit) }
    ensures left { IfErr result (λ fault. IsLeft W.meaning net fault) }
{
    let left = match settle_while_short(rt, alloc, &mut net, watch, limit) {
        Ok(left) => left,
        Err(NetFault::Ids) => return Err(RunFault::Ids(net)),
        Err(NetFault::Memory) => return Err(RunFault::Net(net)),
        Err(NetFault::NotEnabled) => unreachable!(),
    };
    if left == 0 {
        return Ok((net, 0));
    }
    let shift = Shift {
        events: EVENTS,
        time,
    };
    run_shift(rt, alloc, net, workers, gate, shift, left)
}
