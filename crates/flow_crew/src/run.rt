//! A network is run by a crew, round by round: it is scattered, the crew turns its tasks, and it is gathered.
ghost use Rattle.std.specs.Prelude.{◌≡◌, ◌↔◌, ◌<◌, ◌≤◌, true, length, IfOk, IfErr, IfSome};
ghost use Rattle.flow_lawful.specs.Lawful.{Lawful};
ghost use Rattle.flow_lawful.specs.Quiet.{Quiet};
ghost use Rattle.flow_core.specs.AtRest.{AtRest};
ghost use Rattle.flow_core.specs.Inputs.{none_posted};
ghost use Rattle.flow_net.specs.Net.{NetIsStill, layout_in, parts_of, run_of};
ghost use Rattle.flow_net.specs.declared.settled.Settled.TheVariants as settled;
ghost use Rattle.flow_board.specs.Parts.{AllTasksOf};
ghost use Rattle.flow_crew.specs.Rounds.{ComeBack};
ghost use Rattle.flow_crew.specs.Runs.{IsGatheredOf, IsLeft, IsLeftOf, MayBeGathered, RunsOn};

use crate::round::turn_for;
use crate::shift::{Hours, Shift};
use flow_board::{Board, Gate, GatherFault, Parts, Task, gather, scatter};
use flow_link::{LinkId, Move, Phase};
use flow_net::{Event, Net, NetFault, Settled};
use flow_value::Runs;
use std::alloc::{AllocError, Global};
use std::sync::Wait;
use std::thread::Threads;
use std::time::Clock;

/// Why a network is not run on, with what there is of it.
#[derive(Drop)]
pub enum RunFault<W: Runs> {
    /// Message ids are used up.
    Ids(Net<W>),
    /// Memory is out.
    Net(Net<W>),
    /// Memory is out where these parts of the network are to be put together. They are all there, and `gather` may do that later.
    Parts(Parts<W>),
}

/// Runs a network on so many threads, 1 to 64, until nothing may happen any more, or as many events are done as the limit. Inputs that
/// stay open and exits do what the network does for them by itself; no call is made there, and nothing is received.
///
/// A round scatters the network, has the threads turn its tasks, and gathers it. It costs the threads, and as much as the network has
/// blocks and links. A block that has several lanes works on as many messages at a time, on whichever threads turn its lanes; any other
/// works in its own turns, one message at a time. Each job goes through the gate.
///
/// Errors: message ids or memory are used up. Whatever was done until then stays done, and comes back.
///
/// It waits for its threads.
pub fn run_workers<W: Runs + Send + Sync, R: Threads + Wait + Clock + Sync, G: Gate + Sync>(
    rt: &R,
    alloc: Global,
    net: Net<W>,
    workers: usize,
    gate: &G,
    limit: u64,
) -> Result<(Net<W>, Settled), RunFault<W>>
    requires workers { (0 < workers) × (workers ≤ 64) }
    ensures runs_on { IfOk result (λ ran. RunsOn net ran.0) }
    ensures lawful { IfOk result (λ ran. Lawful (run_of W.meaning ran.0)) }
    ensures still { IfOk result (λ ran. (ran.1 ≡ settled.Quiet) ↔ NetIsStill W.meaning ran.0) }
    ensures quiet { IfOk result (λ ran. ran.1 ≡ settled.Quiet → Quiet (run_of W.meaning ran.0)) }
    ensures at_rest { IfOk result (λ ran. ran.1 ≡ settled.Quiet → AtRest (layout_in ran.0) (parts_of ran.0)) }
    ensures same_inputs { IfOk result (λ ran. none_posted (parts_of net) ≡ true →
        (run_of W.meaning ran.0).trace.inputs ≡ (run_of W.meaning net).trace.inputs) }
    ensures left { IfErr result (λ fault. IsLeft W.meaning net fault) }
{
    let hours = Hours::begin(rt, None);
    let (net, _) = run_rounds(rt, alloc, net, workers, gate, &hours, limit)?;
    let settled = how_settled(&net);
    Ok((net, settled))
}

/// The same, but it ends with the shift, too. It answers how many events may be done yet, of so many that might be: none where nothing may
/// happen any more.
///
/// A shift that ends early costs a round. One without time does one round at least.
pub fn run_shift<W: Runs + Send + Sync, R: Threads + Wait + Clock + Sync, G: Gate + Sync>(
    rt: &R,
    alloc: Global,
    net: Net<W>,
    workers: usize,
    gate: &G,
    shift: Shift,
    limit: u64,
) -> Result<(Net<W>, u64), RunFault<W>>
    requires workers { (0 < workers) × (workers ≤ 64) }
    ensures runs_on { IfOk result (λ ran. RunsOn net ran.0) }
    ensures fewer { IfOk result (λ ran. 0 < limit → ran.1 < limit) }
    ensures left { IfErr result (λ fault. IsLeft W.meaning net fault) }
{
    let hours = Hours::begin(rt, Some(shift));
    run_rounds(rt, alloc, net, workers, gate, &hours, limit)
}

/// Does rounds until nothing may happen any more, or so many events are done, or the hours are over. Answers how many may be done yet: none
/// in the first case.
fn run_rounds<W: Runs + Send + Sync, R: Threads + Wait + Clock + Sync, G: Gate + Sync>(
    rt: &R,
    alloc: Global,
    mut net: Net<W>,
    workers: usize,
    gate: &G,
    hours: &Hours,
    limit: u64,
) -> Result<(Net<W>, u64), RunFault<W>>
    requires workers { (0 < workers) × (workers ≤ 64) }
    ensures runs_on { IfOk result (λ ran. RunsOn net ran.0) }
    ensures fewer { IfOk result (λ ran. 0 < limit → ran.1 < limit) }
    ensures left { IfErr result (λ fault. IsLeft W.meaning net fault) }
{
    let mut left = limit;
    while left > 0 {
        let (next, done) = run_round(rt, alloc, net, workers, gate, hours, left)?;
        if done == 0 {
            return Ok((next, 0));
        }
        net = next;
        left -= done;
        if hours.is_over(rt, 0) {
            return Ok((net, left));
        }
    }
    Ok((net, left))
}

/// How far a network has come.
pub fn how_settled<W: Runs>(net: &Net<W>) -> Settled
    ensures still { (result ≡ settled.Quiet) ↔ NetIsStill W.meaning net.now }
    ensures quiet { result ≡ settled.Quiet → Quiet (run_of W.meaning net.now) }
    ensures at_rest { result ≡ settled.Quiet → AtRest (layout_in net.now) (parts_of net.now) }
{
    if net.is_quiet() {
        Settled::Quiet
    } else {
        Settled::Stopped
    }
}

/// Does some events, at most so many, and answers how many; none where nothing may happen any more. What is under way over links is
/// taken first, as scattering would do it. Where the tasks find nothing to do, the network takes one step by itself.
fn run_round<W: Runs + Send + Sync, R: Threads + Wait + Clock + Sync, G: Gate + Sync>(
    rt: &R,
    alloc: Global,
    mut net: Net<W>,
    workers: usize,
    gate: &G,
    hours: &Hours,
    limit: u64,
) -> Result<(Net<W>, u64), RunFault<W>>
    requires workers { (0 < workers) × (workers ≤ 64) }
    requires some { 0 < limit }
    ensures within { IfOk result (λ ran. ran.1 ≤ limit) }
    ensures runs_on { IfOk result (λ ran. RunsOn net ran.0) }
    ensures left { IfErr result (λ fault. IsLeft W.meaning net fault) }
{
    let Ok(taken) = take_home(alloc, &mut net, limit) else {
        return Err(RunFault::Net(net));
    };
    if taken > 0 {
        return Ok((net, taken));
    }
    let (net, events) = turn_all(rt, alloc, net, workers, gate, hours, limit)?;
    if events > 0 {
        return Ok((net, events));
    }
    take_step(alloc, net)
}

/// Does one event, if one may happen.
fn take_step<W: Runs>(alloc: Global, mut net: Net<W>) -> Result<(Net<W>, u64), RunFault<W>>
    ensures within { IfOk result (λ ran. ran.1 ≤ 1) }
    ensures runs_on { IfOk result (λ ran. RunsOn net ran.0) }
    ensures left { IfErr result (λ fault. IsLeft W.meaning net fault) }
{
    match net.settle(alloc, 1) {
        Ok(Settled::Quiet) => Ok((net, 0)),
        Ok(Settled::Stopped) => Ok((net, 1)),
        Err(NetFault::Ids) => Err(RunFault::Ids(net)),
        Err(NetFault::Memory) => Err(RunFault::Net(net)),
        Err(NetFault::NotEnabled) => unreachable!(),
    }
}

/// Scatters a network, has so many threads turn its tasks, for at most so many events, and gathers it.
fn turn_all<W: Runs + Send + Sync, R: Threads + Wait + Clock + Sync, G: Gate + Sync>(
    rt: &R,
    alloc: Global,
    net: Net<W>,
    workers: usize,
    gate: &G,
    hours: &Hours,
    limit: u64,
) -> Result<(Net<W>, u64), RunFault<W>>
    requires workers { (0 < workers) × (workers ≤ 64) }
    ensures within { IfOk result (λ ran. ran.1 ≤ limit) }
    ensures runs_on { IfOk result (λ ran. RunsOn net ran.0) }
    ensures left { IfErr result (λ fault. IsLeft W.meaning net fault) }
{
    match scatter(alloc, net) {
        Ok(scattered) => {
            let (parts, _) = scattered.into_parts();
            turn_and_gather(rt, alloc, parts, workers, gate, hours, limit)
        }
        Err((net, AllocError)) => Err(RunFault::Net(net)),
    }
}

/// Has so many threads turn the tasks of a board, for at most so many events, and puts the parts together.
fn turn_and_gather<W: Runs + Send + Sync, R: Threads + Wait + Clock + Sync, G: Gate + Sync>(
    rt: &R,
    alloc: Global,
    parts: Parts<W>,
    workers: usize,
    gate: &G,
    hours: &Hours,
    limit: u64,
) -> Result<(Net<W>, u64), RunFault<W>>
    requires workers { (0 < workers) × (workers ≤ 64) }
    requires parts { MayBeGathered parts }
    ensures within { IfOk result (λ ran. ran.1 ≤ limit) }
    ensures gathered { IfOk result (λ ran. IsGatheredOf parts.board ran.0) }
    ensures left { IfErr result (λ fault. IsLeftOf W.meaning parts.board fault) }
{
    let Parts {
        board,
        tasks,
        entries,
        exits,
    } = parts;
    let (tasks, events) = turn_tasks(rt, alloc, &board, tasks, workers, gate, hours, limit);
    let parts = Parts {
        board,
        tasks,
        entries,
        exits,
    };
    match gather(alloc, parts) {
        Ok(net) => match events {
            Some(events) => Ok((net, events)),
            None => Err(RunFault::Net(net)),
        },
        Err((parts, fault)) => match fault {
            GatherFault::Memory => Err(RunFault::Parts(parts)),
            // each task comes back, and entries and exits have not moved
            GatherFault::Missing(_) => unreachable!(),
        },
    }
}

/// The tasks after a crew has turned them, and how many events it did; none where memory was out.
fn turn_tasks<W: Runs + Send + Sync, R: Threads + Wait + Clock + Sync, G: Gate + Sync>(
    rt: &R,
    alloc: Global,
    board: &Board<W>,
    tasks: Vec<Task<W>>,
    workers: usize,
    gate: &G,
    hours: &Hours,
    limit: u64,
) -> (Vec<Task<W>>, Option<u64>)
    requires workers { (0 < workers) × (workers ≤ 64) }
    requires of { AllTasksOf board.now tasks.items }
    ensures back { ComeBack board.now tasks.items result.0.items }
    ensures within { IfSome result.1 (λ events. events ≤ limit) }
{
    match turn_for(rt, alloc, board, tasks, workers, gate, hours, limit) {
        Ok((tasks, events)) => (tasks, Some(events)),
        Err((tasks, AllocError)) => (tasks, None),
    }
}

/// Takes what is under way over links, by at most so many events, and answers how many.
fn take_home<W: Runs>(alloc: Global, net: &mut Net<W>, limit: u64) -> Result<u64, AllocError>
    ensures within { IfOk result (λ done. done ≤ limit) }
    ensures runs_on { RunsOn net.old net.new }
{
    let mut done = 0;
    for id in 0..net.plan().link_count() {
        done += take_over(alloc, net, id, limit - done)?;
    }
    Ok(done)
}

/// The same over one link.
fn take_over<W: Runs>(
    alloc: Global,
    net: &mut Net<W>,
    id: LinkId,
    limit: u64,
) -> Result<u64, AllocError>
    requires { id < length (layout_in net.old).links }
    ensures within { IfOk result (λ done. done ≤ limit) }
    ensures runs_on { RunsOn net.old net.new }
{
    let mut done = 0;
    while done < limit {
        let Some(next) = next_home(net.phase(id)) else {
            break;
        };
        if !go_home(alloc, net, id, next)? {
            break;
        }
        done += 1;
    }
    Ok(done)
}

/// The target's next move for a message that was given.
fn next_home(phase: Phase) -> Option<Move> {
    match phase {
        Phase::Given(_) => Some(Move::Open),
        Phase::Opened(_) => Some(Move::Close),
        Phase::Idle
        | Phase::Posted(_)
        | Phase::Offered(_)
        | Phase::Postponed(_)
        | Phase::Wanted(_)
        | Phase::Asked(_)
        | Phase::Held(_)
        | Phase::Refused
        | Phase::Ended(_) => None,
    }
}

/// An end of a link makes its move. False where it may not.
fn go_home<W: Runs>(
    alloc: Global,
    net: &mut Net<W>,
    id: LinkId,
    next: Move,
) -> Result<bool, AllocError>
    ensures runs_on { RunsOn net.old net.new }
{
    match net.event(alloc, Event::Link(id, next)) {
        Ok(_) => Ok(true),
        Err((_, NetFault::Memory)) => Err(AllocError),
        Err((_, NetFault::NotEnabled | NetFault::Ids)) => Ok(false),
    }
}
