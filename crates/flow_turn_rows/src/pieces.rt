//! The run in which an input faults beside a join that reserves, done in pieces by its one owner and by crews: wherever it stops, no message
//! is lost and none is there twice, and it goes on from there to its end.
ghost use Rattle.std.specs.Prelude.{◌≤◌};

use crate::ends::has_ended;
use crate::journals::{go_on, journals};
use crate::networks::{named, network_of};
use flow_board::OpenGate;
use flow_crew::run_workers;
use flow_link::{LinkId, Mark, Phase};
use flow_net::{Net, Settled};
use flow_trial::{Case, FAULTS};
use flow_value::Steps;
use std::alloc::Global;
use std::process::Abort;
use std::sync::Wait;
use std::thread::Threads;
use std::time::Clock;

/// More events than the run has.
const ENOUGH: u64 = 1_000;

/// The links between blocks: from which block each leads, and into which. Two more lead in from the inputs, and there is no other.
const LINKS: &[(usize, LinkId, usize)] = &[(0, 0, 2), (1, 1, 2), (2, 2, 3)];

/// The ways through blocks: the block, the link over which a message comes, and that over which it goes on. The action has none such.
const WAYS: &[(usize, LinkId, LinkId)] = &[(0, 3, 0), (1, 4, 1), (2, 0, 2), (2, 1, 2), (3, 2, 5)];

/// The network, run on by so many workers, or by its one owner where there are none, for at most so many events; and how far it came.
fn run_on<R: Abort + Threads + Wait + Clock + Sync>(
    rt: &R,
    alloc: Global,
    mut net: Net<Steps>,
    workers: usize,
    limit: u64,
) -> (Net<Steps>, Settled)
    requires workers { workers ≤ 64 }
{
    if workers > 0 {
        let Ok(ran) = run_workers(rt, alloc, net, workers, &OpenGate, limit) else {
            panic!(rt; "out of memory");
        };
        return ran;
    }
    let Ok(settled) = net.settle(alloc, limit) else {
        panic!(rt; "out of memory");
    };
    (net, settled)
}

/// The marks of this block.
fn marks<'a>(rt: &impl Abort, net: &'a Net<Steps>, block: usize) -> &'a [Mark] {
    assert!(rt; block < net.plan().block_count());
    net.journal(block)
}

/// How many messages these marks tell of that crossed this link.
fn crossed(marks: &[Mark], link: LinkId) -> usize {
    let mut count = 0usize;
    for mark in marks {
        let is_told = match mark {
            Mark::Took(_, over, _) | Mark::Gave(over, _) => *over == link,
            Mark::Complete(_) | Mark::Fault(_) | Mark::Done => false,
        };
        if is_told {
            count = count.saturating_add(1);
        }
    }
    count
}

/// Asserts that each message that was given over a link was taken, but for one that is under way there.
fn none_is_lost(rt: &impl Abort, net: &Net<Steps>) {
    for (from, link, into) in LINKS {
        let given = crossed(marks(rt, net, *from), *link);
        let taken = crossed(marks(rt, net, *into), *link);
        assert!(rt; *link < net.plan().link_count());
        let under_way = match net.phase(*link) {
            Phase::Given(_) | Phase::Opened(_) => 1,
            Phase::Idle
            | Phase::Posted(_)
            | Phase::Offered(_)
            | Phase::Postponed(_)
            | Phase::Wanted(_)
            | Phase::Asked(_)
            | Phase::Held(_)
            | Phase::Refused
            | Phase::Ended(_) => 0,
        };
        assert!(rt; given.checked_sub(taken) == Some(under_way));
    }
}

/// Asserts that no block has more to give, gave more or recorded more than it took.
fn none_is_doubled(rt: &impl Abort, net: &Net<Steps>) {
    for (block, from, onto) in WAYS {
        assert!(rt; *block < net.plan().block_count());
        let marks = net.journal(*block);
        let (left, more) = net.left(*block);
        let made = crossed(marks, *onto)
            .saturating_add(left.len())
            .saturating_add(more.len())
            .saturating_add(net.record(*block).len());
        assert!(rt; made <= crossed(marks, *from));
    }
}

/// Asserts that the run goes on to its end where its first piece has so many events, and each further piece has one more. Tells whether
/// the first is the whole run.
fn ends_in_pieces<R: Abort + Threads + Wait + Clock + Sync>(
    rt: &R,
    alloc: Global,
    case: &Case,
    workers: usize,
    first: u64,
) -> bool
    requires workers { workers ≤ 64 }
{
    let mut net = network_of(rt, alloc, case);
    for piece in 0..ENOUGH {
        let kept = journals(rt, alloc, &net);
        let limit = first.saturating_add(piece.min(1));
        let (next, settled) = run_on(rt, alloc, net, workers, limit);
        go_on(rt, alloc, &next, &kept);
        none_is_lost(rt, &next);
        none_is_doubled(rt, &next);
        net = next;
        if settled == Settled::Quiet {
            has_ended(rt, alloc, &net, case);
            return piece == 0;
        }
    }
    panic!(rt; "it goes on for ever")
}

/// Asserts so of each first piece, from one without events to the whole run.
fn ends_in_any_pieces<R: Abort + Threads + Wait + Clock + Sync>(
    rt: &R,
    alloc: Global,
    case: &Case,
    workers: usize,
)
    requires workers { workers ≤ 64 }
{
    for first in 0..ENOUGH {
        if ends_in_pieces(rt, alloc, case, workers, first) {
            return;
        }
    }
    panic!(rt; "no piece is the whole run")
}

#[test]
fn a_run_that_faults_goes_on_from_each_event(rt: HostRuntime) {
    let alloc = rt.alloc();
    let case = named(&rt, FAULTS, "fault at each event");
    ends_in_any_pieces(&rt, alloc, &case, 0);
    ends_in_any_pieces(&rt, alloc, &case, 1);
    ends_in_any_pieces(&rt, alloc, &case, 2);
    ends_in_any_pieces(&rt, alloc, &case, 8);
}
