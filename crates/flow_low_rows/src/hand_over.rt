//! A sender and a receiver in two threads, over one link.
ghost use Rattle.std.specs.Prelude.{◌≡◌, IfOk};
ghost use Rattle.flow_wire.specs.Ends.{Start, starts_out, starts_in};
ghost use Rattle.flow_low_rows.specs.Trials.{start_of};

use crate::receiver::Receiver;
use crate::sender::Sender;
use flow_link::{LinkEnd, LinkState, Phase};
use flow_wire::{SourceEnd, TargetEnd, Wire};
use std::alloc::Global;
use std::thread::{Threads, join_mut, yield_now};

/// How many numbers go over a link.
const COUNT: u64 = 60;

/// How many runs there are, each with a seed of its own; the target reserves in every other.
const SEEDS: u64 = 50;

/// How many turns an end takes before it yields. On free cores it seldom yields; on a busy one the other thread comes soon.
const TURNS_IN_ONE_GO: u64 = 1_000;

/// More turns than an end needs, also where the other thread waits long for a processor.
const TURNS: u64 = 2_000_000_000;

// the sender's turns, until it is done or has had them all
fn send(alloc: Global, wire: &Wire, sender: &mut Sender)
    requires { sender.old.end.table ≡ wire.now }
    ensures { sender.new.end.table ≡ sender.old.end.table }
{
    for turn in 0..TURNS {
        if sender.is_done() || sender.turn(alloc, wire).is_err() {
            return;
        }
        if turn % TURNS_IN_ONE_GO == 0 {
            yield_now();
        }
    }
}

fn receive(wire: &Wire, receiver: &mut Receiver)
    requires { receiver.old.end.table ≡ wire.now }
    ensures { receiver.new.end.table ≡ receiver.old.end.table }
{
    for turn in 0..TURNS {
        if receiver.is_done() {
            return;
        }
        receiver.turn(wire);
        if turn % TURNS_IN_ONE_GO == 0 {
            yield_now();
        }
    }
}

// a link with nothing under way. The ends know what `start` says, which names the argument that nothing else reads
fn link_that_starts(
    alloc: Global,
    reserves: bool,
) -> Result<(Wire, SourceEnd, TargetEnd), LinkState>
    ghost start: { Start }
    requires { start ≡ start_of reserves }
    ensures { IfOk result (λ made. (made.1 ≡ record { table = made.0; side = starts_out start }) × (made.2 ≡ record { table = made.0; side = starts_in start })) }
{
    let _ = reserves;
    Wire::new(
        alloc,
        LinkState {
            phase: Phase::Idle,
            slot: None,
        },
    )
}

pub(crate) fn new_link(
    alloc: Global,
    reserves: bool,
) -> Result<(Wire, SourceEnd, TargetEnd), LinkState>
    ensures { IfOk result (λ made. (made.1 ≡ record { table = made.0; side = starts_out (start_of reserves) }) × (made.2 ≡ record { table = made.0; side = starts_in (start_of reserves) })) }
{
    link_that_starts(alloc, reserves)
}

// whether all numbers crossed in order, and the link ended with nothing left in it
fn crosses(rt: &(impl Threads + Sync), alloc: Global, reserves: bool, seed: u64) -> bool {
    let Ok((wire, source, target)) = new_link(alloc, reserves) else {
        return false
    };
    let mut sender = Sender::new(source, COUNT, seed);
    let mut receiver = Receiver::new(target, reserves, seed ^ COUNT);
    let shared = &wire;
    let sending = &mut sender;
    let receiving = &mut receiver;
    join_mut(
        rt,
        &mut ||
            requires { sending.now.end.table ≡ shared.now }
            ensures { sending.exit.now.end.table ≡ sending.entry.now.end.table }
        { send(alloc, shared, sending) },
        &mut ||
            requires { receiving.now.end.table ≡ shared.now }
            ensures { receiving.exit.now.end.table ≡ receiving.entry.now.end.table }
        { receive(shared, receiving) },
    );
    let all = sender.is_done() && receiver.is_done() && receiver.took_all(COUNT);
    let last = wire.close(sender.into_end(), receiver.into_end());
    all && last.phase == Phase::Ended(LinkEnd::Complete) && last.slot.is_none()
}

#[test]
fn numbers_cross_once_and_in_order(rt: HostRuntime) {
    for seed in 0..SEEDS {
        let holds = crosses(&rt, rt.alloc(), seed % 2 == 1, seed);
        assert!(rt; holds, "seed {seed}");
    }
}
