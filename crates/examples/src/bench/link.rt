//! Messages over a link.
ghost use Rattle.std.specs.Prelude.{◌≡◌, ◌<◌, None, false, IfOk, IfSome};
ghost use Rattle.flow_link.specs.Views.{SourceStage, TargetStage};
ghost use Rattle.flow_wire.specs.Ends.{starts_out, starts_in};
ghost use Rattle.examples.specs.Links.{fresh};

use crate::bench::message::{is_message, message};
use crate::bench::source::give_all;
use crate::bench::target::take_all;
use flow_link::{LinkState, Phase};
use flow_value::{MessageHeader, Parcel};
use flow_wire::{SourceEnd, TargetEnd, Wire};
use std::alloc::{AllocError, Global};
use std::thread::{Threads, join};

// a link over which nothing has gone
fn new_link(alloc: Global) -> Result<(Wire, SourceEnd, TargetEnd), AllocError>
    ensures { IfOk result (λ made. (made.1 ≡ record { table = made.0; side = starts_out fresh }) × (made.2 ≡ record { table = made.0; side = starts_in fresh })) }
{
    let idle = LinkState {
        phase: Phase::Idle,
        slot: None,
    };
    match Wire::new(alloc, idle) {
        Ok(made) => Ok(made),
        Err(_) => Err(AllocError),
    }
}

/// Gives each message and takes it, by one thread: how many came in their turn.
pub(crate) fn by_one_thread(alloc: Global, count: u32) -> Result<u64, AllocError> {
    let (wire, source, target) = new_link(alloc)?;
    pass_all(alloc, &wire, source, target, count)
}

fn pass_all(
    alloc: Global,
    wire: &Wire,
    mut source: SourceEnd,
    mut target: TargetEnd,
    count: u32,
) -> Result<u64, AllocError>
    requires source { source ≡ record { table = wire.now; side = starts_out fresh } }
    requires target { target ≡ record { table = wire.now; side = starts_in fresh } }
{
    let mut in_turn = 0u64;
    for number in 0..count {
        let Some(header) = MessageHeader::new(u64::from(number) + 1) else {
            return Ok(in_turn);
        };
        let parcel = message(alloc, number)?;
        let Some(taken) = pass(wire, &mut source, &mut target, header, parcel) else {
            return Ok(in_turn);
        };
        if is_message(taken, number) {
            in_turn = in_turn.saturating_add(1);
        }
    }
    Ok(in_turn)
}

// one message goes over the link: each end moves as soon as the other has
fn pass(
    wire: &Wire,
    source: &mut SourceEnd,
    target: &mut TargetEnd,
    header: MessageHeader,
    parcel: Parcel,
) -> Option<Parcel>
    requires source { source.old.table ≡ wire.now }
    requires target { target.old.table ≡ wire.now }
    requires free { source.old.side.view.stage ≡ SourceStage.free }
    requires idle { target.old.side.view.stage ≡ TargetStage.free }
    requires no_limit { source.old.side.facts.max ≡ None }
    requires takes { target.old.side.facts.reserving ≡ false }
    requires rises { source.old.side.view.last < header }
    ensures source { source.new.table ≡ source.old.table }
    ensures target { target.new.table ≡ target.old.table }
    ensures no_limit { source.new.side.facts ≡ source.old.side.facts }
    ensures takes { target.new.side.facts ≡ target.old.side.facts }
    ensures free { IfSome result (λ _. source.new.side.view.stage ≡ SourceStage.free) }
    ensures idle { IfSome result (λ _. target.new.side.view.stage ≡ TargetStage.free) }
    ensures last { IfSome result (λ _. source.new.side.view.last ≡ header) }
{
    source.offer(wire, header);
    let Phase::Offered(seen) = target.look(wire) else {
        return None;
    };
    target.want(wire, seen);
    let Phase::Wanted(_) = source.look(wire) else {
        return None;
    };
    source.take_slot(wire);
    source.give(wire, header, parcel);
    let Phase::Given(_) = target.look(wire) else {
        return None;
    };
    let taken = target.open(wire, seen);
    target.close(wire);
    let Phase::Idle = source.look(wire) else {
        return None;
    };
    Some(taken)
}

/// Gives the messages by one thread and takes them by another: how many came in their turn.
pub(crate) fn by_two_threads<R: Threads + Sync>(
    rt: &R,
    alloc: Global,
    count: u32,
) -> Result<u64, AllocError> {
    let (wire, source, target) = new_link(alloc)?;
    hand_over(rt, alloc, &wire, source, target, count)
}

/// Hands messages on over two links that are neighbours in memory, by a pair of threads each: how many came in their turn.
pub(crate) fn by_two_pairs<R: Threads + Sync>(
    rt: &R,
    alloc: Global,
    count: u32,
) -> Result<u64, AllocError> {
    // This one takes the memory that earlier cases gave back, so that the others lie side by side.
    let _filler = new_link(alloc)?;
    let (first_wire, first_source, first_target) = new_link(alloc)?;
    let (second_wire, second_source, second_target) = new_link(alloc)?;
    let (first, second) = (&first_wire, &second_wire);
    let (one, other) = join(
        rt,
        move ||
            requires source { first_source ≡ record { table = first.now; side = starts_out fresh } }
            requires target { first_target ≡ record { table = first.now; side = starts_in fresh } }
        { hand_over(rt, alloc, first, first_source, first_target, count) },
        move ||
            requires source { second_source ≡ record { table = second.now; side = starts_out fresh } }
            requires target { second_target ≡ record { table = second.now; side = starts_in fresh } }
        { hand_over(rt, alloc, second, second_source, second_target, count) },
    );
    Ok(one?.saturating_add(other?))
}

fn hand_over<R: Threads + Sync>(
    rt: &R,
    alloc: Global,
    wire: &Wire,
    source: SourceEnd,
    target: TargetEnd,
    count: u32,
) -> Result<u64, AllocError>
    requires source { source ≡ record { table = wire.now; side = starts_out fresh } }
    requires target { target ≡ record { table = wire.now; side = starts_in fresh } }
{
    let (given, in_turn) = join(
        rt,
        move ||
            requires { source ≡ record { table = wire.now; side = starts_out fresh } }
        { give_all(alloc, wire, source, count) },
        move ||
            requires { target ≡ record { table = wire.now; side = starts_in fresh } }
        { take_all(wire, target, count) },
    );
    given?;
    Ok(in_turn)
}
