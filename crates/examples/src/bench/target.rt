//! The target's side of a link, which looks for each message.
ghost use Rattle.std.specs.Prelude.{◌≡◌, false, true, IfSome};
ghost use Rattle.flow_link.specs.Views.{TargetStage};
ghost use Rattle.flow_wire.specs.Ends.{starts_in};
ghost use Rattle.examples.specs.Links.{fresh};

use crate::bench::message::is_message;
use crate::bench::pause::{LOOKS, pause};
use flow_link::Phase;
use flow_value::{MessageHeader, Parcel};
use flow_wire::{TargetEnd, Wire};

/// Takes so many messages, or fewer where the source does not give them: how many came in their turn.
pub(crate) fn take_all(wire: &Wire, mut end: TargetEnd, count: u32) -> u64
    requires { end ≡ record { table = wire.now; side = starts_in fresh } }
{
    let mut in_turn = 0u64;
    for number in 0..count {
        let Some(parcel) = take(wire, &mut end) else {
            break;
        };
        if is_message(parcel, number) {
            in_turn = in_turn.saturating_add(1);
        }
    }
    in_turn
}

// takes the next message, unless the source does not give it
fn take(wire: &Wire, end: &mut TargetEnd) -> Option<Parcel>
    requires table { end.old.table ≡ wire.now }
    requires free { end.old.side.view.stage ≡ TargetStage.free }
    requires takes { end.old.side.facts.reserving ≡ false }
    ensures table { end.new.table ≡ end.old.table }
    ensures facts { end.new.side.facts ≡ end.old.side.facts }
    ensures free { IfSome result (λ _. end.new.side.view.stage ≡ TargetStage.free) }
{
    let header = offered(wire, end)?;
    end.want(wire, header);
    if !is_given(wire, end, header) {
        return None;
    }
    let parcel = end.open(wire, header);
    end.close(wire);
    Some(parcel)
}

// the message that the source comes to offer
fn offered(wire: &Wire, end: &mut TargetEnd) -> Option<MessageHeader>
    requires table { end.old.table ≡ wire.now }
    requires free { end.old.side.view.stage ≡ TargetStage.free }
    ensures table { end.new.table ≡ end.old.table }
    ensures facts { end.new.side.facts ≡ end.old.side.facts }
    ensures offered { IfSome result (λ header. end.new.side.view.stage ≡ TargetStage.offered header) }
{
    for look in 0..LOOKS {
        let phase = end.look(wire);
        if let Phase::Offered(header) = phase {
            return Some(header);
        }
        let Phase::Idle = phase else {
            return None;
        };
        pause(look);
    }
    None
}

// whether the source comes to have given the message
fn is_given(wire: &Wire, end: &mut TargetEnd, header: MessageHeader) -> bool
    requires table { end.old.table ≡ wire.now }
    requires accepted { end.old.side.view.stage ≡ TargetStage.accepted header }
    ensures table { end.new.table ≡ end.old.table }
    ensures facts { end.new.side.facts ≡ end.old.side.facts }
    ensures arrived { result ≡ true → end.new.side.view.stage ≡ TargetStage.arrived header }
{
    header.id();
    for look in 0..LOOKS {
        let phase = end.look(wire);
        if let Phase::Given(_) = phase {
            return true;
        }
        let Phase::Wanted(_) = phase else {
            return false;
        };
        pause(look);
    }
    false
}
