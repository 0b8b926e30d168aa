//! The source's side of a link, which looks for each answer.
ghost use Rattle.std.specs.Prelude.{◌≡◌, ◌<◌, None, true};
ghost use Rattle.flow_link.specs.Views.{SourceStage};
ghost use Rattle.flow_wire.specs.Ends.{starts_out};
ghost use Rattle.examples.specs.Links.{fresh};

use crate::bench::message::message;
use crate::bench::pause::{LOOKS, pause};
use flow_link::Phase;
use flow_value::{MessageHeader, Parcel};
use flow_wire::{SourceEnd, Wire};
use std::alloc::{AllocError, Global};

/// Gives so many messages, or fewer where the target does not answer.
pub(crate) fn give_all(
    alloc: Global,
    wire: &Wire,
    mut end: SourceEnd,
    count: u32,
) -> Result<(), AllocError>
    requires { end ≡ record { table = wire.now; side = starts_out fresh } }
{
    for number in 0..count {
        let Some(header) = MessageHeader::new(u64::from(number) + 1) else {
            break;
        };
        let parcel = message(alloc, number)?;
        if !give(wire, &mut end, header, parcel) {
            break;
        }
    }
    Ok(())
}

// gives one message; false where the target does not answer
fn give(wire: &Wire, end: &mut SourceEnd, header: MessageHeader, parcel: Parcel) -> bool
    requires table { end.old.table ≡ wire.now }
    requires free { end.old.side.view.stage ≡ SourceStage.free }
    requires no_limit { end.old.side.facts.max ≡ None }
    requires rises { end.old.side.view.last < header }
    ensures table { end.new.table ≡ end.old.table }
    ensures facts { end.new.side.facts ≡ end.old.side.facts }
    ensures free { result ≡ true → end.new.side.view.stage ≡ SourceStage.free }
    ensures last { result ≡ true → end.new.side.view.last ≡ header }
{
    end.offer(wire, header);
    if !is_wanted(wire, end, header) {
        return false;
    }
    end.take_slot(wire);
    end.give(wire, header, parcel);
    is_taken(wire, end)
}

// whether the target comes to want the message
fn is_wanted(wire: &Wire, end: &mut SourceEnd, header: MessageHeader) -> bool
    requires table { end.old.table ≡ wire.now }
    requires out { end.old.side.view.stage ≡ SourceStage.out header }
    ensures table { end.new.table ≡ end.old.table }
    ensures facts { end.new.side.facts ≡ end.old.side.facts }
    ensures wanted { result ≡ true → end.new.side.view.stage ≡ SourceStage.accepted header }
{
    header.id();
    for look in 0..LOOKS {
        let phase = end.look(wire);
        if let Phase::Wanted(_) = phase {
            return true;
        }
        let Phase::Offered(_) = phase else {
            return false;
        };
        pause(look);
    }
    false
}

// whether the target comes to have taken the message
fn is_taken(wire: &Wire, end: &mut SourceEnd) -> bool
    requires table { end.old.table ≡ wire.now }
    requires crossing { end.old.side.view.stage ≡ SourceStage.crossing }
    ensures table { end.new.table ≡ end.old.table }
    ensures facts { end.new.side.facts ≡ end.old.side.facts }
    ensures last { end.new.side.view.last ≡ end.old.side.view.last }
    ensures free { result ≡ true → end.new.side.view.stage ≡ SourceStage.free }
{
    for look in 0..LOOKS {
        if let Phase::Idle = end.look(wire) {
            return true;
        }
        pause(look);
    }
    false
}
