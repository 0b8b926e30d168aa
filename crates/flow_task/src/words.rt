//! What the move of an end does to the wire of its link, and to the end.
ghost use Rattle.std.specs.Prelude.{◌≡◌, true, false, is_some, None, Some};
ghost use Rattle.flow_outlet.specs.End.{id_of};
ghost use Rattle.flow_task.specs.Known.{out_known, in_known};
ghost use Rattle.flow_link.specs.Moves.{posting, withdrawing};
ghost use Rattle.flow_core.specs.MovesFit.{has_arrived};
ghost use Rattle.flow_task.specs.Misses.{HasMissedIn, HasMissedOut};
ghost use Rattle.flow_task.specs.Words.{MayMoveOut, MayOffer, MayWithdraw, MayMoveIn, Stands, moved_out, moved_in, opened_so, header_of};
ghost use Rattle.flow_task.specs.Words.{is_withdrawal, is_late, may_be_forestalled, opens};

use flow_link::{Move, Refusal, SourceStage, TargetStage};
use flow_value::{MessageHeader, Parcel};
use flow_wire::{SourceEnd, TargetEnd, Wire};

/// The header of the message of which a source's stage speaks, if it speaks of one.
pub(crate) fn header_out(stage: SourceStage) -> Option<MessageHeader>
    ensures { result ≡ id_of stage }
{
    match stage {
        SourceStage::Posted(header)
        | SourceStage::Out(header)
        | SourceStage::Waiting(header)
        | SourceStage::Accepted(header)
        | SourceStage::Wished(header)
        | SourceStage::AskedBy(header)
        | SourceStage::Reserved(header)
        | SourceStage::Claimed(header) => Some(header),
        SourceStage::Free | SourceStage::Crossing | SourceStage::Refused | SourceStage::Ended(_) =>
            None,
    }
}

/// The header of the message of which a target's stage speaks, if it speaks of one.
pub(crate) fn header_in(stage: TargetStage) -> Option<MessageHeader>
    ensures { result ≡ header_of stage }
{
    match stage {
        TargetStage::Offered(header)
        | TargetStage::Posted(header)
        | TargetStage::Postponed(header)
        | TargetStage::Accepted(header)
        | TargetStage::Consuming(header)
        | TargetStage::Asking(header)
        | TargetStage::Holding(header)
        | TargetStage::Claiming(header)
        | TargetStage::Arrived(header)
        | TargetStage::Hand(header) => Some(header),
        TargetStage::Free | TargetStage::Refused(_) | TargetStage::Ended(_) => None,
    }
}

/// Whether the source may forestall a move that a target makes at this stage: the message was postponed.
pub(crate) fn may_be_forestalled(next: Move, stage: TargetStage) -> bool
    ensures { result ≡ may_be_forestalled next stage }
{
    match next {
        Move::Consume | Move::Ask => true,
        Move::Refuse => matches!(stage, TargetStage::Postponed(_)),
        Move::Offer(_)
        | Move::Post(_)
        | Move::Withdraw
        | Move::Deny
        | Move::Hold
        | Move::Give
        | Move::End(_)
        | Move::Want
        | Move::TurnDown
        | Move::Postpone
        | Move::Claim
        | Move::Release
        | Move::Open
        | Move::Close => false,
    }
}

/// The source's end of a link makes a move that the target cannot forestall: any but a withdrawal. The header is that of the message
/// of which its stage speaks, and the parcel what it gives, if it gives.
pub(crate) fn write_source(
    end: &mut SourceEnd,
    wire: &Wire,
    next: Move,
    header: Option<MessageHeader>,
    given: Option<Parcel>,
)
    requires table { end.old.table ≡ wire.now }
    requires own { is_withdrawal next ≡ false }
    requires may { MayMoveOut next header given end.old.side.facts end.old.side.view }
    ensures { out_known end.new ≡ record (out_known end.old) { view = moved_out next given end.old.side.view } }
{
    match next {
        Move::Offer(header) => end.offer(wire, header),
        Move::Give => {
            let Some(header) = header else { unreachable!() };
            let Some(parcel) = given else { unreachable!() };
            end.take_slot(wire);
            end.give(wire, header, parcel);
        }
        Move::Hold => {
            let Some(header) = header else { unreachable!() };
            end.hold(wire, header);
        }
        Move::Deny => end.deny(wire),
        Move::End(how) => end.end(wire, how),
        Move::Post(_)
        | Move::Withdraw
        | Move::Want
        | Move::TurnDown
        | Move::Refuse
        | Move::Postpone
        | Move::Consume
        | Move::Ask
        | Move::Claim
        | Move::Release
        | Move::Open
        | Move::Close => unreachable!(),
    }
}

/// The source's end of a link posts a message, which the target takes now or not at all.
pub(crate) fn post(end: &mut SourceEnd, wire: &Wire, header: MessageHeader)
    requires table { end.old.table ≡ wire.now }
    requires may { MayOffer end.old.side.facts header end.old.side.view }
    ensures { out_known end.new ≡ record (out_known end.old) { view = posting header end.old.side.view } }
{
    end.post(wire, header);
}

/// The source's end of a link takes back the offer of this header, which it has seen postponed. False where the target moved first:
/// then the end knows what it knew.
pub(crate) fn withdraw(end: &mut SourceEnd, wire: &Wire, header: Option<MessageHeader>) -> bool
    requires table { end.old.table ≡ wire.now }
    requires may { MayWithdraw header end.old.side.view }
    ensures done { result ≡ true → out_known end.new ≡ record (out_known end.old) { view = withdrawing end.old.side.view } }
    ensures not_done { result ≡ false → out_known end.new ≡ out_known end.old }
    ensures missed { result ≡ false → HasMissedOut end.new }
{
    let Some(header) = header else { unreachable!() };
    end.withdraw(wire, header)
}

/// The target's end of a link makes a move that the source cannot forestall, and that takes nothing out of the slot.
pub(crate) fn write_target(
    end: &mut TargetEnd,
    wire: &Wire,
    next: Move,
    header: Option<MessageHeader>,
    why: Refusal,
)
    requires table { end.old.table ≡ wire.now }
    requires own { is_late next end.old.side.view.stage ≡ false }
    requires kept { opens next ≡ false }
    requires may { MayMoveIn next header (Some why) end.old.side.facts end.old.side.view }
    ensures { in_known end.new ≡ record (in_known end.old) { view = moved_in next (Some why) None end.old.side.view } }
{
    match next {
        Move::Want => {
            let Some(header) = header else { unreachable!() };
            end.want(wire, header);
        }
        Move::TurnDown => end.turn_down(wire),
        Move::Postpone => {
            let Some(header) = header else { unreachable!() };
            end.postpone(wire, header);
        }
        Move::Refuse => end.refuse(wire, why),
        Move::Claim => {
            let Some(header) = header else { unreachable!() };
            end.claim(wire, header);
        }
        Move::Release => {
            let Some(header) = header else { unreachable!() };
            end.release(wire, header);
        }
        Move::Close => end.close(wire),
        Move::Offer(_)
        | Move::Post(_)
        | Move::Withdraw
        | Move::Deny
        | Move::Hold
        | Move::Give
        | Move::End(_)
        | Move::Consume
        | Move::Ask
        | Move::Open => unreachable!(),
    }
}

/// The target's end of a link goes on from an offer that it postponed. False where the source moved first: then the end knows what
/// it knew.
pub(crate) fn take_up(
    end: &mut TargetEnd,
    wire: &Wire,
    next: Move,
    header: Option<MessageHeader>,
    why: Refusal,
) -> bool
    requires table { end.old.table ≡ wire.now }
    requires late { is_late next end.old.side.view.stage ≡ true }
    requires may { MayMoveIn next header (Some why) end.old.side.facts end.old.side.view }
    ensures done { result ≡ true → in_known end.new ≡
        record (in_known end.old) { view = moved_in next (Some why) None end.old.side.view } }
    ensures not_done { result ≡ false → in_known end.new ≡ in_known end.old }
    ensures missed { result ≡ false → HasMissedIn end.new }
{
    let Some(header) = header else { unreachable!() };
    match next {
        Move::Consume => end.consume(wire, header),
        Move::Ask => end.ask(wire, header),
        Move::Refuse => end.refuse_postponed(wire, header, why),
        Move::Offer(_)
        | Move::Post(_)
        | Move::Withdraw
        | Move::Deny
        | Move::Hold
        | Move::Give
        | Move::End(_)
        | Move::Want
        | Move::TurnDown
        | Move::Postpone
        | Move::Claim
        | Move::Release
        | Move::Open
        | Move::Close => unreachable!(),
    }
}

/// The target's end of a link takes the message out of the slot: this is its parcel.
pub(crate) fn open(end: &mut TargetEnd, wire: &Wire, header: Option<MessageHeader>) -> Parcel
    requires table { end.old.table ≡ wire.now }
    requires may { Stands (has_arrived end.old.side.view.stage) header end.old.side.view }
    ensures { in_known end.new ≡ record (in_known end.old) { view = opened_so (Some result) end.old.side.view } }
{
    let Some(header) = header else { unreachable!() };
    end.open(wire, header)
}
