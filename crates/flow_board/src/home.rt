//! A network before it is scattered: what was given over a link is taken.
ghost use Rattle.std.specs.Prelude.{◌≡◌, ℕ, ◌<◌, false, length, Some, OnOk};
ghost use Rattle.flow_link.specs.Phase.{phase_after};
ghost use Rattle.flow_wire.specs.Ends.{is_crossing};
ghost use Rattle.flow_core.specs.Inputs.{InputsStay};
ghost use Rattle.flow_core.specs.State.{line_at};
ghost use Rattle.flow_net.specs.Net.{layout_in, parts_of};
ghost use Rattle.flow_board.specs.Home.{HasComeHome, next_home};

use flow_link::{LinkId, Move, Phase};
use flow_net::{Event, Net, NetFault};
use flow_value::Runs;
use std::alloc::{AllocError, Global};

/// Opens and closes what is under way over each link: a message that was given is taken. Where memory is out, what is done stays.
pub(crate) fn bring_home<W: Runs>(alloc: Global, net: &mut Net<W>) -> Result<(), AllocError>
    ensures same_layout { layout_in net.new ≡ layout_in net.old }
    ensures home { OnOk result ((l : ℕ) → l < length (layout_in net.new).links →
        is_crossing (line_at (parts_of net.new) l).phase ≡ false) }
    ensures inputs_stay { InputsStay (parts_of net.old) (parts_of net.new) }
    ensures goes_on { HasComeHome W.meaning (layout_in net.old) (parts_of net.old) (parts_of net.new) }
{
    for id in 0..net.plan().link_count() {
        bring_link_home(alloc, net, id)?;
    }
    Ok(())
}

/// The same for one link. The phases of the others stay.
fn bring_link_home<W: Runs>(alloc: Global, net: &mut Net<W>, id: LinkId) -> Result<(), AllocError>
    requires { id < length (layout_in net.old).links }
    ensures same_layout { layout_in net.new ≡ layout_in net.old }
    ensures home { OnOk result (is_crossing (line_at (parts_of net.new) id).phase ≡ false) }
    ensures others { (l : ℕ) → (l ≡ id → ⊥) → line_at (parts_of net.new) l ≡ line_at (parts_of net.old) l }
    ensures inputs_stay { InputsStay (parts_of net.old) (parts_of net.new) }
    ensures goes_on { HasComeHome W.meaning (layout_in net.old) (parts_of net.old) (parts_of net.new) }
{
    match net.phase(id) {
        Phase::Given(_) => {
            move_home(alloc, net, id, Move::Open)?;
            move_home(alloc, net, id, Move::Close)
        }
        Phase::Opened(_) => move_home(alloc, net, id, Move::Close),
        Phase::Idle
        | Phase::Posted(_)
        | Phase::Offered(_)
        | Phase::Postponed(_)
        | Phase::Wanted(_)
        | Phase::Asked(_)
        | Phase::Held(_)
        | Phase::Refused
        | Phase::Ended(_) => Ok(()),
    }
}

/// The target of a link makes its next move for a message that was given. The phases of the other links stay.
fn move_home<W: Runs>(
    alloc: Global,
    net: &mut Net<W>,
    id: LinkId,
    next: Move,
) -> Result<(), AllocError>
    requires there { id < length (layout_in net.old).links }
    requires next { next_home (line_at (parts_of net.old) id).phase ≡ Some next }
    ensures same_layout { layout_in net.new ≡ layout_in net.old }
    ensures moved { OnOk result (phase_after (line_at (parts_of net.old) id).phase next ≡
        Some (line_at (parts_of net.new) id).phase) }
    ensures others { (l : ℕ) → (l ≡ id → ⊥) → line_at (parts_of net.new) l ≡ line_at (parts_of net.old) l }
    ensures inputs_stay { InputsStay (parts_of net.old) (parts_of net.new) }
    ensures goes_on { HasComeHome W.meaning (layout_in net.old) (parts_of net.old) (parts_of net.new) }
{
    match net.event(alloc, Event::Link(id, next)) {
        Ok(_) => Ok(()),
        Err((_, fault)) => match fault {
            NetFault::Memory => Err(AllocError),
            NetFault::NotEnabled => unreachable!(),
            NetFault::Ids => unreachable!(),
        },
    }
}
