//! A move of one end of a link, with all that stands ready for it.
ghost use Rattle.std.specs.Prelude.{◌≡◌, ◌<◌, None, true, OnOk, OnErr, IfOk, Some};
ghost use Rattle.flow_link.specs.Plan.{is_one_taker};
ghost use Rattle.flow_input.specs.Input.{next_value};
ghost use Rattle.flow_block_law.specs.NextMoves.{next_source};
ghost use Rattle.flow_block.specs.Node.{given_next};
ghost use Rattle.flow_exit.specs.Exit.{exit_after, exit_call};
ghost use Rattle.flow_core.specs.Events.{out_call, copy_call, source_call, source_look, in_call, input_call, input_after};
ghost use Rattle.flow_outlet.specs.Outlet.{head_of};
ghost use Rattle.flow_moves.specs.Calls.{Calls, answers_first, handed, left_in_slot};
ghost use Rattle.flow_moves.specs.Ready.{OutIsReady, CopyIsReady, ExitIsReady, ExitEndIsReady, InIsReady, InputIsReady, exit_count};

use flow_block::{Block, Node};
use flow_exit::ExitEnd;
use flow_input::Input;
use flow_link::{Move, Phase, PortId};
use flow_value::Parcel;
use std::alloc::{AllocError, Global};

/// Whether a block shares its messages out over its links; if not, it gives each of them copies.
pub fn shares_out(block: &Block) -> bool
    ensures { result ≡ is_one_taker block.now.kind }
{
    block.kind().unit().shares()
}

/// What a block's end of a link out of it would do next.
#[inline(always)]
pub fn next_of_exit(node: &Node, place: usize) -> Option<Move>
    requires { place < exit_count node.now }
    ensures { result ≡ next_source place node.now }
{
    if shares_out(node.block()) {
        node.block().next_out(place)
    } else {
        node.block().next_copy(place)
    }
}

/// A block's end of a link out of it looks at the link's phase.
pub fn look_exit(node: &mut Node, place: usize, phase: Phase)
    requires { place < exit_count node.old }
    ensures { Calls (Some (source_look node.old.block.kind place phase)) node.old node.new }
{
    if shares_out(node.block()) {
        node.look_out(place, phase);
    } else {
        node.look_copy(place, phase);
    }
}

/// A block's end of a link out of it makes its move, whether the block shares its messages out or copies them: the
/// parcel that it hands over, if it does. Where memory is out, nothing has changed.
pub fn move_exit(
    node: &mut Node,
    alloc: Global,
    place: usize,
    next: Move,
) -> Result<Option<Parcel>, AllocError>
    requires { ExitIsReady place next node.old }
    ensures done { OnOk result (Calls (source_call node.old.block.kind place next) node.old node.new) }
    ensures given { IfOk result (λ given. given ≡ handed next (given_next node.old)) }
    ensures kept { OnErr result (node.new ≡ node.old) }
{
    if shares_out(node.block()) {
        move_out(node, alloc, place, next)
    } else {
        move_copy(node, alloc, place, next)
    }
}

/// The end of a link out of a block that shares its messages out makes its move: the parcel that it hands over, if it
/// does. Where memory is out, nothing has changed.
fn move_out(
    node: &mut Node,
    alloc: Global,
    place: usize,
    next: Move,
) -> Result<Option<Parcel>, AllocError>
    requires { OutIsReady place next node.old }
    ensures done { OnOk result (Calls (out_call place next) node.old node.new) }
    ensures given { IfOk result (λ given. given ≡ handed next (head_of node.old.block.exits)) }
    ensures kept { OnErr result (node.new ≡ node.old) }
{
    match next {
        Move::Offer(_) => {
            node.prepare_offer(alloc)?;
            node.offer(place);
        }
        Move::Give => return Ok(Some(node.give(place))),
        Move::Hold => node.hold(place),
        Move::Deny => node.deny(place),
        Move::Withdraw => node.withdraw(place),
        Move::End(how) => node.end(place, how),
        _ => {}
    }
    Ok(None)
}

/// The end of a link over which copies go makes its move: the parcel that it hands over, if it does. Where memory is out,
/// nothing has changed.
fn move_copy(
    node: &mut Node,
    alloc: Global,
    place: usize,
    next: Move,
) -> Result<Option<Parcel>, AllocError>
    requires { CopyIsReady place next node.old.block.copies }
    ensures done { OnOk result (Calls (copy_call place next) node.old node.new) }
    ensures given { IfOk result (λ given. given ≡ handed next node.old.block.copies.element) }
    ensures kept { OnErr result (node.new ≡ node.old) }
{
    match next {
        Move::Offer(_) => {
            node.offer_copy(alloc, place)?;
        }
        Move::Give => return Ok(Some(node.give_copy(place))),
        Move::Hold => node.hold_copy(place),
        Move::Withdraw => node.withdraw_copy(place),
        Move::End(how) => node.end_copy(place, how),
        _ => {}
    }
    Ok(None)
}

/// An input's end of its link makes its move: the parcel that it hands over, if it does. Where memory is out, nothing
/// has changed.
pub fn move_input(
    input: &mut Input,
    alloc: Global,
    next: Move,
) -> Result<Option<Parcel>, AllocError>
    requires { InputIsReady next input.old }
    ensures done { OnOk result (input.new ≡ input_after (input_call next) input.old) }
    ensures given { IfOk result (λ given. given ≡ handed next (next_value input.old)) }
    ensures kept { OnErr result (input.new ≡ input.old) }
{
    match next {
        Move::Offer(_) => {
            input.prepare(alloc)?;
            input.offer();
        }
        Move::Give => return Ok(Some(input.give())),
        Move::End(how) => input.end(how),
        _ => {}
    }
    Ok(None)
}

/// The end of a link out of the network makes its move; it takes a message that lies in the slot.
pub(crate) fn move_exit_end(exit: &mut ExitEnd, slot: &mut Option<Parcel>, next: Move)
    requires { ExitEndIsReady slot.old next exit.old }
    ensures done { exit.new ≡ exit_after (exit_call slot.old next) exit.old }
    ensures slot { slot.new ≡ left_in_slot next slot.old }
{
    match next {
        Move::Want => exit.want(),
        Move::TurnDown => exit.turn_down(),
        Move::Postpone => exit.postpone(),
        Move::Consume => exit.consume(),
        Move::Open => {
            if let Some(parcel) = slot.take() {
                exit.open(parcel);
            }
        }
        Move::Close => exit.close(),
        _ => {}
    }
}

/// A block's end of a link into it makes its move; it takes a message that lies in the slot. Only the first answer to an offer
/// takes memory; where it is out, nothing has changed.
pub fn move_in(
    node: &mut Node,
    port: PortId,
    place: usize,
    slot: &mut Option<Parcel>,
    next: Move,
) -> Result<(), AllocError>
    requires { InIsReady port place slot.old next node.old }
    ensures done { OnOk result (Calls (in_call port place slot.old next) node.old node.new) }
    ensures slot { OnOk result (slot.new ≡ left_in_slot next slot.old) }
    ensures memory { OnErr result (answers_first next ≡ true) }
    ensures kept { OnErr result (node.new ≡ node.old) }
    ensures slot_kept { OnErr result (slot.new ≡ slot.old) }
{
    match next {
        Move::Want => {
            node.prepare_answer(port)?;
            node.want(port, place);
        }
        Move::Postpone => {
            node.prepare_answer(port)?;
            node.postpone(port, place);
        }
        Move::TurnDown => node.turn_down(port, place),
        Move::Refuse => node.refuse(port, place),
        Move::Consume => node.consume(port, place),
        Move::Ask => node.ask(port, place),
        Move::Claim => node.claim(port, place),
        Move::Release => node.release(port, place),
        Move::Open => {
            if let Some(parcel) = slot.take() {
                node.open(port, place, parcel);
            }
        }
        Move::Close => node.close(port, place),
        _ => {}
    }
    Ok(())
}
