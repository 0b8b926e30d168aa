//! A block's end of a link out of it, where a message goes over the link in one call.
//!
//! A block that shares its messages out sends its head. One that copies offers its element first, and goes on from there.
ghost use Rattle.std.specs.Prelude.{◌≡◌, ◌<◌, true, Some, OnOk, OnErr, IfOk};
ghost use Rattle.flow_link.specs.declared.phase.Move.TheVariants.{Offer};
ghost use Rattle.flow_block.specs.Node.{given_next};
ghost use Rattle.flow_moves.specs.Passed.{BlockMaySend, node_prepared, node_offers, node_sends};
ghost use Rattle.flow_moves.specs.Passes.{carries, id_in};
ghost use Rattle.flow_moves.specs.Ready.{ExitIsReady, exit_count};

use crate::ends::shares_out;
use flow_block::Node;
use flow_value::{MessageHeader, Parcel};
use std::alloc::{AllocError, Global};

/// Whether one more message may cross the link at this place.
#[inline(always)]
pub(crate) fn exit_may_carry(node: &Node, place: usize) -> bool
    requires { place < exit_count node.now }
    ensures { result ≡ carries place node.now.block }
{
    let block = node.block();
    if shares_out(block) {
        block.may_carry(place)
    } else {
        block.may_carry_copy(place)
    }
}

/// Makes the parcel of the head, or offers the element over the link at this place. Where memory is out, nothing has
/// changed.
#[inline(always)]
pub(crate) fn prepare_exit(node: &mut Node, alloc: Global, place: usize) -> Result<(), AllocError>
    requires { ExitIsReady place (Offer (id_in node.old.block)) node.old }
    ensures done { OnOk result (node.new ≡ node_prepared place node.old) }
    ensures kept { OnErr result (node.new ≡ node.old) }
{
    if shares_out(node.block()) {
        node.prepare_offer(alloc)?;
    } else {
        node.offer_copy(alloc, place)?;
    }
    Ok(())
}

/// Offers what is ready over the link at this place: this is its header.
pub(crate) fn offer_exit(node: &mut Node, place: usize) -> MessageHeader
    requires { BlockMaySend node.old.block place }
    ensures header { result ≡ id_in node.old.block }
    ensures offered { node.new ≡ node_offers place node.old }
{
    if shares_out(node.block()) {
        return node.offer(place);
    }
    let Some(header) = node.block().copies().ends()[place].link.id() else {
        unreachable!()
    };
    header
}

/// Sends what the block would offer over the link at this place, to a target that takes it at once: this is its parcel.
/// Where memory is out, nothing has changed.
#[inline(always)]
pub(crate) fn send_exit(node: &mut Node, alloc: Global, place: usize) -> Result<Parcel, AllocError>
    requires ready { ExitIsReady place (Offer (id_in node.old.block)) node.old }
    requires carries { carries place node.old.block ≡ true }
    ensures value { IfOk result (λ parcel. given_next node.old ≡ Some parcel) }
    ensures sent { OnOk result (node.new ≡ node_sends place (id_in node.old.block) node.old) }
    ensures kept { OnErr result (node.new ≡ node.old) }
{
    if shares_out(node.block()) {
        return node.send(alloc, place);
    }
    node.offer_copy(alloc, place)?;
    Ok(node.send_copy(place))
}
