//! Blocks by the calls that all blocks have in common. The test carries what one says to the other.
ghost use Rattle.std.specs.Prelude.{◌≡◌, ℕ, ◌<◌, ◌≤◌, false};
ghost use Rattle.flow_link.specs.BlockCalls.{BlockCall, ends_as};
ghost use Rattle.flow_link.specs.TargetCalls.{is_awaited};
ghost use Rattle.flow_link.specs.declared.trace.Outcome.TheVariants.{Faulted};

use crate::check::check;
use crate::driven::block;
use crate::reserving::{offer, waits};
use crate::script::{does, takes};
use crate::shared::{has_row, header, tells};
use flow_link::{BlockKind, DataflowBlock, Outcome, TargetBlock, WishAnswer};
use flow_value::MessageStatus;

#[test]
fn a_message_waits_for_room(rt: HostRuntime) {
    let (rt, alloc) = (&rt, rt.alloc());
    let one = header(rt, 1);
    let mut target = block(rt, alloc, BlockKind::Action, 0, Some(1));
    let Ok(MessageStatus::Accepted) = target.offer_message(alloc, 0, one, true) else {
        panic!(rt; "it is not accepted");
    };
    offer(rt, alloc, &mut target, 1, one);
    waits(rt, &mut target);
    target.note_wish(1, WishAnswer::Withdrawn);
    waits(rt, &mut target);
}

/// Any target takes nothing more at its first port, where no message is awaited there.
fn complete_first<T: TargetBlock>(target: &mut T)
    requires port { 0 < T.port_count target.old }
    requires rests { (link : ℕ) → T.port_into target.old link ≡ 0 → is_awaited (T.target_stage target.old link) ≡ false }
    ensures completed { T.acts target.old (BlockCall.completed 0) target.new }
{
    target.complete(0);
}

/// Any target faults where it awaits no message, unless it has told its end.
fn fault_at_rest<T: TargetBlock>(target: &mut T, number: u32)
    requires is_fault { 1 ≤ number }
    requires rests { (link : ℕ) → is_awaited (T.target_stage target.old link) ≡ false }
    ensures ends { T.outcome target.new ≡ ends_as (Faulted number) (T.outcome target.old) }
{
    target.fault(number);
}

#[test]
fn a_completed_block_ends_once(rt: HostRuntime) {
    let mut done = block(&rt, rt.alloc(), BlockKind::Buffer, 0, None);
    tells(&rt, &mut done, None);
    complete_first(&mut done);
    tells(&rt, &mut done, Some(Outcome::Done));
}

#[test]
fn a_faulted_block_ends_once(rt: HostRuntime) {
    let mut faulted = block(&rt, rt.alloc(), BlockKind::Buffer, 0, None);
    fault_at_rest(&mut faulted, 3);
    tells(&rt, &mut faulted, Some(Outcome::Faulted(3)));
}

#[test]
fn a_completed_batch_makes_its_remainder(rt: HostRuntime) {
    let (rt, alloc) = (&rt, rt.alloc());
    let mut batch = block(rt, alloc, BlockKind::Batch, 2, None);
    takes(rt, alloc, &mut batch, "0 5");
    assert!(rt; batch.port_count() == 1);
    batch.close_port(0);
    does(rt, alloc, &mut batch, "makes");
    check(rt, "its remainder is a row", has_row(batch.left(), &[5]));
    does(rt, alloc, &mut batch, "ends not");
}
