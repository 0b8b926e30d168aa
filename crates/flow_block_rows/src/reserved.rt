//! Sources that keep a message for one link, by the calls that all blocks have in common. The test plays the targets.
ghost use Rattle.std.specs.Prelude.{◌≡◌, IfSome, IfNone};
ghost use Rattle.std.specs.Bool.{OnTrue};
ghost use Rattle.flow_link.specs.SourceCalls.{NothingOut};
ghost use Rattle.flow_link.specs.StagesMove.{MovesTo};
ghost use Rattle.flow_link.specs.declared.stage.SourceStage.TheVariants.{Waiting, Reserved};
ghost use Rattle.flow_block.specs.Traits.{source_at};
ghost use Rattle.flow_block_rows.specs.Reserved.{BothWait, FirstKept};

use crate::check::check;
use crate::driven::block;
use crate::script::{does, takes};
use flow_block::Block;
use flow_link::{BlockKind, LinkId, SourceBlock};
use flow_value::{MessageHeader, MessageStatus};
use std::alloc::Global;
use std::process::Abort;

/// Whether no offer is out over a link, and none waits there.
fn is_at_rest(block: &Block) -> bool
    ensures { OnTrue result (NothingOut (source_at block.now)) }
{
    block.away_count() == 0 && block.copies().is_at_rest()
}

/// The next message that the source offers, which is put off: its link, and its header.
pub(crate) fn put_off<S: SourceBlock>(
    rt: &impl Abort,
    alloc: Global,
    source: &mut S,
) -> Option<(LinkId, MessageHeader)>
    ensures waits { IfSome result (λ offer. MovesTo (Waiting offer.1) offer.0 (S.source_stage source.old)
        (S.source_stage source.new)) }
    ensures none { IfNone result (source.new ≡ source.old) }
{
    let Ok(offer) = source.next_offer(alloc) else {
        panic!(rt; "out of memory");
    };
    let (link, header) = offer?;
    source.note_answer(link, header, MessageStatus::Postponed);
    Some((link, header))
}

/// Links 7 and 8 put the next message off, in this order; these are the headers that they were offered.
fn put_off_by_both<S: SourceBlock>(
    rt: &impl Abort,
    alloc: Global,
    source: &mut S,
) -> (MessageHeader, MessageHeader)
    requires { NothingOut (S.source_stage source.old) }
    ensures { BothWait result.0 result.1 (S.source_stage source.new) }
{
    let Some((7, first)) = put_off(rt, alloc, source) else {
        panic!(rt; "it is not offered over link 7");
    };
    let Some((8, second)) = put_off(rt, alloc, source) else {
        panic!(rt; "it is not offered over link 8");
    };
    let None = put_off(rt, alloc, source) else {
        panic!(rt; "it is offered once more");
    };
    (first, second)
}

/// The message is kept for link 7.
fn keep_for_first<S: SourceBlock>(
    rt: &impl Abort,
    source: &mut S,
    first: MessageHeader,
    second: MessageHeader,
)
    requires { BothWait first second (S.source_stage source.old) }
    ensures { FirstKept first second (S.source_stage source.new) }
{
    assert!(rt; source.reserve_message(7, first));
}

/// While it is kept for link 7, link 8 neither has it kept nor takes it.
fn deny_second<S: SourceBlock>(
    rt: &impl Abort,
    source: &mut S,
    first: MessageHeader,
    second: MessageHeader,
)
    requires { FirstKept first second (S.source_stage source.old) }
    ensures { S.source_stage source.new 7 ≡ Reserved first }
{
    assert!(rt; !source.reserve_message(8, second));
    let None = source.consume_message(8, second) else {
        panic!(rt; "it is given to another");
    };
}

/// The message is kept for link 8, too, since each link has its own copy.
fn keep_for_second<S: SourceBlock>(
    rt: &impl Abort,
    source: &mut S,
    first: MessageHeader,
    second: MessageHeader,
)
    requires { FirstKept first second (S.source_stage source.old) }
    ensures first { S.source_stage source.new 7 ≡ Reserved first }
    ensures second { S.source_stage source.new 8 ≡ Reserved second }
{
    assert!(rt; source.reserve_message(8, second));
}

/// The message that is kept for a link is this number, and the link takes it.
fn take_kept<S: SourceBlock>(
    rt: &impl Abort,
    source: &mut S,
    link: LinkId,
    header: MessageHeader,
    number: i64,
)
    requires { S.source_stage source.old link ≡ Reserved header }
{
    let Some(parcel) = source.consume_message(link, header) else {
        panic!(rt; "it is not there");
    };
    let (value, _copy) = parcel.into_parts();
    check(
        rt,
        "the message that is kept",
        value.as_int() == Some(number),
    );
}

/// A block of this kind that has taken these messages, made each, and keeps the first for link 7, after both links put it off
/// with these headers.
fn keeping(
    rt: &impl Abort,
    alloc: Global,
    kind: BlockKind,
    messages: &str,
) -> (Block, MessageHeader, MessageHeader)
    ensures { FirstKept result.1 result.2 (source_at result.0) }
{
    let mut source = block(rt, alloc, kind, 0, None);
    takes(rt, alloc, &mut source, messages);
    for _message in messages.split(", ") {
        does(rt, alloc, &mut source, "makes");
    }
    if !is_at_rest(&source) {
        panic!(rt; "something is under way");
    }
    let (first, second) = put_off_by_both(rt, alloc, &mut source);
    keep_for_first(rt, &mut source, first, second);
    (source, first, second)
}

#[test]
fn a_buffer_keeps_its_first_message_for_one_link(rt: HostRuntime) {
    let (rt, alloc) = (&rt, rt.alloc());
    let (mut source, first, second) = keeping(rt, alloc, BlockKind::Buffer, "0 5, 0 6");
    deny_second(rt, &mut source, first, second);
    source.release_reservation(7, first);
    check(rt, "both are left", source.left().len() == 2);
    does(rt, alloc, &mut source, "gives 7 1 5");
    check(rt, "one is left", source.left().len() == 1);
}

#[test]
fn a_buffer_gives_what_it_keeps(rt: HostRuntime) {
    let (mut source, first, _) = keeping(&rt, rt.alloc(), BlockKind::Buffer, "0 5");
    take_kept(&rt, &mut source, 7, first, 5);
    check(&rt, "none is left", source.left().len() == 0);
}

#[test]
fn a_broadcast_keeps_a_copy_for_each_link(rt: HostRuntime) {
    let (mut source, first, second) = keeping(&rt, rt.alloc(), BlockKind::Broadcast, "0 4");
    keep_for_second(&rt, &mut source, first, second);
    take_kept(&rt, &mut source, 8, second, 4);
}

#[test]
fn a_broadcast_offers_nothing_anew(rt: HostRuntime) {
    let alloc = rt.alloc();
    let (mut source, first, _) = keeping(&rt, alloc, BlockKind::Broadcast, "0 4");
    source.release_reservation(7, first);
    does(&rt, alloc, &mut source, "puts nothing");
}
