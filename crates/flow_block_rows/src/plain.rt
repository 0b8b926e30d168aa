//! Blocks with one port and without a function.
use crate::check::check;
use crate::plans::block;
use crate::script::{does, takes};
use crate::shared::header;
use flow_kinds::{Batch, Broadcast, Buffer, WriteOnce};
use flow_link::{BlockKind, TargetBlock};
use flow_value::MessageStatus;

#[test]
fn a_buffer_hands_messages_on(rt: HostRuntime) {
    let (rt, alloc) = (&rt, rt.alloc());
    let mut buffer: Buffer = block(rt, alloc, BlockKind::Buffer);
    takes(rt, alloc, &mut buffer, "0 5, 1 6");
    does(
        rt,
        alloc,
        &mut buffer,
        "hands 2 1 5; hands 2 2 6; hands nothing",
    );
    check(rt, "its kind", buffer.block().kind() == BlockKind::Buffer);
    check(rt, "its port", buffer.block().port_count() == 1);
}

#[test]
fn a_typed_broadcast_copies_to_each_link(rt: HostRuntime) {
    let (rt, alloc) = (&rt, rt.alloc());
    let mut broadcast: Broadcast = block(rt, alloc, BlockKind::Broadcast);
    takes(rt, alloc, &mut broadcast, "0 5, 0 6");
    let copies = "hands 2 1 5; hands 3 1 5; hands 2 2 6; hands 3 2 6; hands nothing; ends not";
    does(rt, alloc, &mut broadcast, copies);
}

#[test]
fn a_write_once_block_takes_one_message(rt: HostRuntime) {
    let (rt, alloc) = (&rt, rt.alloc());
    let mut once: WriteOnce = block(rt, alloc, BlockKind::WriteOnce);
    takes(rt, alloc, &mut once, "0 5");
    let two = header(rt, 2);
    let Ok(MessageStatus::Declined) = once.offer_message(alloc, 1, two, false) else {
        panic!(rt; "it takes a second");
    };
    check(rt, "it has one", once.block().copies().left().is_some());
    does(
        rt,
        alloc,
        &mut once,
        "hands 2 1 5; hands 3 1 5; hands nothing",
    );
    check(rt, "it has none", once.block().copies().left().is_none());
    does(rt, alloc, &mut once, "ends done");
}

#[test]
fn a_batch_makes_rows(rt: HostRuntime) {
    let (rt, alloc) = (&rt, rt.alloc());
    let mut batch: Batch = block(rt, alloc, BlockKind::Batch);
    takes(rt, alloc, &mut batch, "0 5, 1 6, 0 7");
    does(rt, alloc, &mut batch, "hands 2 1 (5,6); hands nothing");
}
