//! Messages over a channel.

use crate::bench::message::{is_message, message};
use crossbeam_channel::{Receiver, Sender, bounded};
use flow_value::Parcel;
use std::alloc::{AllocError, Global};
use std::sync::Wait;
use std::thread::{Threads, join};

/// Sends each message and receives it, by one thread: how many came in their turn.
pub(crate) fn by_one_thread<R: Wait>(
    rt: &R,
    alloc: Global,
    room: usize,
    count: u32,
) -> Result<u64, AllocError> {
    let (sender, receiver) = bounded(alloc, room)?;
    let mut in_turn = 0u64;
    for number in 0..count {
        let parcel = message(alloc, number)?;
        if sender.send(rt, parcel).is_ok() && receives(rt, &receiver, number) {
            in_turn = in_turn.saturating_add(1);
        }
    }
    Ok(in_turn)
}

/// Sends the messages by one thread and receives them by another: how many came in their turn.
pub(crate) fn by_two_threads<R: Threads + Wait + Sync>(
    rt: &R,
    alloc: Global,
    room: usize,
    count: u32,
) -> Result<u64, AllocError> {
    let (sender, receiver) = bounded(alloc, room)?;
    let (sent, in_turn) = join(
        rt,
        move || send_all(rt, alloc, &sender, count),
        move || receive_all(rt, &receiver, count),
    );
    sent?;
    Ok(in_turn)
}

fn send_all<R: Wait>(
    rt: &R,
    alloc: Global,
    sender: &Sender<Parcel>,
    count: u32,
) -> Result<(), AllocError> {
    for number in 0..count {
        let parcel = message(alloc, number)?;
        if sender.send(rt, parcel).is_err() {
            break;
        }
    }
    Ok(())
}

fn receive_all<R: Wait>(rt: &R, receiver: &Receiver<Parcel>, count: u32) -> u64 {
    let mut in_turn = 0u64;
    for number in 0..count {
        if receives(rt, receiver, number) {
            in_turn = in_turn.saturating_add(1);
        }
    }
    in_turn
}

// whether the next message is that of this number
fn receives<R: Wait>(rt: &R, receiver: &Receiver<Parcel>, number: u32) -> bool {
    match receiver.recv(rt) {
        Ok(parcel) => is_message(parcel, number),
        Err(_) => false,
    }
}
