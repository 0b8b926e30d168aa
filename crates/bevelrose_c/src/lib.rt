//! Networks for programs in other languages: a static library of functions that take and give bytes.
//!
//! Each answers whatever the bytes are. A caller shares no memory with them but its texts, its room for answers, and a handle; and no
//! thread is started, since a static library may start none. `bevelrose.h` beside this crate says what a caller in C has to keep.
//!
//! Proved: each export answers what flow_run and flow_text promise of the same bytes (specs/Answers.antt), whatever
//! they are; a handle owns its network alone; a text goes to the caller's room only where it fits.
//! Tested: the programs in C, Rust, C# and Python, under valgrind.
//! Neither: that the caller keeps what the header asks; when memory is out.
#![tactic(auto)]

ghost use Rattle.std.specs.Prelude.{◌≡◌, None};
ghost use Rattle.bevelrose_c.specs.Answers.{Answers, IsChecked, IsOpened, IsRunIn, plan_in};

mod answer;
mod handle;
mod loose;
mod network;
mod refusal;
mod run;

use crate::answer::{give, refuse};
use crate::run::run_held;
use flow_text::read_plan;
pub use handle::Handle;
pub use loose::Loose;
pub use network::Network;
pub use refusal::Refusal;
pub use run::Outcome;
use std::alloc::Global;

/// The number of these functions and of what they promise. It grows where a caller has to be changed.
const VERSION: u32 = 1;

/// The number of these functions and of what they promise.
#[unsafe(no_mangle)]
pub extern "C" fn bevelrose_version() -> u32
    ensures { result ≡ 1 }
{
    VERSION
}

/// Whether this text is a network: 0, or the status of the refusal, of which the answer tells.
#[unsafe(no_mangle)]
pub extern "C" fn bevelrose_check(
    alloc: Global,
    text: &[u8],
    room: &mut [u8],
    size: &mut usize,
) -> u8
    ensures { IsChecked (Answers room.old room.new size.new result) text.now }
{
    match read_plan(alloc, text) {
        Ok(_) => {
            give(&[], room, size);
            0
        }
        Err(refusal) => refuse(alloc, Refusal::of(refusal), room, size),
    }
}

/// Makes a network of a text ready, so that it may be run, and lets go what the handle held. After a refusal the handle is as it was.
#[unsafe(no_mangle)]
pub extern "C" fn bevelrose_open(
    alloc: Global,
    handle: &mut Handle,
    text: &[u8],
    room: &mut [u8],
    size: &mut usize,
) -> u8
    ensures { IsOpened (Answers room.old room.new size.new result) text.now handle.old.held handle.new.held }
{
    let plan = match read_plan(alloc, text) {
        Ok(plan) => plan,
        Err(refusal) => return refuse(alloc, Refusal::of(refusal), room, size),
    };
    match Box::new(alloc, Network { plan: Some(plan) }) {
        Ok(network) => {
            handle.put(network);
            give(&[], room, size);
            0
        }
        Err(_) => refuse(alloc, Refusal::Memory, room, size),
    }
}

/// Runs the network of this handle over the records, as `flow_run NET 1 LIMIT` does, and answers with its report and its status. The
/// handle keeps its network, and what happened in one run is forgotten before the next.
#[unsafe(no_mangle)]
pub extern "C" fn bevelrose_run(
    alloc: Global,
    handle: &mut Handle,
    records: &[u8],
    limit: u64,
    room: &mut [u8],
    size: &mut usize,
) -> u8
    ensures ran { IsRunIn (Answers room.old room.new size.new result) handle.old.held records.now limit }
    ensures kept { plan_in handle.new.held ≡ plan_in handle.old.held }
{
    match run_held(alloc, handle, records, limit) {
        Some(Ok(outcome)) => {
            give(outcome.report.as_slice(), room, size);
            outcome.status()
        }
        Some(Err(refusal)) => refuse(alloc, refusal, room, size),
        None => refuse(alloc, Refusal::Closed, room, size),
    }
}

/// Lets go the network of this handle, if it holds one.
#[unsafe(no_mangle)]
pub extern "C" fn bevelrose_close(alloc: Global, handle: &mut Handle)
    ensures { handle.new.held ≡ None }
{
    let _network = handle.take(alloc);
}
