//! What is timed: the ways on which messages go.

use crate::bench::timed::Timed;
use crate::bench::{chain, channel, link, turns, workers};
use anyhow::Result;
use std::alloc::Global;
use std::sync::Wait;
use std::thread::Threads;
use std::time::{Clock, Instant};

/// A way on which messages go.
#[derive(Clone, Copy)]
pub(crate) enum Way {
    /// Over a link, both of whose ends one thread has.
    LinkOneThread,
    /// Over a link between two threads.
    LinkTwoThreads,
    /// Over each of two links whose tables are neighbours in memory, each between two threads of its own.
    TwoLinks,
    /// Over a channel with this much room, both of whose ends one thread has.
    ChannelOneThread { room: usize },
    /// Over a channel with this much room, between two threads.
    ChannelTwoThreads { room: usize },
    /// Through a chain, whose owner drives the whole network.
    Settle,
    /// Through a chain that is scattered, and one thread turns all tasks.
    Turns,
    /// Through a chain that a crew of so many workers runs.
    OneWorker,
    TwoWorkers,
    FourWorkers,
    EightWorkers,
}

/// All that is timed, one after the other: how each line begins, which way messages go, and how many where nothing is timed.
pub(crate) const CASES: [(&str, Way, u32); 13] = [
    ("a link, one thread", Way::LinkOneThread, 1_000),
    (
        "a channel of 1, one thread",
        Way::ChannelOneThread { room: 1 },
        1_000,
    ),
    (
        "a channel of 64, one thread",
        Way::ChannelOneThread { room: 64 },
        1_000,
    ),
    ("a link, two threads", Way::LinkTwoThreads, 1_000),
    (
        "a channel of 1, two threads",
        Way::ChannelTwoThreads { room: 1 },
        1_000,
    ),
    (
        "a channel of 64, two threads",
        Way::ChannelTwoThreads { room: 64 },
        1_000,
    ),
    (
        "two links side by side, two threads each",
        Way::TwoLinks,
        1_000,
    ),
    ("settle", Way::Settle, 100),
    ("turns by one thread", Way::Turns, 100),
    ("run by one worker", Way::OneWorker, 100),
    ("run by two workers", Way::TwoWorkers, 100),
    ("run by four workers", Way::FourWorkers, 100),
    ("run by eight workers", Way::EightWorkers, 100),
];

impl Way {
    /// Has so many messages go this way.
    pub(crate) fn send<R: Threads + Wait + Clock + Sync>(
        self,
        rt: &R,
        alloc: Global,
        count: u32,
    ) -> Result<Timed> {
        let begun = Instant::now(rt)?;
        let in_turn = match self {
            Way::LinkOneThread => link::by_one_thread(alloc, count),
            Way::LinkTwoThreads => link::by_two_threads(rt, alloc, count),
            Way::TwoLinks => link::by_two_pairs(rt, alloc, count),
            Way::ChannelOneThread { room } => channel::by_one_thread(rt, alloc, room, count),
            Way::ChannelTwoThreads { room } => channel::by_two_threads(rt, alloc, room, count),
            Way::Settle => return chain::by_settling(rt, alloc, count),
            Way::Turns => return turns::by_one_thread(rt, alloc, count),
            Way::OneWorker => return workers::by_workers(rt, alloc, count, 1),
            Way::TwoWorkers => return workers::by_workers(rt, alloc, count, 2),
            Way::FourWorkers => return workers::by_workers(rt, alloc, count, 4),
            Way::EightWorkers => return workers::by_workers(rt, alloc, count, 8),
        };
        Ok(Timed {
            in_turn: in_turn?,
            taken: begun.elapsed(rt)?,
        })
    }
}
