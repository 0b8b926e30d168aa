//! Two workers do jobs at one time: a gate lets the first job of a block go on only once the second has begun, and that one only once the
//! first result is recorded. And where the events of a network are long, its run comes to do jobs at one time.
ghost use Rattle.std.specs.Prelude.{◌≤◌, ◌<◌};

use crate::crew::turned_by_crew;
use crate::numbers::{FOUR_LANES, has_recorded, with_numbers};
use flow_board::Gate;
use flow_crew::run_workers;
use flow_net::{Net, Settled};
use flow_pace::{Start, run_paced};
use flow_value::Steps;
use std::alloc::Global;
use std::process::Abort;
use std::sync::Wait;
use std::sync::atomic::{AtomicBool, AtomicU32, Ordering};
use std::thread::{Threads, yield_now};
use std::time::{Clock, CpuClock};

/// How often a job waits at most, where the run needs another to come.
const TURNS: u32 = 1_000_000;

/// How often a job waits at most where one of many has to meet another. The first ones are alone, since the owner does them, and on a busy
/// machine each wait takes as long as other programs have their turn.
const PATIENCE: u32 = 1_000;

/// How many numbers are posted.
const POSTED: u32 = 100;

/// A broadcast of numbers to two actions. One copies each number ten thousand times, in two lanes, and records nothing; the other records
/// them.
const COPYING: &str =
    "in* buffer, both broadcast, slow action(int+repeat 1000+repeat 10+repeat 0) lanes 2, out action(int), in => both, both => slow, both => out";

/// How many numbers it gets. The owner does thousands of events between two looks at the time, so with few it would do them all.
const COPIED: u32 = 1_000;

/// The numbers of the blocks between which the gate stands.
const TRANSFORM: usize = 1;

const ACTION: usize = 2;

/// What has come to the gate.
#[derive(Drop)]
struct Meeting {
    /// The transform's second job is about to be done.
    second: AtomicBool,
    /// The action's first job was done.
    recorded: AtomicBool,
    /// A job has waited in vain.
    late: AtomicBool,
}

impl Meeting {
    fn new() -> Meeting {
        Meeting {
            second: AtomicBool::new(false),
            recorded: AtomicBool::new(false),
            late: AtomicBool::new(false),
        }
    }

    /// Waits until this is set.
    fn wait_for(&self, set: &AtomicBool) {
        for _ in 0..TURNS {
            if set.load(Ordering::SeqCst) {
                return;
            }
            yield_now();
        }
        self.late.store(true, Ordering::SeqCst);
    }

    /// Whether all have come, and none too late.
    fn has_met(&self) -> bool {
        self.second.load(Ordering::SeqCst)
            && self.recorded.load(Ordering::SeqCst)
            && !self.late.load(Ordering::SeqCst)
    }
}

impl Gate for Meeting {
    fn before(&self, block: usize, ticket: u64) {
        if block != TRANSFORM {
            return;
        }
        match ticket {
            0 => self.wait_for(&self.second),
            1 => {
                self.second.store(true, Ordering::SeqCst);
                self.wait_for(&self.recorded);
            }
            _ => {}
        }
    }

    fn after(&self, block: usize, ticket: u64) {
        if block == ACTION && ticket == 0 {
            self.recorded.store(true, Ordering::SeqCst);
        }
    }
}

/// The network of four lanes, to which 1 to 100 are posted.
fn started(rt: &impl Abort, alloc: Global) -> Net<Steps> {
    with_numbers(rt, alloc, FOUR_LANES, POSTED)
}

#[test]
fn two_workers_run_jobs_at_one_time(rt: HostRuntime) {
    let alloc = rt.alloc();
    let gate = Meeting::new();
    let net = started(&rt, alloc);
    let Ok((net, settled)) = run_workers(&rt, alloc, net, 2, &gate, u64::MAX) else {
        panic!(rt; "out of memory");
    };
    assert!(rt; gate.has_met());
    assert!(rt; settled == Settled::Quiet);
    has_recorded(&rt, &net, 2, 101);
}

// The rounds end once the action's first job is done, and the owner does the rest.
#[test]
fn rounds_run_jobs_at_one_time(rt: HostRuntime) {
    let alloc = rt.alloc();
    let gate = Meeting::new();
    let net = started(&rt, alloc);
    let (mut net, _) = turned_by_crew(&rt, alloc, net, 2, &gate, 1_000_000, &gate.recorded);
    assert!(rt; gate.has_met());
    assert!(rt; matches!(net.settle(alloc, u64::MAX), Ok(Settled::Quiet)));
    has_recorded(&rt, &net, 2, 101);
}

/// A gate at which a job waits for a while until two have been there at one time.
#[derive(Drop)]
struct Pair {
    inside: AtomicU32,
    met: AtomicBool,
}

impl Gate for Pair {
    fn before(&self, _block: usize, _ticket: u64) {
        if self.inside.fetch_add(1, Ordering::SeqCst) > 0 {
            self.met.store(true, Ordering::SeqCst);
        }
        for _ in 0..PATIENCE {
            if self.met.load(Ordering::SeqCst) {
                return;
            }
            yield_now();
        }
    }

    fn after(&self, _block: usize, _ticket: u64) {
        self.inside.fetch_sub(1, Ordering::SeqCst);
    }
}

/// Asserts that a run whose events are long does two jobs at one time.
fn jobs_overlap<R: Abort + Threads + Wait + Clock + CpuClock + Sync>(
    rt: &R,
    alloc: Global,
    workers: usize,
)
    requires workers { (0 < workers) × (workers ≤ 64) }
{
    let gate = Pair {
        inside: AtomicU32::new(0),
        met: AtomicBool::new(false),
    };
    let net = with_numbers(rt, alloc, COPYING, COPIED);
    let Ok((net, settled)) = run_paced(rt, alloc, net, workers, &gate, Start::WhileLong, u64::MAX)
    else {
        panic!(rt; "out of memory");
    };
    assert!(rt; gate.met.load(Ordering::SeqCst));
    assert!(rt; settled == Settled::Quiet);
    has_recorded(rt, &net, 1, 1_000);
}

#[test]
fn long_jobs_of_a_run_overlap(rt: HostRuntime) {
    jobs_overlap(&rt, rt.alloc(), 2);
    jobs_overlap(&rt, rt.alloc(), 8);
}
