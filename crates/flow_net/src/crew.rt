//! A crew: threads that run jobs, and the channels between them and the driver of a network.
//!
//! a job is      with             it comes there
//! queued        the channel      when the driver has begun it
//! run           a worker         when the worker takes it off the queue; the driver takes some back, and runs them
//! reported      the channel      when it has run
//! ended         the network      when the driver takes the report
//!
//! A report that is lost is no harm: its message is in the block until its result comes back, and the driver can work on
//! it itself. Nor is one that comes twice: a network takes the result of a job only while that is out. So the channels need
//! no rule. Each has room for all jobs that may be out at a time, so no worker waits for the driver to take a report.
ghost use Rattle.std.specs.Thread.{IsSend, IsSync};

use crossbeam_channel::{Receiver, Sender, bounded};
use flow_exec::{Job, JobResult};
use flow_link::{BlockDef, Plan};
use flow_value::{Runs, Work};
use std::alloc::{AllocError, Global};
use std::hint::spin_loop;
use std::sync::{Arc, Wait};
use std::thread::{Threads, join, join_mut};

/// How often a thread looks for a message before it sleeps until one comes: for about a tenth of a millisecond.
const LOOKS: u32 = 50;

/// How many turns of an empty loop a thread waits between two looks.
const TURNS: u32 = 64;

/// How many jobs are out when a crew is called: with one of them its threads would have nothing to do beside the driver.
const JOBS_FOR_CREW: usize = 2;

/// A job, with the number of its block.
#[derive(Drop)]
pub(crate) struct Task<W> {
    number: usize,
    job: Job<W>,
}

/// What came of a job of a block: nothing, where memory was out.
#[derive(Drop)]
pub(crate) struct Report<W: Runs> {
    pub number: usize,
    pub done: Option<JobResult<W>>,
}

/// The driver's ends of the channels. The workers stop when it is dropped.
#[derive(Drop)]
pub(crate) struct Desk<W: Runs> {
    /// A share of the work of each block with several lanes, by the blocks' numbers.
    shares: Vec<Option<Arc<W, Global>>>,
    tasks: Sender<Task<W>>,
    queue: Receiver<Task<W>>,
    reports: Receiver<Report<W>>,
    /// How many jobs are queued, run or reported.
    out: usize,
    /// Whether threads run jobs beside the driver.
    has_crew: bool,
    /// Whether the driver has nothing left to do.
    is_closed: bool,
}

/// The workers' ends of the channels: jobs come out of the first, and reports go into the second.
pub(crate) type Ends<W> = (Receiver<Task<W>>, Sender<Report<W>>);

/// The channels for a crew that works on a plan, with room for so many jobs.
pub(crate) fn channels<W: Work>(
    alloc: Global,
    plan: &Plan<W>,
    room: usize,
) -> Result<(Desk<W>, Ends<W>), AllocError> {
    let shares = shares_of(alloc, plan)?;
    let (tasks, queue) = bounded(alloc, room)?;
    let (sender, reports) = bounded(alloc, room)?;
    let ends = (queue.clone()?, sender);
    let desk = Desk {
        shares,
        tasks,
        queue,
        reports,
        out: 0,
        has_crew: false,
        is_closed: false,
    };
    Ok((desk, ends))
}

/// A share of the work of each block with several lanes, by the blocks' numbers.
fn shares_of<W: Work>(
    alloc: Global,
    plan: &Plan<W>,
) -> Result<Vec<Option<Arc<W, Global>>>, AllocError> {
    let mut shares = Vec::new(alloc);
    for number in 0..plan.block_count() {
        shares.push(share_of(alloc, plan.block(number))?)?;
    }
    Ok(shares)
}

/// A share of the work of a block with several lanes.
fn share_of<W: Work>(
    alloc: Global,
    block: &BlockDef<W>,
) -> Result<Option<Arc<W, Global>>, AllocError> {
    match block.work {
        Some(ref work) if lanes_of(block) > 1 => { Ok(Some(Arc::new(alloc, work.copy(alloc)?)?)) }
        _ => Ok(None),
    }
}

/// How many jobs may be out at a time of blocks with several lanes.
pub(crate) fn room_of<W: Work>(plan: &Plan<W>) -> usize {
    let mut room = 0usize;
    for number in 0..plan.block_count() {
        let lanes = lanes_of(plan.block(number));
        if lanes > 1 {
            room = room.saturating_add(lanes as usize);
        }
    }
    room
}

/// How many messages a block works on at a time.
fn lanes_of<W>(block: &BlockDef<W>) -> u32 {
    block.lanes.unwrap_or(1)
}

impl<W: Work> Desk<W> {
    /// Whether the driver has nothing left to do.
    pub(crate) fn is_closed(&self) -> bool {
        self.is_closed
    }

    /// The driver has nothing left to do.
    pub(crate) fn close(&mut self) {
        self.is_closed = true;
    }

    /// Whether threads beside the driver would have something to do, and there are none yet.
    pub(crate) fn wants_crew(&self) -> bool {
        !self.is_closed && !self.has_crew && self.out >= JOBS_FOR_CREW
    }

    /// Whether no job is out.
    pub(crate) fn is_idle(&self) -> bool {
        self.out == 0
    }

    /// Threads run jobs beside the driver from now on.
    pub(crate) fn call_crew(&mut self) {
        self.has_crew = true;
    }

    /// Whether the jobs of this block are for the crew: it has several lanes.
    pub(crate) fn has_lanes(&self, number: usize) -> bool {
        number < self.shares.len() && self.shares[number].is_some()
    }

    /// A share of the work of a block with several lanes.
    pub(crate) fn share(&self, number: usize) -> Result<Option<Arc<W, Global>>, AllocError> {
        match self.shares.get(number) {
            Some(Some(work)) => Ok(Some(Arc::try_clone(work)?)),
            _ => Ok(None),
        }
    }

    /// Queues a job of a block.
    pub(crate) fn queue<R: Wait>(&mut self, rt: &R, number: usize, job: Job<W>) {
        if self.tasks.send(rt, Task { number, job }).is_ok() {
            self.out = self.out.saturating_add(1);
        }
    }

    /// The next report that is there.
    pub(crate) fn report<R: Wait>(&mut self, rt: &R) -> Option<Report<W>> {
        if self.out == 0 || self.reports.is_empty() {
            return None;
        }
        let report = self.reports.try_recv(rt).ok()?;
        self.out = self.out.saturating_sub(1);
        Some(report)
    }

    /// The next report, if a job is out. Where one is queued still, it is run here, and else waited for: then some worker
    /// runs it.
    pub(crate) fn wait_for_report<R: Wait>(&mut self, rt: &R, alloc: Global) -> Option<Report<W>> {
        if self.out == 0 {
            return None;
        }
        self.out = self.out.saturating_sub(1);
        match self.queue.try_recv(rt) {
            Ok(task) => Some(report_of(alloc, task)),
            Err(_) => next_of(rt, &self.reports),
        }
    }
}

/// Runs a job.
fn report_of<W: Work>(alloc: Global, task: Task<W>) -> Report<W> {
    Report {
        number: task.number,
        done: task.job.run(alloc).ok(),
    }
}

/// Calls the driver while so many further threads run jobs. They have ended when it returns.
// A function of its own, since the proof that the jobs may go to other threads need know nothing of the network.
pub(crate) fn run_beside<W: Work, R: Threads + Wait + Sync, D: FnMut() -> u64>(
    rt: &R,
    alloc: Global,
    queue: &Receiver<Task<W>>,
    reports: &Sender<Report<W>>,
    threads: usize,
    driver: &mut D,
) -> u64
    requires { D.pre driver.old }
    ensures { D.step driver.old result driver.new }
{
    let mut workers = ||
        requires { IsSend W.row × IsSync W.row × IsSync R.row }
    { work_in(rt, alloc, queue, reports, threads) };
    let (_, count) = join_mut(rt, &mut workers, driver);
    count
}

/// Runs jobs in so many threads, until the driver's ends are gone.
pub(crate) fn work_in<W: Work, R: Threads + Wait + Sync>(
    rt: &R,
    alloc: Global,
    queue: &Receiver<Task<W>>,
    reports: &Sender<Report<W>>,
    threads: usize,
) {
    if threads < 2 {
        work(rt, alloc, queue, reports);
        return;
    }
    let low = threads / 2;
    let high = threads - low;
    let front = ||
        requires { IsSend W.row × IsSync W.row × IsSync R.row }
    { work_in(rt, alloc, queue, reports, low) };
    let back = ||
        requires { IsSend W.row × IsSync W.row × IsSync R.row }
    { work_in(rt, alloc, queue, reports, high) };
    join(rt, front, back);
}

/// Runs jobs, until the driver's ends are gone.
fn work<W: Work, R: Wait>(
    rt: &R,
    alloc: Global,
    queue: &Receiver<Task<W>>,
    reports: &Sender<Report<W>>,
) {
    for _ in rt.forever() {
        let Some(task) = next_of(rt, queue) else {
            return;
        };
        if reports.send(rt, report_of(alloc, task)).is_err() {
            return;
        }
    }
}

/// The next message of a channel. A thread that sleeps takes long to wake, so this one looks for a while first. It yields
/// to no other: on a busy machine each yield gives a whole time slice away.
fn next_of<T: Drop, R: Wait>(rt: &R, channel: &Receiver<T>) -> Option<T> {
    for _ in 0..LOOKS {
        if !channel.is_empty() {
            if let Ok(message) = channel.try_recv(rt) {
                return Some(message);
            }
        }
        pause();
    }
    channel.recv(rt).ok()
}

/// Lets a moment pass without a call of the system.
fn pause() {
    for _ in 0..TURNS {
        spin_loop();
    }
}
