//! Drives a network with a crew: blocks with several lanes have their jobs run by other threads, and all else is done here.
//! Whatever the crew leaves undone, `settle` does.
ghost use Rattle.std.specs.Prelude.{◌≡◌, ◌≢◌, ◌<◌, ◌≤◌, length, IfOk, IfErr, OnErr, Err};
ghost use Rattle.flow_core.specs.Events.{NetEvent};
ghost use Rattle.flow_net.specs.Engine.{EnabledIn, GoesOnIn, HasDone, InOrder, NeedsIdIn, SettlesIn};
ghost use Rattle.flow_net.specs.declared.fault.NetFault.TheVariants.{NotEnabled, Ids};

use crate::crew::{Desk, Report, Task, channels, room_of, run_beside};
use crate::due::Due;
use crate::engine::Engine;
use crate::fault::NetFault;
use crate::settled::Settled;
use crossbeam_channel::{Receiver, Sender};
use flow_moves::Spot;
use flow_value::Work;
use std::alloc::Global;
use std::sync::Wait;
use std::thread::Threads;

impl<W: Work> Engine<W> {
    /// Does events until nothing may happen any more, or as many as the limit are done, in so many threads.
    pub(crate) fn settle_with<R: Threads + Wait + Sync>(
        &mut self,
        rt: &R,
        alloc: Global,
        workers: usize,
        limit: u64,
    ) -> Result<Settled, NetFault>
        requires kept { InOrder W.meaning self.old }
        ensures same_plan { self.new.plan ≡ self.old.plan }
        ensures settled { IfOk result (SettlesIn W.meaning limit self.old self.new) }
        ensures goes_on { GoesOnIn W.meaning limit self.old self.new }
        ensures used_up { result ≡ Err Ids → NeedsIdIn W.meaning self.new }
        ensures never { result ≢ Err NotEnabled }
    {
        let done = self.work_with(rt, alloc, workers, limit);
        self.settle(alloc, limit - done)
    }

    /// Has a crew do events, of at most so many, as far as it gets. Answers how many events those are: none where there is
    /// nothing for a crew to do, or no memory for one.
    fn work_with<R: Threads + Wait + Sync>(
        &mut self,
        rt: &R,
        alloc: Global,
        workers: usize,
        limit: u64,
    ) -> u64
        requires kept { InOrder W.meaning self.old }
        ensures same_plan { self.new.plan ≡ self.old.plan }
        ensures happened { HasDone W.meaning result self.old self.new }
        ensures within { result ≤ limit }
    {
        let room = room_of(&self.plan);
        if workers < 2 || room == 0 {
            return 0;
        }
        match channels(alloc, &self.plan, room) {
            Ok((desk, (queue, reports))) => {
                let threads = room.min(workers - 1);
                self.drive_with(rt, alloc, desk, &queue, &reports, threads, limit)
            }
            Err(_) => 0,
        }
    }

    /// Drives the network alone until a second job is out, and from then on beside so many threads: a short run starts
    /// none. Answers how many events are done.
    fn drive_with<R: Threads + Wait + Sync>(
        &mut self,
        rt: &R,
        alloc: Global,
        mut desk: Desk<W>,
        queue: &Receiver<Task<W>>,
        reports: &Sender<Report<W>>,
        threads: usize,
        limit: u64,
    ) -> u64
        requires kept { InOrder W.meaning self.old }
        ensures same_plan { self.new.plan ≡ self.old.plan }
        ensures happened { HasDone W.meaning result self.old self.new }
        ensures within { result ≤ limit }
    {
        let alone = self.drive(rt, alloc, &mut desk, limit);
        if alone == limit || !desk.wants_crew() {
            return alone;
        }
        desk.call_crew();
        let beside = drive_beside(
            self,
            rt,
            alloc,
            desk,
            queue,
            reports,
            threads,
            limit - alone,
        );
        alone + beside
    }

    /// Drives the network until nothing is left to do, an event fails, a crew is wanted, or so many events are done.
    /// Answers how many are.
    fn drive<R: Wait>(&mut self, rt: &R, alloc: Global, desk: &mut Desk<W>, limit: u64) -> u64
        requires kept { InOrder W.meaning self.old }
        ensures same_plan { self.new.plan ≡ self.old.plan }
        ensures happened { HasDone W.meaning result self.old self.new }
        ensures within { result ≤ limit }
    {
        let mut rest = limit;
        for _ in rt.forever() {
            if rest == 0 || desk.is_closed() || desk.wants_crew() {
                break;
            }
            match self.go_on(rt, alloc, desk, rest) {
                Ok(count) => rest -= count,
                Err(_fault) => desk.close(),
            }
        }
        limit - rest
    }

    /// Takes a report that is there, or goes on at a spot of the agenda, or waits.
    fn go_on<R: Wait>(
        &mut self,
        rt: &R,
        alloc: Global,
        desk: &mut Desk<W>,
        most: u64,
    ) -> Result<u64, NetFault>
        requires kept { InOrder W.meaning self.old }
        requires some { 0 < most }
        ensures same_plan { self.new.plan ≡ self.old.plan }
        ensures happened { IfOk result (λ count. HasDone W.meaning count self.old self.new) }
        ensures within { IfOk result (λ count. count ≤ most) }
        ensures kept { OnErr result (self.new.parts ≡ self.old.parts) }
    {
        if let Some(report) = desk.report(rt) {
            return Ok(self.take_report(report));
        }
        match self.agenda.take_any() {
            Some(Spot::Block(number)) if desk.has_lanes(number) => {
                self.work_in_lanes(rt, alloc, desk, number, most)
            }
            Some(spot) => self.work_at(alloc, spot, most),
            None => self.wait(rt, alloc, desk, most),
        }
    }

    /// Takes the result of a job, if the network takes it. Answers how many events that is.
    fn take_report(&mut self, report: Report<W>) -> u64
        requires kept { InOrder W.meaning self.old }
        ensures same_plan { self.new.plan ≡ self.old.plan }
        ensures happened { HasDone W.meaning result self.old self.new }
        ensures within { result ≤ 1 }
    {
        let Report { number, done } = report;
        let Some(done) = done else {
            return 0;
        };
        match self.end_job(number, done) {
            Ok(()) => 1,
            Err(_) => 0,
        }
    }

    /// Does what would happen next at a spot, with what follows at once.
    fn work_at(&mut self, alloc: Global, spot: Spot, most: u64) -> Result<u64, NetFault>
        requires kept { InOrder W.meaning self.old }
        requires some { 0 < most }
        ensures same_plan { self.new.plan ≡ self.old.plan }
        ensures happened { IfOk result (λ count. HasDone W.meaning count self.old self.new) }
        ensures within { IfOk result (λ count. count ≤ most) }
        ensures kept { OnErr result (self.new.parts ≡ self.old.parts) }
    {
        match self.event_at(spot)? {
            Some(event) => self.advance(alloc, &event, most),
            None => Ok(0),
        }
    }

    /// Has a block with several lanes begin one more job, or does what else it would do next. No job of the crew ends here. One that is
    /// out while the crew has none, since an earlier call was stopped then, is done at once: it keeps a lane busy.
    fn work_in_lanes<R: Wait>(
        &mut self,
        rt: &R,
        alloc: Global,
        desk: &mut Desk<W>,
        number: usize,
        most: u64,
    ) -> Result<u64, NetFault>
        requires kept { InOrder W.meaning self.old }
        requires some { 0 < most }
        ensures same_plan { self.new.plan ≡ self.old.plan }
        ensures happened { IfOk result (λ count. HasDone W.meaning count self.old self.new) }
        ensures within { IfOk result (λ count. count ≤ most) }
        ensures kept { OnErr result (self.new.parts ≡ self.old.parts) }
    {
        if number >= self.plan.block_count() {
            return Ok(0);
        }
        if desk.is_idle() {
            if let Some(event) = self.job_to_end(number) {
                return self.advance(alloc, &event, most);
            }
        }
        if self.may_begin(number) {
            return self.begin_in_lane(rt, alloc, desk, number);
        }
        match self.event_but_work(number)? {
            Some(event) => self.advance(alloc, &event, most),
            None => Ok(0),
        }
    }

    /// Begins a job of a block, and queues it.
    fn begin_in_lane<R: Wait>(
        &mut self,
        rt: &R,
        alloc: Global,
        desk: &mut Desk<W>,
        number: usize,
    ) -> Result<u64, NetFault>
        requires kept { InOrder W.meaning self.old }
        requires enabled { EnabledIn self.old (NetEvent.begin number) }
        ensures same_plan { self.new.plan ≡ self.old.plan }
        ensures happened { IfOk result (λ count. HasDone W.meaning count self.old self.new) }
        ensures within { IfOk result (λ count. count ≤ 1) }
        ensures kept { OnErr result (self.new.parts ≡ self.old.parts) }
    {
        let work = desk.share(number)?;
        let job = self.begin_with(alloc, number, work)?;
        desk.queue(rt, number, job);
        Ok(1)
    }

    /// Takes the next report, where a job is out; and else looks everywhere for an event, as one of a job that was lost.
    fn wait<R: Wait>(
        &mut self,
        rt: &R,
        alloc: Global,
        desk: &mut Desk<W>,
        most: u64,
    ) -> Result<u64, NetFault>
        requires kept { InOrder W.meaning self.old }
        requires some { 0 < most }
        ensures same_plan { self.new.plan ≡ self.old.plan }
        ensures happened { IfOk result (λ count. HasDone W.meaning count self.old self.new) }
        ensures within { IfOk result (λ count. count ≤ most) }
        ensures kept { OnErr result (self.new.parts ≡ self.old.parts) }
    {
        if let Some(report) = desk.wait_for_report(rt, alloc) {
            return Ok(self.take_report(report));
        }
        match self.next_event()? {
            Some(Due::Begin(number)) if desk.has_lanes(number) => {
                self.begin_in_lane(rt, alloc, desk, number)
            }
            Some(event) => self.advance(alloc, &event, most),
            None => {
                desk.close();
                Ok(0)
            }
        }
    }
}

/// Drives a network while so many further threads run its jobs. They have ended when it returns.
fn drive_beside<W: Work, R: Threads + Wait + Sync>(
    engine: &mut Engine<W>,
    rt: &R,
    alloc: Global,
    desk: Desk<W>,
    queue: &Receiver<Task<W>>,
    reports: &Sender<Report<W>>,
    threads: usize,
    limit: u64,
) -> u64
    requires kept { InOrder W.meaning engine.old }
    ensures same_plan { engine.new.plan ≡ engine.old.plan }
    ensures happened { HasDone W.meaning result engine.old engine.new }
    ensures within { result ≤ limit }
{
    let mut desk = Some(desk);
    let mut driver = || -> u64
        requires { InOrder W.meaning engine.now }
        ensures { (engine.exit.now.plan ≡ engine.entry.now.plan)
            × HasDone W.meaning result engine.entry.now engine.exit.now × (result ≤ limit) }
    {
        match desk.take() {
            Some(mut desk) => engine.drive(rt, alloc, &mut desk, limit),
            None => 0,
        }
    };
    run_beside(rt, alloc, queue, reports, threads, &mut driver)
}
