//! A worker: its pass names the tasks that it holds.
ghost use Rattle.std.specs.Prelude.{◌≡◌, ◌≤◌, ◌<◌, ◌+◌, ◌^◌, [], ◌∷◌, drop, Some, IsFalse, IsTrue};
ghost use Rattle.std.specs.VecDeque.{deque_len};
ghost use Rattle.crossbeam_queue.specs.Passes.{view, IsPassOf};
ghost use Rattle.flow_crew.specs.Rules.{hand};

use crate::bell::Bell;
use crate::item::{Item, Round};
use crate::rule::{Puts, Queue, Takes, Ticket};
use crate::shift::Hours;
use flow_board::{Board, Gate};
use flow_poll::{TurnState, Turned};
use flow_value::Runs;
use std::alloc::{AllocError, Global};
use std::collections::VecDeque;
use std::sync::Wait;
use std::time::Clock;

/// How many events a task does at a time.
const TURN: u64 = 64;

/// How many events a worker does, at most, while a job that has come to a lane which it holds waits for it. With few, lanes would lie empty
/// later, since a message takes several turns of both blocks from one to the next.
const AHEAD: u64 = 256;

/// What a worker did: how many events, whether a task moved, whether a job waits in a lane that it holds, and whether memory was refused.
#[derive(Clone, Copy)]
pub(crate) struct Done {
    pub(crate) events: u64,
    pub(crate) moved: bool,
    pub(crate) job: bool,
    pub(crate) refused: bool,
}

impl Done {
    /// Nothing.
    pub(crate) fn nothing() -> Done
        ensures events { result.events ≡ 0 }
    {
        Done {
            events: 0,
            moved: false,
            job: false,
            refused: false,
        }
    }

    /// Memory was refused.
    pub(crate) fn refused(self) -> Done
        ensures events { result.events ≡ self.events }
    {
        Done {
            refused: true,
            ..self
        }
    }

    /// With what came of one turn.
    fn with(self, turned: Turned) -> Done
        requires { self.events + turned.events < 2 ^ 64 }
        ensures events { result.events ≡ self.events + turned.events }
    {
        Done {
            events: self.events + turned.events as u64,
            moved: self.moved || turned.state == TurnState::Moved,
            ..self
        }
    }

    /// With what another worker did: the events of both, and whether memory was refused to one of them.
    pub(crate) fn and(self, other: Done) -> Done
        requires { self.events + other.events < 2 ^ 64 }
        ensures events { result.events ≡ self.events + other.events }
    {
        Done {
            events: self.events + other.events,
            refused: self.refused || other.refused,
            ..Done::nothing()
        }
    }
}

pub(crate) struct Worker<W: Runs, J: Round<W>> {
    pub(crate) pass: Ticket<W, J>,
    /// The tasks that it holds, in the order in which it took them.
    pub(crate) held: VecDeque<Item<W, J>>,
    ghost names: { (view pass).holds ≡ held.items },
}

impl<W: Runs, J: Round<W>> Worker<W, J> {
    pub(crate) fn new(pass: Ticket<W, J>, held: VecDeque<Item<W, J>>) -> Worker<W, J>
        requires names { (view pass).holds ≡ held.items }
        ensures pass { result.pass ≡ pass }
    {
        Worker { pass, held }
    }

    /// Takes a task from the queue, where there is one and room for it.
    fn take(&mut self, queue: &Queue<W, J>) -> bool
        requires queue { IsPassOf queue.now self.old.pass }
        requires part { 0 < (view self.old.pass).parts }
        ensures queue { IsPassOf queue.now self.new.pass }
        ensures part { (view self.new.pass).parts ≡ (view self.old.pass).parts }
    {
        if self.held.len() >= self.held.capacity() {
            return false;
        }
        match queue.try_pop_as::<Takes<J>>(&mut self.pass) {
            Some(item) => {
                self.held.push_back_reserved(item);
                true
            }
            None => false,
        }
    }

    /// Whether the task that was taken last is a lane to which a job has come.
    fn has_job_last(&mut self) -> bool
        ensures pass { self.new.pass ≡ self.old.pass }
    {
        match self.held.back_mut() {
            Some(item) => item.has_job(),
            None => false,
        }
    }

    /// Takes at most so many, up to the first lane to which a job has come. Whether the last is one.
    fn take_some(&mut self, queue: &Queue<W, J>, count: usize) -> bool
        requires queue { IsPassOf queue.now self.old.pass }
        requires part { 0 < (view self.old.pass).parts }
        ensures queue { IsPassOf queue.now self.new.pass }
        ensures part { (view self.new.pass).parts ≡ (view self.old.pass).parts }
    {
        for _ in 0..count {
            if !self.take(queue) {
                return false;
            }
            if self.has_job_last() {
                return true;
            }
        }
        false
    }

    /// Puts the first task back, if there is one.
    fn put<R: Wait>(&mut self, rt: &R, queue: &Queue<W, J>, bell: &Bell) -> bool
        requires queue { IsPassOf queue.now self.old.pass }
        requires part { 0 < (view self.old.pass).parts }
        ensures queue { IsPassOf queue.now self.new.pass }
        ensures part { (view self.new.pass).parts ≡ (view self.old.pass).parts }
        ensures fewer { IsTrue result → deque_len self.new.held < deque_len self.old.held }
        ensures none { IsFalse result → self.new.held.items ≡ [] }
    {
        let Some(item) = self.held.pop_front() else {
            return false;
        };
        put_back(rt, queue, bell, &mut self.pass, item);
        true
    }

    /// Puts all but the last back.
    fn put_others<R: Wait>(&mut self, rt: &R, queue: &Queue<W, J>, bell: &Bell)
        requires queue { IsPassOf queue.now self.old.pass }
        requires part { 0 < (view self.old.pass).parts }
        ensures queue { IsPassOf queue.now self.new.pass }
        ensures part { (view self.new.pass).parts ≡ (view self.old.pass).parts }
    {
        while self.held.len() > 1 {
            if !self.put(rt, queue, bell) {
                break;
            }
        }
    }

    /// Puts all back.
    pub(crate) fn put_all<R: Wait>(&mut self, rt: &R, queue: &Queue<W, J>, bell: &Bell)
        requires queue { IsPassOf queue.now self.old.pass }
        requires part { 0 < (view self.old.pass).parts }
        ensures queue { IsPassOf queue.now self.new.pass }
        ensures part { (view self.new.pass).parts ≡ (view self.old.pass).parts }
        ensures none { self.new.held.items ≡ [] }
    {
        while self.put(rt, queue, bell) {}
    }

    /// Takes at most so many tasks, turns them for at most so many events, and puts them back. What came of it, and how many tasks it took.
    pub(crate) fn turn_some<R: Wait + Clock, G: Gate>(
        &mut self,
        rt: &R,
        alloc: Global,
        board: &Board<W>,
        queue: &Queue<W, J>,
        bell: &Bell,
        hours: &Hours,
        count: usize,
        budget: u64,
        gate: &G,
    ) -> (Done, usize)
        requires board { J.board ≡ Some board.now }
        requires queue { IsPassOf queue.now self.old.pass }
        requires part { 0 < (view self.old.pass).parts }
        ensures queue { IsPassOf queue.now self.new.pass }
        ensures part { (view self.new.pass).parts ≡ (view self.old.pass).parts }
        ensures within { result.0.events ≤ budget }
    {
        let has_job = self.take_some(queue, count);
        let taken = self.held.len();
        let done = if has_job {
            self.turn_to_job(rt, alloc, board, queue, bell, hours, budget, gate)
        } else {
            self.turn_all(rt, alloc, board, bell, hours, budget, gate)
        };
        self.put_all(rt, queue, bell);
        (done, taken)
    }

    /// Does the job that has come to the lane which is held last.
    fn do_job<G: Gate>(&mut self, alloc: Global, board: &Board<W>, gate: &G) -> Done
        requires board { J.board ≡ Some board.now }
        ensures pass { self.new.pass ≡ self.old.pass }
        ensures events { result.events ≡ 0 }
    {
        let Some(lane) = self.held.back_mut() else {
            return Done::nothing();
        };
        match lane.turn(alloc, board, 0, gate) {
            Ok(_) => Done {
                moved: true,
                ..Done::nothing()
            },
            Err(AllocError) => Done::nothing().refused(),
        }
    }

    /// Turns what it took before the last task, a lane to which a job has come, for some events while any moves; then it puts all that back,
    /// and does the job.
    fn turn_to_job<R: Wait + Clock, G: Gate>(
        &mut self,
        rt: &R,
        alloc: Global,
        board: &Board<W>,
        queue: &Queue<W, J>,
        bell: &Bell,
        hours: &Hours,
        budget: u64,
        gate: &G,
    ) -> Done
        requires board { J.board ≡ Some board.now }
        requires queue { IsPassOf queue.now self.old.pass }
        requires part { 0 < (view self.old.pass).parts }
        ensures queue { IsPassOf queue.now self.new.pass }
        ensures part { (view self.new.pass).parts ≡ (view self.old.pass).parts }
        ensures within { result.events ≤ budget }
    {
        let others = self.held.len().saturating_sub(1);
        let turned = self.turn_first(
            rt,
            alloc,
            board,
            bell,
            hours,
            others,
            budget.min(AHEAD),
            gate,
        );
        self.put_others(rt, queue, bell);
        bell.ring();
        if turned.refused {
            return turned;
        }
        let done = self.do_job(alloc, board, gate);
        Done {
            events: turned.events,
            ..done
        }
    }

    /// Turns each task that is held again and again, while any moves and the budget and the hours last, but not for long once a job has
    /// come to a lane among them.
    fn turn_all<R: Clock, G: Gate>(
        &mut self,
        rt: &R,
        alloc: Global,
        board: &Board<W>,
        bell: &Bell,
        hours: &Hours,
        budget: u64,
        gate: &G,
    ) -> Done
        requires board { J.board ≡ Some board.now }
        ensures pass { self.new.pass ≡ self.old.pass }
        ensures within { result.events ≤ budget }
    {
        let tasks = self.held.len();
        self.turn_first(rt, alloc, board, bell, hours, tasks, budget, gate)
    }

    /// The same of so many of them, the first. Each time that any has moved it rings, since tasks of others may move then.
    fn turn_first<R: Clock, G: Gate>(
        &mut self,
        rt: &R,
        alloc: Global,
        board: &Board<W>,
        bell: &Bell,
        hours: &Hours,
        tasks: usize,
        budget: u64,
        gate: &G,
    ) -> Done
        requires board { J.board ≡ Some board.now }
        requires tasks { tasks ≤ deque_len self.old.held }
        ensures pass { self.new.pass ≡ self.old.pass }
        ensures within { result.events ≤ budget }
    {
        let mut done = Done::nothing();
        for _ in 0..budget {
            let more = self.turn_once(alloc, board, tasks, budget - done.events, gate);
            done = Done {
                events: done.events + more.events,
                moved: done.moved || more.moved || more.job,
                job: more.job,
                refused: more.refused,
            };
            if more.refused || more.events == 0 || (more.job && done.events >= AHEAD) {
                break;
            }
            bell.ring();
            if hours.is_over(rt, done.events) {
                break;
            }
        }
        done
    }

    /// Turns each of so many tasks once, the first that are held and of these the last first, but lanes to which a job has come. It stops
    /// where memory is refused.
    fn turn_once<G: Gate>(
        &mut self,
        alloc: Global,
        board: &Board<W>,
        tasks: usize,
        budget: u64,
        gate: &G,
    ) -> Done
        requires board { J.board ≡ Some board.now }
        requires tasks { tasks ≤ deque_len self.old.held }
        ensures pass { self.new.pass ≡ self.old.pass }
        ensures held { deque_len self.new.held ≡ deque_len self.old.held }
        ensures within { result.events ≤ budget }
    {
        let mut done = Done::nothing();
        for k in 0..tasks {
            let at = tasks - 1 - k;
            if self.held[at].has_job() {
                done.job = true;
                continue;
            }
            let most = (budget - done.events).min(TURN) as u32;
            match self.held[at].turn(alloc, board, most, gate) {
                Ok(turned) => done = done.with(turned),
                Err(AllocError) => return done.refused(),
            }
        }
        done
    }

    /// Its pass, once it holds nothing.
    pub(crate) fn end(self) -> Ticket<W, J>
        requires empty { self.held.items ≡ [] }
        ensures pass { result ≡ self.pass }
        ensures none { (view result).holds ≡ [] }
    {
        let Worker { pass, held } = self;
        drop(held);
        pass
    }
}

/// Puts the task that a pass holds first back into the queue. Where another thread is in the way, it waits until that has gone on; the queue
/// has room for all tasks.
fn put_back<W: Runs, J: Round<W>, R: Wait>(
    rt: &R,
    queue: &Queue<W, J>,
    bell: &Bell,
    pass: &mut Ticket<W, J>,
    item: Item<W, J>,
)
    requires queue { IsPassOf queue.now pass.old }
    requires part { 0 < (view pass.old).parts }
    requires first { (view pass.old).holds ≡ item ∷ drop 1 (view pass.old).holds }
    ensures queue { IsPassOf queue.now pass.new }
    ensures view { view pass.new ≡ hand (view pass.old).parts (drop 1 (view pass.old).holds) }
{
    let mut item = item;
    let mut tries = 0;
    for _ in rt.forever() {
        match queue.try_push_as::<Puts<J>>(pass, item) {
            Ok(()) => return,
            Err(back) => item = back,
        }
        bell.give_way(rt, tries);
        tries = tries.saturating_add(1);
    }
    unreachable!()
}
