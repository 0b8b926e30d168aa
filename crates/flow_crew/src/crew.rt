//! The workers of a round, joined by halves.
ghost use Rattle.std.specs.Prelude.{◌≡◌, ◌≤◌, ◌<◌, ◌+◌, [], Some};
ghost use Rattle.std.specs.Thread.{IsSend, IsSync};
ghost use Rattle.crossbeam_queue.specs.Passes.{view, IsPassOf};

use crate::bell::{Bell, Lull};
use crate::item::Round;
use crate::laws::{crosses, is_shared, items_cross};
use crate::rule::{Halves, Queue, Ticket};
use crate::shift::Hours;
use crate::worker::{Done, Worker};
use flow_board::{Board, Gate, boards_are_shared};
use flow_value::Runs;
use std::alloc::Global;
use std::collections::VecDeque;
use std::sync::Wait;
use std::thread::{Threads, join};
use std::time::Clock;

/// What a worker is told of the round.
#[derive(Clone, Copy)]
pub(crate) struct Share {
    /// How many tasks it takes at a time, of how many.
    pub(crate) chunk: usize,
    pub(crate) tasks: usize,
    /// How many events it does at most.
    pub(crate) budget: u64,
}

impl Share {
    /// The shares of the others of so many workers, and of so few of them, which get their part of the budget.
    fn halves(self, few: usize, workers: usize) -> (Share, Share)
        requires { 0 < workers }
        ensures within { result.0.budget + result.1.budget ≡ self.budget }
    {
        let budget = (self.budget / workers as u64)
            .saturating_mul(few as u64)
            .min(self.budget);
        let others = Share {
            budget: self.budget - budget,
            ..self
        };
        (others, Share { budget, ..self })
    }
}

/// One worker: it takes tasks, turns them and puts them back, until none moves. Once its budget is used it does jobs of lanes alone, which
/// are no events; it ends with the hours. Its pass comes back as it was.
fn work<W: Runs, J: Round<W>, R: Wait + Clock, G: Gate>(
    rt: &R,
    alloc: Global,
    board: &Board<W>,
    queue: &Queue<W, J>,
    bell: &Bell,
    hours: &Hours,
    pass: Ticket<W, J>,
    share: Share,
    gate: &G,
) -> (Ticket<W, J>, Done)
    requires board { J.board ≡ Some board.now }
    requires queue { IsPassOf queue.now pass }
    requires pass { (0 < (view pass).parts) × ((view pass).holds ≡ []) }
    ensures queue { IsPassOf queue.now result.0 }
    ensures pass { ((view result.0).parts ≡ (view pass).parts) × ((view result.0).holds ≡ []) }
    ensures within { result.1.events ≤ share.budget }
{
    let chunk = share.chunk;
    let Ok(held) = VecDeque::with_capacity(alloc, chunk) else {
        bell.end();
        return (pass, Done::nothing().refused());
    };
    let mut worker = Worker::new(pass, held);
    let mut lull = Lull::new(bell);
    let mut events = 0;
    let mut refused = false;
    bell.come();
    for _ in rt.forever() {
        if refused || bell.is_over() || hours.is_over(rt, 0) {
            break;
        }
        lull.listen(bell);
        let budget = share.budget - events;
        let (done, taken) = worker.turn_some(
            rt, alloc, board, queue, bell, hours, chunk, budget, gate,
        );
        events += done.events;
        hours.count(done.events);
        refused = done.refused;
        if refused {
            bell.end();
        } else if done.moved {
            lull.moved(bell);
        } else {
            lull.lay_still(rt, bell, taken, share.tasks);
        }
    }
    worker.put_all(rt, queue, bell);
    bell.leave();
    let done = Done {
        events,
        refused,
        ..Done::nothing()
    };
    (worker.end(), done)
}

/// So many workers, each with its share of the budget. The pass comes back as it was, so nothing is held when they are done.
pub(crate) fn crew<
    W: Runs + Send + Sync,
    J: Round<W> + Send + Sync,
    R: Threads + Wait + Clock + Sync,
    G: Gate + Sync,
>(
    rt: &R,
    alloc: Global,
    board: &Board<W>,
    queue: &Queue<W, J>,
    bell: &Bell,
    hours: &Hours,
    mut pass: Ticket<W, J>,
    workers: usize,
    share: Share,
    gate: &G,
) -> (Ticket<W, J>, Done)
    requires board { J.board ≡ Some board.now }
    requires queue { IsPassOf queue.now pass }
    requires pass { (workers ≤ (view pass).parts) × (0 < (view pass).parts) × ((view pass).holds ≡ []) }
    ensures queue { IsPassOf queue.now result.0 }
    ensures pass { ((view result.0).parts ≡ (view pass).parts) × ((view result.0).holds ≡ []) }
    ensures within { result.1.events ≤ share.budget }
{
    if workers < 2 {
        return work(rt, alloc, board, queue, bell, hours, pass, share, gate);
    }
    items_cross::<W, J>();
    crosses::<Ticket<W, J>>();
    is_shared::<Queue<W, J>>();
    boards_are_shared::<W>();
    let low = workers / 2;
    let high = workers - low;
    let (upper, lower) = share.halves(low, workers);
    let other = queue.another::<Halves>(&mut pass);
    let front = move || -> (Ticket<W, J>, Done)
        requires { IsSend W.row × IsSync W.row × IsSend J.row × IsSync J.row × IsSync R.row × IsSync G.row × (J.board ≡ Some board.now) × IsPassOf queue.now pass
            × (high ≤ (view pass).parts) × (0 < (view pass).parts) × ((view pass).holds ≡ []) }
        ensures { IsPassOf queue.entry.now result.0 × ((view result.0).parts ≡ (view pass).parts) × ((view result.0).holds ≡ [])
            × (result.1.events ≤ upper.budget) }
    {
        crew(
            rt, alloc, board, queue, bell, hours, pass, high, upper, gate,
        )
    };
    let back = move || -> (Ticket<W, J>, Done)
        requires { IsSend W.row × IsSync W.row × IsSend J.row × IsSync J.row × IsSync R.row × IsSync G.row × (J.board ≡ Some board.now) × IsPassOf queue.now other
            × (low ≤ (view other).parts) × (0 < (view other).parts) × ((view other).holds ≡ []) }
        ensures { IsPassOf queue.entry.now result.0 × ((view result.0).parts ≡ (view other).parts) × ((view result.0).holds ≡ [])
            × (result.1.events ≤ lower.budget) }
    {
        crew(
            rt, alloc, board, queue, bell, hours, other, low, lower, gate,
        )
    };
    let ((mut pass, first), (other, second)) = join(rt, front, back);
    queue.absorb::<Halves>(&mut pass, other);
    (pass, first.and(second))
}
