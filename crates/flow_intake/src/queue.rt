//! The offers that wait, oldest first.
ghost use Rattle.std.specs.Prelude.{◌≡◌, ℕ, ◌<◌, ◌≤◌, ◌+◌, [], ◌∷◌, ◌++◌, true, false, length, max, OnOk, OnErr};
ghost use Rattle.std.specs.VecDeque.{deque_len, deque_capacity};
ghost use Rattle.flow_intake.specs.Calls.{first_of};
ghost use Rattle.flow_link.specs.Lists.{is_empty};
ghost use Rattle.flow_intake.specs.Queue.{PlaceQueue, without, stands as stands_now, standing};
ghost use Rattle.flow_intake.specs.Queue.{ArePlaced, AreNumbered, FirstStands};

use std::alloc::{AllocError, Global};
use std::collections::VecDeque;
use std::marker::Model;

/// A place that joined, with the number that it drew.
#[derive(Clone, Copy)]
pub(crate) struct Entry {
    pub place: usize,
    pub number: u64,
}

/// Places in the order in which they joined, of which each stands there once at most.
///
/// A place leaves at once, wherever it stands: its entry stays behind, and counts no more, since the place has no turn
/// with that number.
#[derive(Drop)]
pub(crate) struct Queue {
    entries: VecDeque<Entry>,
    /// Of each place the number of the entry that stands, or 0.
    turns: Vec<u64>,
    /// The number that was drawn last.
    last: u64,
    /// There is room for one more entry, and a number for it.
    ready: bool,
}

impl Model for Queue {
    ghost use Rattle.std.specs.Prelude.{◌≡◌, ◌<◌, ◌+◌, ◌^◌, length, true, cond};
    ghost use Rattle.std.specs.VecDeque.{deque_len, deque_capacity};
    ghost use Rattle.flow_intake.specs.Queue.{PlaceQueue, standing, ArePlaced, AreNumbered, FirstStands};

    ghost Value = { PlaceQueue };

    ghost view = { λ q. record {
      places = standing q.turns.items q.entries.items;
      count = length q.turns.items;
      has_room = q.ready;
    } };

    ghost invariant = { λ q. ArePlaced (length q.turns.items) q.entries.items ×
        AreNumbered q.last q.entries.items ×
        FirstStands q.turns.items q.entries.items ×
        (deque_len q.entries + cond q.ready 1 0 < deque_capacity q.entries + 1) ×
        (q.last + cond q.ready 1 0 < 2 ^ 64) };
}

impl Queue {
    /// An empty queue of no places.
    pub(crate) fn new(alloc: Global) -> Queue
        ensures { result ≡ record { places = []; count = 0; has_room = false } }
    {
        Queue {
            entries: VecDeque::new(alloc),
            turns: Vec::new(alloc),
            last: 0,
            ready: false,
        }
    }

    /// Whether no place stands in the queue.
    #[inline]
    pub(crate) fn is_empty(&self) -> bool
        ensures { result ≡ is_empty self.now.places }
    {
        self.entries.is_empty()
    }

    /// Makes this place one that may join, if it isn't: the next one after those that may.
    pub(crate) fn know(&mut self, place: usize) -> Result<(), AllocError>
        requires { place ≤ self.old.count }
        ensures known { OnOk result (self.new ≡ record self.old { count = max self.old.count (place + 1) }) }
        ensures kept { OnErr result (self.new ≡ self.old) }
    {
        if place == self.turns.len() {
            self.turns.push(0)?;
        }
        Ok(())
    }

    /// Sets aside room for one more to join. It is refused for good once 2^64 - 1 have joined, where no number is left.
    #[inline]
    pub(crate) fn prepare(&mut self) -> Result<(), AllocError>
        ensures ready { OnOk result (self.new ≡ record self.old { has_room = true }) }
        ensures kept { OnErr result (self.new ≡ self.old) }
    {
        if self.ready {
            return Ok(());
        }
        self.make_ready()
    }

    #[inline(never)]
    fn make_ready(&mut self) -> Result<(), AllocError>
        ensures ready { OnOk result (self.new ≡ record self.old { has_room = true }) }
        ensures kept { OnErr result (self.new ≡ self.old) }
    {
        if self.last == u64::MAX {
            return Err(AllocError);
        }
        drop_stale(&mut self.entries, &self.turns);
        self.entries.reserve(1)?;
        self.ready = true;
        Ok(())
    }

    /// The place joins at the end. If it stood in the queue, it leaves its old place there.
    pub(crate) fn join(&mut self, place: usize)
        requires known { place < self.old.count }
        requires room { self.old.has_room ≡ true }
        ensures { self.new ≡ record self.old {
          places = without place self.old.places ++ place ∷ [];
          has_room = false;
        } }
    {
        self.last += 1;
        self.ready = false;
        self.turns[place] = self.last;
        self.entries.push_back_reserved(Entry {
            place,
            number: self.last,
        });
        trim(&mut self.entries, &self.turns);
    }

    /// The place leaves, if it stands in the queue.
    pub(crate) fn leave(&mut self, place: usize)
        requires { place < self.old.count }
        ensures { self.new ≡ record self.old { places = without place self.old.places } }
    {
        self.turns[place] = 0;
        trim(&mut self.entries, &self.turns);
    }

    /// The place that has stood there longest.
    pub(crate) fn first(&self) -> Option<usize>
        ensures place { result ≡ first_of self.now.places }
    {
        match self.entries.front() {
            Some(entry) => Some(entry.place),
            None => None,
        }
    }
}

/// Whether the entry stands.
fn stands(turns: &[u64], entry: &Entry) -> bool
    ensures { result ≡ stands_now turns.now entry.now }
{
    turns.get(entry.place).copied().unwrap_or(0) == entry.number
}

/// Drops all entries that do not stand, where they are more than the places: so each of them pays for it once.
fn drop_stale(entries: &mut VecDeque<Entry>, turns: &[u64])
    requires placed { ArePlaced (length turns.now) entries.old.items }
    requires front { FirstStands turns.now entries.old.items }
    ensures same { standing turns.now entries.new.items ≡ standing turns.now entries.old.items }
    ensures front { FirstStands turns.now entries.new.items }
    ensures placed { ArePlaced (length turns.now) entries.new.items }
    ensures numbered { (last : ℕ) → AreNumbered last entries.old.items → AreNumbered last entries.new.items }
    ensures fewer { deque_len entries.new ≤ deque_len entries.old }
    ensures capacity { deque_capacity entries.new ≡ deque_capacity entries.old }
{
    if entries.len() / 2 > turns.len() {
        entries.retain(|entry| stands(turns, entry));
    }
}

/// Drops the entries in front that do not stand.
fn trim(entries: &mut VecDeque<Entry>, turns: &[u64])
    requires { ArePlaced (length turns.now) entries.old.items }
    ensures same { standing turns.now entries.new.items ≡ standing turns.now entries.old.items }
    ensures front { FirstStands turns.now entries.new.items }
    ensures placed { ArePlaced (length turns.now) entries.new.items }
    ensures numbered { (last : ℕ) → AreNumbered last entries.old.items → AreNumbered last entries.new.items }
    ensures fewer { deque_len entries.new ≤ deque_len entries.old }
    ensures capacity { deque_capacity entries.new ≡ deque_capacity entries.old }
{
    while let Some(entry) = entries.front() {
        if turns[entry.place] == entry.number {
            break;
        }
        entries.pop_front();
    }
}
