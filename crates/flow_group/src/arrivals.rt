//! The order in which messages came in over several ports.
ghost use Rattle.std.specs.Prelude.{◌≡◌, ◌<◌, ◌≤◌, ◌-◌, [], ◌∷◌, ◌++◌, length, take, drop, max, OnOk, OnErr};
ghost use Rattle.std.specs.VecDeque.{deque_len, deque_capacity};
ghost use Rattle.flow_link.specs.Lists.{is_empty};
ghost use Rattle.flow_group.specs.Group.{ArrivalsState, came_at, drops_group};

use std::alloc::{AllocError, Global};
use std::collections::VecDeque;
use std::marker::Model;

/// Of each message that is in no group yet the number of its port, in the order in which they came in.
///
/// Memory for an arrival is set aside before its message is wanted, so that noting it takes none.
#[derive(Drop)]
pub struct Arrivals {
    ports: VecDeque<usize>,
    /// For how many more memory is set aside.
    room: usize,
}

impl Model for Arrivals {
    ghost use Rattle.std.specs.Prelude.{◌≤◌, ◌+◌};
    ghost use Rattle.std.specs.VecDeque.{deque_len, deque_capacity};
    ghost use Rattle.flow_group.specs.Group.{ArrivalsState};

    ghost Value = { ArrivalsState };

    ghost view = { λ a. record { ports = a.ports.items; room = a.room } };

    ghost invariant = { λ a. deque_len a.ports + a.room ≤ deque_capacity a.ports };
}

impl Arrivals {
    /// Nothing has come in.
    pub fn new(alloc: Global) -> Arrivals
        ensures { result ≡ record { ports = []; room = 0 } }
    {
        Arrivals {
            ports: VecDeque::new(alloc),
            room: 0,
        }
    }

    /// How many messages are in no group yet.
    pub fn len(&self) -> usize
        ensures { result ≡ length self.now.ports }
    {
        self.ports.len()
    }

    /// Whether each message is in a group.
    pub fn is_empty(&self) -> bool
        ensures { result ≡ is_empty self.now.ports }
    {
        self.ports.is_empty()
    }

    /// For how many more memory is set aside.
    pub fn room(&self) -> usize
        ensures { result ≡ self.now.room }
    {
        self.room
    }

    /// Sets memory aside for so many arrivals.
    pub fn prepare(&mut self, count: usize) -> Result<(), AllocError>
        ensures done { OnOk result (self.new ≡ record self.old { room = max self.old.room count }) }
        ensures kept { OnErr result (self.new ≡ self.old) }
    {
        if self.room < count {
            self.ports.reserve(count)?;
            self.room = count;
        }
        Ok(())
    }

    /// A message came in at this port.
    pub fn note(&mut self, port: usize)
        requires { 0 < self.old.room }
        ensures { self.new ≡ record { ports = self.old.ports ++ port ∷ []; room = self.old.room - 1 } }
    {
        self.ports.push_back_reserved(port);
        self.room -= 1;
    }

    /// How many of the first messages, of a group of this size, came in at this port.
    pub(crate) fn came_at(&self, port: usize, size: u32) -> usize
        ensures { result ≡ came_at port (take size self.now.ports) }
    {
        count_of(&self.ports, port, size as usize)
    }

    /// Forgets the first messages, of a group of this size.
    pub(crate) fn drop_group(&mut self, size: u32)
        ensures { self.new ≡ drops_group size self.old }
    {
        drop_first(&mut self.ports, size as usize);
    }
}

/// How many of so many first messages came in at this port.
#[tactic(auto, using(crate::proofs::GroupsTaken::take_least, crate::proofs::GroupsTaken::came_next))]
fn count_of(ports: &VecDeque<usize>, port: usize, count: usize) -> usize
    ensures { result ≡ came_at port (take count ports.now.items) }
{
    let mut found = 0;
    for place in 0..count.min(ports.len()) {
        found += usize::from(ports[place] == port);
    }
    found
}

/// Forgets so many first messages, or all where there are fewer.
#[tactic(auto, using(crate::proofs::GroupsTaken::drop_least, crate::proofs::GroupsTaken::drop_next))]
fn drop_first(ports: &mut VecDeque<usize>, count: usize)
    ensures dropped { ports.new.items ≡ drop count ports.old.items }
    ensures fewer { deque_len ports.new ≤ deque_len ports.old }
    ensures capacity { deque_capacity ports.new ≡ deque_capacity ports.old }
{
    for _taken in 0..count.min(ports.len()) {
        ports.pop_front();
    }
}
