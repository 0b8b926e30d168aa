//! What a caller in another language keeps of a network.
ghost use Rattle.std.specs.Prelude.{◌≡◌, Option, Some, None, MatchOption};
ghost use Rattle.std.specs.Coded.{coded_option};
ghost use Rattle.bevelrose_c.specs.contracts.network.Network.{the_row};

use crate::loose::Loose;
use crate::network::Network;
use std::alloc::Global;
use std::marker::Model;
use std::mem;
use std::ptr::null_mut;

/// A network, or none: then its pointer is null. In C it is a struct of one pointer.
#[repr(C)]
pub struct Handle {
    at: *mut u8,
    alloc: Global,
    pub ghost held: { Option the_row.Denot } by { coded_option the_row.coded },
}

impl Model for Handle {
    ghost use Rattle.bevelrose_c.specs.contracts.network.Network.{the_row};
    ghost use Rattle.bevelrose_c.specs.Owned.{handle_owns};
    ghost use Rattle.std.specs.Coded.{coded_option};

    ghost also_owns = { λ handle. handle_owns the_row handle.alloc handle.at handle.held };
}

impl Handle {
    /// One that holds nothing.
    fn none(alloc: Global) -> Handle
        ensures { result.held ≡ None }
    {
        Handle {
            at: null_mut(),
            alloc,
        }
    }

    fn of_loose(loose: Loose<Network, Global>) -> Handle
        ensures { result.held ≡ Some loose.value }
    {
        let Loose { at, alloc } = loose;
        Handle {
            at: at as *mut u8,
            alloc,
        }
    }

    fn into_loose(self) -> Option<Loose<Network, Global>>
        ensures { MatchOption result (self.held ≡ None) (λ loose. self.held ≡ Some loose.value) }
    {
        let Handle { at, alloc } = self;
        if at.is_null() {
            return None;
        }
        Some(Loose {
            at: at as *mut Network,
            alloc,
        })
    }

    /// Takes out what it holds, and leaves it with nothing.
    pub fn take(&mut self, alloc: Global) -> Option<Box<Network>>
        ensures empty { self.new.held ≡ None }
        ensures taken { MatchOption result (self.old.held ≡ None) (λ network. self.old.held ≡ Some network.value) }
    {
        let loose = mem::replace(self, Handle::none(alloc)).into_loose()?;
        Some(loose.into_box())
    }

    /// Has it hold this network, and lets go what it held.
    pub fn put(&mut self, network: Box<Network>)
        ensures { self.new.held ≡ Some network.value }
    {
        *self = Handle::of_loose(Loose::of(network));
    }
}

impl Drop for Handle {
    fn drop(self) {
        if let Some(loose) = self.into_loose() {
            drop(loose.into_box());
        }
    }
}
