//! Why a network cannot go on.
use flow_outlet::OutletFault;
use std::alloc::AllocError;
use thiserror::Error;

/// Why an event is not done. The network is as it was before that event.
#[derive(Clone, Copy, Debug, PartialEq, Eq, Error)]
pub enum NetFault {
    /// The event may not happen now.
    #[error("the event may not happen now")]
    NotEnabled,
    /// A message would need an id above 2^59 - 1.
    #[error("message ids are used up")]
    Ids,
    /// There is no memory for it.
    #[error("out of memory")]
    Memory,
}

impl From<AllocError> for NetFault {
    ghost use Rattle.std.specs.Prelude.{◌≡◌};
    ghost use Rattle.flow_net.specs.declared.fault.NetFault.TheVariants.{Memory};

    ghost from_gives = { λ _ fault. fault ≡ Memory };

    fn from(_error: AllocError) -> NetFault {
        NetFault::Memory
    }
}

impl From<OutletFault> for NetFault {
    ghost use Rattle.std.specs.Prelude.{◌≡◌};
    ghost use Rattle.flow_net.specs.Told.{fault_of};

    ghost from_gives = { λ given fault. fault ≡ fault_of given };

    fn from(fault: OutletFault) -> NetFault {
        match fault {
            OutletFault::Ids => NetFault::Ids,
            OutletFault::Memory => NetFault::Memory,
        }
    }
}
