//! How a run ended, and the status that the program ends with.
ghost use Rattle.std.specs.Prelude.{◌≡◌};
ghost use Rattle.flow_run.specs.Status.{status_of, run_status, fault_status};

use flow_net::Settled;
use flow_text::{TextFault, TextRefusal};

/// What a run came to.
#[derive(Clone, Copy, Debug, PartialEq, Eq)]
pub struct Ran {
    pub settled: Settled,
    /// Every block is done, and nothing waits at an input.
    pub complete: bool,
}

/// Why there was no run, or no report of it.
#[derive(Clone, Copy, Debug, PartialEq, Eq, thiserror::Error)]
pub enum RunRefusal {
    /// A text was refused, or could not be read or written.
    Text(TextFault),
    /// A block has no id left for its next message.
    Ids,
    /// There was no memory for it.
    Memory,
}

impl From<TextRefusal> for RunRefusal {
    ghost use Rattle.flow_run.specs.Refusal.{refusal_of};
    ghost use Rattle.std.specs.Prelude.{◌≡◌};

    ghost from_gives = { λ text refusal. refusal ≡ refusal_of text };

    fn from(refusal: TextRefusal) -> RunRefusal {
        match refusal {
            TextRefusal::Fault(fault) => RunRefusal::Text(fault),
            TextRefusal::Memory => RunRefusal::Memory,
        }
    }
}

/// The status that the program ends with: 0 where all went through, else what kept it from that.
pub fn status(outcome: &Result<Ran, RunRefusal>) -> u8
    ensures { result ≡ status_of outcome.now }
{
    match outcome {
        Ok(ran) => status_of_run(ran),
        Err(RunRefusal::Text(fault)) => status_of_fault(fault),
        Err(RunRefusal::Ids) => 3,
        Err(RunRefusal::Memory) => 4,
    }
}

fn status_of_run(ran: &Ran) -> u8
    ensures { result ≡ run_status ran.now }
{
    match ran.settled {
        Settled::Quiet if ran.complete => 0,
        Settled::Quiet => 1,
        Settled::Stopped => 3,
    }
}

fn status_of_fault(fault: &TextFault) -> u8
    ensures { result ≡ fault_status fault.now }
{
    match fault {
        TextFault::Read | TextFault::Write => 5,
        _ => 2,
    }
}
