//! Has a network go on for a caller that waits for something, at an exit or at an input.
ghost use Rattle.std.specs.Prelude.{◌≡◌, OnOk};
ghost use Rattle.flow_input.specs.Sends.{has_answer};
ghost use Rattle.flow_moves.specs.Ways.{exit_in, input_in};
ghost use Rattle.flow_net.specs.Engine.{InOrder};
ghost use Rattle.flow_net.specs.Serves.{has_enough, has_enough_for};
ghost use Rattle.flow_moves.specs.Sights.{comes_near};

use crate::engine::Engine;
use crate::fault::NetFault;
use flow_exit::ExitEnd;
use flow_link::TargetStage;
use flow_value::Runs;
use std::alloc::{AllocError, Global};

/// Who waits for a network to go on.
#[derive(Clone, Copy)]
pub(crate) enum Caller {
    /// The caller of the exit at this place among all exits, at which a receive waits or none does.
    Exit(usize, bool),
    /// The caller of the input at this place among all inputs.
    Input(usize),
}

/// Whether a message is offered to an end that stands so, or comes.
pub(crate) fn comes_near(stage: TargetStage) -> bool
    ensures { result ≡ comes_near stage }
{
    match stage {
        TargetStage::Offered(_)
        | TargetStage::Posted(_)
        | TargetStage::Postponed(_)
        | TargetStage::Accepted(_)
        | TargetStage::Consuming(_)
        | TargetStage::Arrived(_)
        | TargetStage::Hand(_) => true,
        TargetStage::Free
        | TargetStage::Asking(_)
        | TargetStage::Holding(_)
        | TargetStage::Claiming(_)
        | TargetStage::Refused(_)
        | TargetStage::Ended(_) => false,
    }
}

/// Whether the end of an exit has what its caller waits for: a message that is kept, how its block ended, or, where no receive
/// waits, a message that is offered or comes.
fn has_enough(exit: &ExitEnd, waits: bool) -> bool
    ensures { result ≡ has_enough waits exit.now }
{
    exit.kept().is_some() || exit.outcome().is_some() || (!waits && comes_near(exit.stage()))
}

/// Whether memory was out. That ids are used up ends a look, and is no refusal of it.
pub(crate) fn memory_of(served: &Result<(), NetFault>) -> Result<(), AllocError> {
    match served {
        Err(NetFault::Memory) => Err(AllocError),
        Err(NetFault::Ids | NetFault::NotEnabled) | Ok(()) => Ok(()),
    }
}

impl<W: Runs> Engine<W> {
    ghost use Rattle.flow_net.specs.Engine.{GoesOnIn, ServesIn};

    /// Does events, at most so many, until there is enough for this caller. Looks at all links only where nothing that is
    /// listed may happen.
    pub(crate) fn serve(
        &mut self,
        alloc: Global,
        caller: Caller,
        limit: u64,
    ) -> Result<(), NetFault>
        requires kept { InOrder W.meaning self.old }
        ensures same_plan { self.new.plan ≡ self.old.plan }
        ensures served { OnOk result (ServesIn W.meaning caller limit self.old self.new) }
        ensures goes_on { GoesOnIn W.meaning limit self.old self.new }
    {
        let mut rest = limit;
        while rest > 0 && !self.has_enough_for(caller) {
            match self.carry_on(alloc, rest)? {
                0 => match self.next_event()? {
                    Some(event) => rest -= self.advance(alloc, &event, rest)?,
                    None => return Ok(()),
                },
                count => rest -= count,
            }
        }
        Ok(())
    }

    /// Whether there is what this caller waits for.
    fn has_enough_for(&self, caller: Caller) -> bool
        ensures { result ≡ has_enough_for caller self.now.parts }
    {
        match caller {
            Caller::Exit(place, waits) => self.exit_has_enough(place, waits),
            Caller::Input(place) => self.input_has_answer(place),
        }
    }

    /// Whether the exit at this place has what its caller waits for.
    fn exit_has_enough(&self, place: usize, waits: bool) -> bool
        ensures { result ≡ has_enough waits (exit_in self.now.parts place) }
    {
        match self.parts.find_exit(place) {
            Some(exit) => has_enough(exit, waits),
            None => false,
        }
    }

    /// Whether it is known at the input at this place what became of a value.
    fn input_has_answer(&self, place: usize) -> bool
        ensures { result ≡ has_answer (input_in self.now.parts place) }
    {
        match self.parts.find_input(place) {
            Some(input) => input.has_answer(),
            None => false,
        }
    }
}
