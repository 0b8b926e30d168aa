//! A way out, in memory.
ghost use Rattle.std.specs.Prelude.{◌≡◌, [], refl};
ghost use Rattle.std.proofs.Common.{◌∙◌};
ghost use Rattle.flow_low_rows.specs.Shelf.{sight_of, over_stays};

use flow_link::Outcome;
use flow_poll::{ReceivePort, Received};
use flow_value::Value;
use std::alloc::{AllocError, Global};

/// Gives the messages that it keeps, and ends behind them, or does not.
#[derive(Drop)]
pub(crate) struct Shelf {
    pub(crate) kept: Vec<Value>,
    pub(crate) received: Vec<Value>,
    pub(crate) ends: Option<Outcome>,
    pub(crate) has_memory: bool,
}

impl ReceivePort for Shelf {
    ghost receives = { λ s. record { received = s.received.items; sight = sight_of s.kept.items s.ends } };

    ghost goes_on = { λ old new. (old.kept.items ≡ [] → new.kept.items ≡ []) × (new.ends ≡ old.ends) };

    ghost stays = { λ _. (λ e. e, refl) };

    ghost goes_further = { λ _ _ _ head tail. (λ e. tail.0 (head.0 e), tail.1 ∙ head.1) };

    ghost over = { λ first last goes. over_stays first.kept.items last.kept.items first.ends last.ends goes.0 goes.1 };

    fn try_receive(&mut self, alloc: Global) -> Result<Received, AllocError> {
        if !self.has_memory {
            return Err(AllocError);
        }
        let Some(last) = self.kept.last() else {
            return Ok(match self.ends {
                Some(how) => Received::Ended(how),
                None => Received::Waiting,
            });
        };
        let copy = last.copy(alloc)?;
        self.received.push(copy)?;
        match self.kept.pop() {
            Some(value) => Ok(Received::Message(value)),
            None => unreachable!(),
        }
    }

    fn available(&mut self, _alloc: Global) -> Result<Option<bool>, AllocError> {
        if !self.has_memory {
            return Err(AllocError);
        }
        if !self.kept.is_empty() {
            return Ok(Some(true));
        }
        Ok(match self.ends {
            Some(_) => Some(false),
            None => None,
        })
    }
}
