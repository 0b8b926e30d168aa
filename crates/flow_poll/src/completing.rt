//! Waits for the end of a block.
ghost use Rattle.std.specs.Prelude.{◌≡◌, ⊤, IsSome, IsSomeAnd};
ghost use Rattle.flow_poll.specs.Completes.{Completes};
ghost use Rattle.flow_poll.specs.Held.{completing};

use flow_link::{Completing, Outcome};
use futures::Future;
use futures::task::{Context, Poll};
use std::alloc::Global;

/// Waits until a block has ended.
///
/// Microsoft: `IDataflowBlock.Completion`.
#[derive(Drop)]
pub struct Completion<B> {
    block: Option<B>,
}

impl<B: Completing + Drop> Completion<B> {
    /// Its polls take no memory; the allocator is taken so that all futures are made alike.
    pub fn new(_alloc: Global, block: B) -> Completion<B>
        ensures { completing result ≡ Some block }
    {
        Completion { block: Some(block) }
    }

    /// The block of a future that is not ready.
    pub fn into_block(self) -> B
        requires { IsSome (completing self) }
        ensures { completing self ≡ Some result }
    {
        let Completion { block } = self;
        let Some(block) = block else { unreachable!() };
        block
    }
}

impl<B: Completing + Drop> Future for Completion<B> {
    type Output = (B, Outcome);

    ghost can_poll = { λ f. IsSomeAnd (completing f) (λ _. ⊤) };

    // It waits for whatever may happen: a pending poll has yielded.
    ghost needs = { λ _ _. ⊤ };

    ghost gives = { λ f given. IsSomeAnd (completing f) (λ block. Completes B.outcome B.learns block given.0 given.1) };

    fn poll(&mut self, cx: &mut Context<'_>) -> Poll<Self::Output> {
        let Some(mut block) = self.block.take() else {
            unreachable!()
        };
        match block.completion() {
            Some(outcome) => Poll::Ready((block, outcome)),
            None => {
                self.block = Some(block);
                cx.yield_now()
            }
        }
    }
}
