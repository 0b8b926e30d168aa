//! Turns one actor until it has nothing to do.
ghost use Rattle.std.specs.Prelude.{◌≡◌, ⊤, IsSome, IsSomeAnd};
ghost use Rattle.flow_poll.specs.Held.{running, running_limits};
ghost use Rattle.flow_poll.specs.Turns.{GoesFurther, IsDriven, TakesTurn};

use crate::actor::{Actor, TurnState};
use futures::Future;
use futures::task::{Context, Poll};
use std::alloc::{AllocError, Global};

/// Turns an actor, once a poll, until it is idle or has ended, or its turns are used up: then it answers `Moved`.
#[derive(Drop)]
pub struct Running<A> {
    alloc: Global,
    actor: Option<A>,
    /// The most events of a turn.
    budget: u32,
    /// How many turns are left.
    turns: u32,
}

impl<A: Actor> Running<A> {
    /// Its turns take their memory from the allocator.
    pub fn new(alloc: Global, actor: A, budget: u32, turns: u32) -> Running<A>
        ensures actor { running result ≡ Some actor }
        ensures limits { running_limits result ≡ record { budget = budget; turns = turns } }
    {
        Running {
            alloc,
            actor: Some(actor),
            budget,
            turns,
        }
    }

    /// The actor of a future that is not ready.
    pub fn into_actor(self) -> A
        requires { IsSome (running self) }
        ensures { running self ≡ Some result }
    {
        let Running { actor, .. } = self;
        let Some(actor) = actor else { unreachable!() };
        actor
    }
}

impl<A: Actor> Future for Running<A> {
    type Output = (A, Result<TurnState, AllocError>);

    ghost can_poll = { λ f. IsSomeAnd (running f) (λ _. ⊤) };

    // It waits for whatever may happen: a pending poll has yielded.
    ghost needs = { λ _ _. ⊤ };

    ghost gives = { λ f given. IsSomeAnd (running f) (λ actor.
        IsDriven (TakesTurn A.acts (running_limits f).budget) (running_limits f).turns actor given.1 given.0
        × GoesFurther A.journal A.goes_on actor given.0) };

    fn poll(&mut self, cx: &mut Context<'_>) -> Poll<Self::Output> {
        let Some(mut actor) = self.actor.take() else {
            unreachable!()
        };
        if self.turns == 0 {
            return Poll::Ready((actor, Ok(TurnState::Moved)));
        }
        self.turns -= 1;
        match turn_once(self.alloc, &mut actor, self.budget) {
            Ok(TurnState::Moved) => {
                self.actor = Some(actor);
                cx.yield_now()
            }
            answer @ (Ok(TurnState::Idle | TurnState::Ended) | Err(_)) => Poll::Ready((
                actor, answer,
            )),
        }
    }
}

/// Turns the actor once, and answers the state after it.
pub(crate) fn turn_once<A: Actor>(
    alloc: Global,
    actor: &mut A,
    budget: u32,
) -> Result<TurnState, AllocError>
    ensures turns { TakesTurn A.acts budget actor.old result actor.new }
    ensures further { GoesFurther A.journal A.goes_on actor.old actor.new }
{
    let turned = actor.turn(alloc, budget)?;
    Ok(turned.state)
}
