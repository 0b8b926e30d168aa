//! Turns several actors until none of them has anything to do.
ghost use Rattle.std.specs.Prelude.{◌≡◌, ⊤, IsSome, IsSomeAnd};
ghost use Rattle.flow_poll.specs.declared.actor.TurnState.TheVariants.{Ended};
ghost use Rattle.flow_poll.specs.Held.{crew_limits, crew_of};
ghost use Rattle.flow_poll.specs.Turns.{EachGoesOn, GoesFurther, IsDriven, IsRound, TakesTurn};

use crate::actor::{Actor, TurnState};
use crate::running::turn_once;
use futures::Future;
use futures::task::{Context, Poll};
use std::alloc::{AllocError, Global};

/// Turns all actors, each once a poll and in order, until in one poll none of them moved, or their turns are used up: then
/// it answers `Moved`. It answers `Ended` where each has ended.
#[derive(Drop)]
pub struct Crew<A> {
    alloc: Global,
    actors: Option<Vec<A>>,
    /// The most events of a turn.
    budget: u32,
    /// How many turns each has left.
    turns: u32,
}

impl<A: Actor> Crew<A> {
    /// Their turns take their memory from the allocator.
    pub fn new(alloc: Global, actors: Vec<A>, budget: u32, turns: u32) -> Crew<A>
        ensures actors { crew_of result ≡ Some actors.items }
        ensures limits { crew_limits result ≡ record { budget = budget; turns = turns } }
    {
        Crew {
            alloc,
            actors: Some(actors),
            budget,
            turns,
        }
    }

    /// The actors of a future that is not ready, in their order.
    pub fn into_actors(self) -> Vec<A>
        requires { IsSome (crew_of self) }
        ensures { crew_of self ≡ Some result.items }
    {
        let Crew { actors, .. } = self;
        let Some(actors) = actors else { unreachable!() };
        actors
    }
}

impl<A: Actor> Future for Crew<A> {
    type Output = (Vec<A>, Result<TurnState, AllocError>);

    ghost can_poll = { λ f. IsSomeAnd (crew_of f) (λ _. ⊤) };

    // It waits for whatever may happen: a pending poll has yielded.
    ghost needs = { λ _ _. ⊤ };

    ghost gives = { λ f given. IsSomeAnd (crew_of f) (λ actors.
        IsDriven (IsRound (TakesTurn A.acts (crew_limits f).budget) Ended) (crew_limits f).turns actors given.1
        given.0.items
        × EachGoesOn (GoesFurther A.journal A.goes_on) actors given.0.items) };

    fn poll(&mut self, cx: &mut Context<'_>) -> Poll<Self::Output> {
        let Some(mut actors) = self.actors.take() else {
            unreachable!()
        };
        if self.turns == 0 {
            return Poll::Ready((actors, Ok(TurnState::Moved)));
        }
        self.turns -= 1;
        match turn_each(self.alloc, &mut actors, self.budget) {
            Ok(TurnState::Moved) => {
                self.actors = Some(actors);
                cx.yield_now()
            }
            answer @ (Ok(TurnState::Idle | TurnState::Ended) | Err(_)) => Poll::Ready((
                actors, answer,
            )),
        }
    }
}

/// Turns each actor once, in order, and answers their joint state. Where memory is out, those behind are not turned.
fn turn_each<A: Actor>(
    alloc: Global,
    actors: &mut Vec<A>,
    budget: u32,
) -> Result<TurnState, AllocError>
    ensures round { IsRound (TakesTurn A.acts budget) Ended actors.old.items result actors.new.items }
    ensures further { EachGoesOn (GoesFurther A.journal A.goes_on) actors.old.items actors.new.items }
{
    let mut state = TurnState::Ended;
    for place in 0..actors.len() {
        let turned = turn_once(alloc, &mut actors[place], budget)?;
        state = state.joint(turned);
    }
    Ok(state)
}
