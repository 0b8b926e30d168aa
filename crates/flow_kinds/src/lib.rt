//! The blocks by their types: each is made of a plan, and is driven by the calls that all blocks have in common.
//!
//! A [`flow_block::Block`] has the code of all kinds, and a field says which kind it is. Here each kind is a type of its
//! own, thin over such a block: [`Buffer`], [`Broadcast`], [`WriteOnce`], [`Batch`] and [`GreedyJoin`] are a
//! [`TypedBlock`], [`Action`], [`Transform`] and [`TransformMany`] a [`TypedExecution`].
//!
//! What a block alone does not tell, and in a network its node does, two types keep beside it. A [`BatchedJoin`] notes the
//! port of each message as it comes, so it makes its groups by itself. A [`ReservingJoin`] keeps the round of its offers: which
//! are asked for, kept or claimed as one. So it wishes by itself for one message of each port, and takes all of them or none.
//!
//! `new` takes the block of a plan with its ports and links, as a network does. So a caller who drives blocks by hand
//! writes no ports and no rules of links, and what the plan says of a link holds here too. That the block of the plan is
//! of the type's kind is the caller's to know, from the plan.
//!
//! Contracts see a block as the plain data of what it stands on: a `BlockState`, an `ExecutionState`, a `JoinState` or a
//! `ReservingState`. So the laws about lists of calls by hand are laws of these types.
//!
//! Microsoft: `BufferBlock`, `BroadcastBlock`, `WriteOnceBlock`, `BatchBlock`, `JoinBlock`, `BatchedJoinBlock`,
//! `ActionBlock`, `TransformBlock`, `TransformManyBlock`.
//!
//! Proved: `new` gives exactly the block of the plan with that number, in which nothing has happened; each type is of
//! its kind, as a fact of it. The common calls are those of the block below. A batched join notes arrivals with its
//! messages; a reserving join wishes by its round (specs/Wishes.antt), and its ports stay level.
//! Tested: that calls succeed where memory is ample.
//! Neither: that the plan's block is of the type's kind, which the caller knows.
#![tactic(auto)]

mod batched_calls;
mod batched_join;
mod block;
mod block_calls;
mod execution;
mod execution_calls;
pub mod kind;
mod laws;
mod planned;
mod reserving_calls;
mod reserving_join;
mod wishes;

pub use batched_join::BatchedJoin;
pub use block::{Batch, Broadcast, Buffer, GreedyJoin, TypedBlock, WriteOnce};
pub use execution::{Action, Transform, TransformMany, TypedExecution};
pub use laws::wishes_tell;
pub use reserving_join::ReservingJoin;
