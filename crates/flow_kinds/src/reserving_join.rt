//! A join that reserves: its block, and how far its round is.
ghost use Rattle.std.specs.Prelude.{◌≡◌, ℕ, ◌<◌, true, length, IfOk, MatchResult};
ghost use Rattle.flow_link.specs.Plan.{block_in, is_reserving};
ghost use Rattle.flow_link.specs.Planned.{layout_of};
ghost use Rattle.flow_link.specs.declared.stage.TargetStage.TheVariants.{Free};
ghost use Rattle.flow_block.specs.JournalFits.{ports_due};
ghost use Rattle.flow_block.specs.Peeks.{holds_nothing};
ghost use Rattle.flow_block.specs.Traits.{target_over};
ghost use Rattle.flow_kinds.specs.ReservingJoin.{all_reserve, none_queued, fresh_join, planned_join, ReservingFits};
ghost use Rattle.flow_kinds.specs.WishLaws.{PortsLevel};

use crate::planned::planned_block;
use flow_block::{Block, sources_of};
use flow_group::{Round, Source};
use flow_intake::Intake;
use flow_link::{BlockKind, Plan};
use flow_outlet::LinkRule;
use flow_value::Value;
use std::alloc::{AllocError, Global};
use std::collections::VecDeque;
use std::marker::Model;

/// Hands on tuples of a message of each port, all of which it reserves before it takes one. It stands by itself, and
/// contracts see its `ReservingState`.
///
/// Microsoft: `JoinBlock`, with `Greedy` false.
#[derive(Drop)]
pub struct ReservingJoin {
    pub(crate) block: Block,
    /// What it does with what it asked for, and from which block each link comes.
    pub(crate) round: Round,
}

impl Model for ReservingJoin {
    ghost use Rattle.std.specs.Coded.{codes};
    ghost use Rattle.flow_value.specs.contracts.value.Value as content;
    ghost use Rattle.flow_kinds.specs.ReservingJoin.{ReservingState, ReservingFits};

    ghost Value = { ReservingState };

    ghost coded = { Prim.hlevel (codes, content.the_row.coded) };

    ghost view = { λ j. record { block = j.block; round = j.round } };

    ghost invariant = { λ j. ReservingFits j.block j.round };
}

impl ReservingJoin {
    /// The block of the plan with this number, in which nothing has happened. It fails only where memory is out.
    ///
    /// It looks at each link of the plan once for each port, and twice more.
    pub fn new<W>(alloc: Global, plan: &Plan<W>, number: usize) -> Result<ReservingJoin, AllocError>
        requires there { number < length (layout_of plan.now).blocks }
        requires kind { is_reserving (block_in (layout_of plan.now).blocks number) ≡ true }
        ensures fresh { IfOk result (λ made. made ≡ planned_join (layout_of plan.now) number) }
        ensures rests { IfOk result (λ made. (link : ℕ) → target_over made.block.ports link ≡ Free) }
    {
        let block = planned_block(alloc, plan, number)?;
        let sources = sources_of(alloc, plan, number)?;
        Ok(ReservingJoin {
            block,
            round: Round::new(sources),
        })
    }

    /// A join with these ports, at which nothing waits and nothing is under way, into which links lead from these sources,
    /// and with these links out of it. A link that is not among the sources counts as one from the first block, and where
    /// there are no sources it asks for nothing. Where there is no memory for it, its parts come back.
    pub fn of_parts(
        alloc: Global,
        ports: Vec<Intake>,
        sources: Vec<Source>,
        rules: Vec<LinkRule>,
    ) -> Result<ReservingJoin, (Vec<Intake>, Vec<Source>, Vec<LinkRule>)>
        requires reserve { all_reserve ports.items ≡ true }
        requires waits { holds_nothing ports.items ≡ true }
        requires due { ports_due ports.items ≡ 0 }
        requires offers { none_queued ports.items ≡ true }
        ensures { MatchResult result (λ join. join ≡ fresh_join ports.items sources.items rules.items)
            (λ back. (back.0 ≡ ports) × ((back.1 ≡ sources) × (back.2 ≡ rules))) }
    {
        match Block::new(alloc, BlockKind::Join, 1, 0, ports, rules) {
            Ok(block) => Ok(ReservingJoin {
                block,
                round: Round::new(sources),
            }),
            Err((ports, rules)) => Err((ports, sources, rules)),
        }
    }

    /// Its block: what waits at its ports, and what it has to give.
    pub fn block(&self) -> &Block
        ensures { result.now ≡ self.now.block }
    {
        &self.block
    }

    /// How far its round is.
    pub fn round(&self) -> &Round
        ensures { result.now ≡ self.now.round }
    {
        &self.round
    }

    /// The tuples that it has to give, oldest first: of each a row that has a message of each port.
    pub fn left(&self) -> &VecDeque<Value>
        ensures { result.now.items ≡ self.now.block.exits.left }
    {
        self.block.left()
    }

    /// What holds of each: it is a join, each of its ports reserves, and its round is in order.
    pub fn is_in_order(&self)
        ensures { ReservingFits self.now.block self.now.round }
    {
        let _left = self.block.left();
    }

    /// No port holds more than one message more than another, and none does unless messages are claimed.
    pub fn ports_are_level(&self)
        ensures { PortsLevel self.now }
    {
        let _left = self.block.left();
    }
}
