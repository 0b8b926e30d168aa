//! A batched join: its block, and the order in which its messages came in.
ghost use Rattle.std.specs.Prelude.{◌≡◌, ℕ, ◌<◌, ◌≤◌, true, false, length, IfOk, MatchResult};
ghost use Rattle.flow_link.specs.Plan.{block_in};
ghost use Rattle.flow_link.specs.Planned.{layout_of};
ghost use Rattle.flow_link.specs.declared.draft.BlockKind.TheVariants as kind;
ghost use Rattle.flow_link.specs.declared.stage.TargetStage.TheVariants.{Free};
ghost use Rattle.flow_group.specs.Tuple.{all_ended};
ghost use Rattle.flow_block.specs.Groups.{waiting_in_all};
ghost use Rattle.flow_block.specs.Peeks.{holds_nothing, may_make};
ghost use Rattle.flow_block.specs.JournalFits.{ports_due};
ghost use Rattle.flow_block.specs.Traits.{target_over};
ghost use Rattle.flow_kinds.specs.BatchedJoin.{fresh_join, planned_join};

use crate::planned::planned_block;
use flow_block::Block;
use flow_group::Arrivals;
use flow_intake::Intake;
use flow_link::{BlockKind, Plan};
use flow_outlet::LinkRule;
use flow_value::Value;
use std::alloc::{AllocError, Global};
use std::collections::VecDeque;
use std::marker::Model;

/// Hands on rows of a number of messages, sorted by port. It stands by itself, and contracts see its `JoinState`.
///
/// Microsoft: `BatchedJoinBlock`.
#[derive(Drop)]
pub struct BatchedJoin {
    pub(crate) block: Block,
    /// The port of each message that is in no group yet.
    pub(crate) order: Arrivals,
}

impl Model for BatchedJoin {
    ghost use Rattle.std.specs.Coded.{codes};
    ghost use Rattle.flow_value.specs.contracts.value.Value as content;
    ghost use Rattle.flow_kinds.specs.BatchedJoin.{JoinState, JoinFits};

    ghost Value = { JoinState };

    ghost coded = { Prim.hlevel (codes, content.the_row.coded) };

    ghost view = { λ j. record { block = j.block; order = j.order.ports } };

    ghost invariant = { λ j. JoinFits j.block j.order };
}

impl BatchedJoin {
    /// The block of the plan with this number, in which nothing has happened. It fails only where memory is out.
    ///
    /// It looks at each link of the plan once for each port, and once more.
    pub fn new<W>(alloc: Global, plan: &Plan<W>, number: usize) -> Result<BatchedJoin, AllocError>
        requires there { number < length (layout_of plan.now).blocks }
        requires kind { (block_in (layout_of plan.now).blocks number).kind ≡ kind.BatchedJoin }
        ensures fresh { IfOk result (λ made. made ≡ planned_join (layout_of plan.now) number) }
        ensures rests { IfOk result (λ made. (link : ℕ) → target_over made.block.ports link ≡ Free) }
    {
        let block = planned_block(alloc, plan, number)?;
        Ok(BatchedJoin {
            block,
            order: Arrivals::new(alloc),
        })
    }

    /// A batched join with groups of so many messages, with these ports, at which nothing waits and nothing is under way,
    /// and with these links out of it. Where there is no memory for it, its parts come back.
    pub fn of_parts(
        alloc: Global,
        size: u32,
        ports: Vec<Intake>,
        rules: Vec<LinkRule>,
    ) -> Result<BatchedJoin, (Vec<Intake>, Vec<LinkRule>)>
        requires waits { holds_nothing ports.items ≡ true }
        requires due { ports_due ports.items ≡ 0 }
        ensures { MatchResult result (λ join. join ≡ fresh_join size ports.items rules.items)
            (λ back. (back.0 ≡ ports) × (back.1 ≡ rules)) }
    {
        let block = Block::new(alloc, BlockKind::BatchedJoin, 1, size, ports, rules)?;
        Ok(BatchedJoin {
            block,
            order: Arrivals::new(alloc),
        })
    }

    /// What holds of each: it is of its kind.
    pub fn is_of_its_kind(&self)
        ensures { self.now.block.kind ≡ kind.BatchedJoin }
    {
        let _left = self.block.left();
    }

    /// The groups that it has to give, oldest first: of each a row that has for each port a row of its messages.
    pub fn left(&self) -> &VecDeque<Value>
        ensures { result.now.items ≡ self.now.block.exits.left }
    {
        self.block.left()
    }

    /// How many messages are in no group yet: those that wait at its ports.
    pub fn waiting(&self) -> usize
        ensures count { result ≡ length self.now.order }
        ensures all { result ≡ waiting_in_all self.now.block.ports }
    {
        self.order.len()
    }

    /// Whether it would make a group: while a port is open one that is whole, and then of what is left.
    pub fn has_group(&self) -> bool
        ensures told { result ≡ may_make self.now.block }
        ensures whole { result ≡ true → all_ended self.now.block.ports ≡ false
            → self.now.block.size ≤ length self.now.order }
    {
        self.block.may_make()
    }
}
