//! A block without a function, with its kind as a type.
ghost use Rattle.std.specs.Prelude.{◌≡◌, ℕ, ◌<◌, false, length, IfOk};
ghost use Rattle.flow_link.specs.Plan.{block_in, is_reserving};
ghost use Rattle.flow_link.specs.Planned.{layout_of};
ghost use Rattle.flow_link.specs.declared.stage.TargetStage.TheVariants.{Free};
ghost use Rattle.flow_block.specs.Traits.{target_over};
ghost use Rattle.flow_kinds.specs.Kinds.{IsOf};
ghost use Rattle.flow_block.specs.Planned.{planned_block};

use crate::kind::{self, Kind};
use crate::planned::planned_block;
use flow_block::Block;
use flow_link::Plan;
use std::alloc::{AllocError, Global};
use std::marker::{Model, PhantomData};

/// A block of this kind. Contracts see its `BlockState`, and `IsOf` holds of each.
#[derive(Drop)]
pub struct TypedBlock<K: Kind> {
    pub(crate) block: Block,
    of: PhantomData<K>,
}

impl<K: Kind> Model for TypedBlock<K> {
    ghost use Rattle.std.specs.Coded.{codes};
    ghost use Rattle.flow_value.specs.contracts.value.Value as content;
    ghost use Rattle.flow_block.specs.Block.{BlockState};
    ghost use Rattle.flow_kinds.specs.Kinds.{IsOf};

    ghost Value = { BlockState };

    ghost coded = { Prim.hlevel (codes, content.the_row.coded) };

    ghost view = { λ b. b.block };

    ghost invariant = { λ b. IsOf K.kind b.block };
}

/// Hands each message on as it is.
///
/// Microsoft: `BufferBlock<T>`.
pub type Buffer = TypedBlock<kind::Buffer>;

/// Hands a copy of its newest message to each link.
///
/// Microsoft: `BroadcastBlock<T>`.
pub type Broadcast = TypedBlock<kind::Broadcast>;

/// Takes one message in all, and hands a copy of it to each link.
///
/// Microsoft: `WriteOnceBlock<T>`.
pub type WriteOnce = TypedBlock<kind::WriteOnce>;

/// Hands on rows of a number of messages.
///
/// Microsoft: `BatchBlock<T>`.
pub type Batch = TypedBlock<kind::Batch>;

/// Hands on rows of one message from each port, and takes each message at once.
///
/// Microsoft: `JoinBlock`, with `Greedy` true.
pub type GreedyJoin = TypedBlock<kind::GreedyJoin>;

impl<K: Kind> TypedBlock<K> {
    /// The block of the plan with this number, in which nothing has happened. It fails only where memory is out. Over each
    /// link into it an offer may be made. A join that reserves is of no such type.
    ///
    /// It looks at each link of the plan once for each port, and once more.
    pub fn new<W>(alloc: Global, plan: &Plan<W>, number: usize) -> Result<TypedBlock<K>, AllocError>
        requires there { number < length (layout_of plan.now).blocks }
        requires kind { (block_in (layout_of plan.now).blocks number).kind ≡ K.kind }
        requires greedy { is_reserving (block_in (layout_of plan.now).blocks number) ≡ false }
        ensures fresh { IfOk result (λ block. block ≡ planned_block (layout_of plan.now) number) }
        ensures rests { IfOk result (λ block. (link : ℕ) → target_over block.ports link ≡ Free) }
    {
        let block = planned_block(alloc, plan, number)?;
        Ok(TypedBlock {
            block,
            of: PhantomData,
        })
    }

    /// What holds of each: it is of its kind, and has the ports of that kind, none of which reserves. What takes one message
    /// in all has room for one.
    pub fn is_of_its_kind(&self)
        ensures { IsOf K.kind self.now }
    {
        let _ports = self.block.port_count();
    }

    /// The block, which tells all that it tells of itself.
    pub fn block(&self) -> &Block
        ensures { result.now ≡ self.now }
    {
        &self.block
    }
}
