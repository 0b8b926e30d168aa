//! Small plans: a block between the buffers before it and those behind it.
ghost use Rattle.std.specs.Prelude.{◌≡◌, ◌<◌, length};
ghost use Rattle.flow_link.specs.Plan.{block_in, is_reserving};
ghost use Rattle.flow_link.specs.Planned.{layout_of};
ghost use Rattle.flow_block.specs.Traits.{target_over};
ghost use Rattle.flow_block_rows.specs.Driven.{Rests};

use crate::shared::text;
use flow_kinds::kind::{Kind, WorkKind};
use flow_kinds::{BatchedJoin, ReservingJoin, TypedBlock, TypedExecution};
use flow_link::{BlockDef, BlockKind, Draft, LinkDef, Plan, plan_check};
use flow_value::Steps;
use std::alloc::Global;
use std::process::Abort;

/// The number of the block in the middle.
const MIDDLE: usize = 2;

/// A link between the blocks with these names, into this port.
fn link(rt: &impl Abort, alloc: Global, from: &str, to: &str, port: u32) -> LinkDef {
    let mut link = LinkDef::new(text(rt, alloc, from), text(rt, alloc, to));
    link.port = Some(port);
    link
}

fn buffer(rt: &impl Abort, alloc: Global, name: &str) -> BlockDef<Steps> {
    BlockDef::new(text(rt, alloc, name), BlockKind::Buffer)
}

/// The block in the middle: with rows of two messages, or with a function that reads integers in two lanes, where its
/// kind has these. A join reserves its messages if it is to.
fn middle(rt: &impl Abort, alloc: Global, kind: BlockKind, reserving: bool) -> BlockDef<Steps> {
    let mut block = BlockDef::new(text(rt, alloc, "middle"), kind);
    if reserving {
        block.greedy = Some(false);
    }
    match kind {
        BlockKind::Batch | BlockKind::BatchedJoin => block.size = Some(2),
        BlockKind::Action | BlockKind::Transform | BlockKind::TransformMany => {
            block.lanes = Some(2);
            block.work = Steps::read(alloc, &["int"]).ok();
        }
        BlockKind::Buffer | BlockKind::Broadcast | BlockKind::WriteOnce | BlockKind::Join => {}
    }
    block
}

/// Links 0 and 1 lead from the first two blocks into the one in the middle, into its two ports where it has two. Links 2
/// and 3 lead from there to the last two blocks, unless it is an action.
fn links(rt: &impl Abort, alloc: Global, kind: BlockKind) -> Vec<LinkDef> {
    let port = u32::from(matches!(kind, BlockKind::Join | BlockKind::BatchedJoin));
    let mut links = Vec::new(alloc);
    assert!(rt; links.push(link(rt, alloc, "first", "middle", 0)).is_ok());
    assert!(rt;
        links
            .push(link(rt, alloc, "second", "middle", port))
            .is_ok()
    );
    if kind != BlockKind::Action {
        assert!(rt; links.push(link(rt, alloc, "middle", "third", 0)).is_ok());
        assert!(rt; links.push(link(rt, alloc, "middle", "fourth", 0)).is_ok());
    }
    links
}

fn draft(rt: &impl Abort, alloc: Global, kind: BlockKind, reserving: bool) -> Draft<Steps> {
    let mut blocks = Vec::new(alloc);
    assert!(rt; blocks.push(buffer(rt, alloc, "first")).is_ok());
    assert!(rt; blocks.push(buffer(rt, alloc, "second")).is_ok());
    assert!(rt; blocks.push(middle(rt, alloc, kind, reserving)).is_ok());
    assert!(rt; blocks.push(buffer(rt, alloc, "third")).is_ok());
    assert!(rt; blocks.push(buffer(rt, alloc, "fourth")).is_ok());
    let links = links(rt, alloc, kind);
    Draft { blocks, links }
}

/// A plan in whose middle is a block of this kind, which reserves its messages or takes each at once.
fn plan(rt: &impl Abort, alloc: Global, kind: BlockKind, reserving: bool) -> Plan<Steps>
    ensures there { MIDDLE < length (layout_of result).blocks }
    ensures kind { (block_in (layout_of result).blocks MIDDLE).kind ≡ kind }
    ensures reserving { is_reserving (block_in (layout_of result).blocks MIDDLE) ≡ reserving }
{
    let Ok(plan) = plan_check(alloc, draft(rt, alloc, kind, reserving)) else {
        panic!(rt; "something is wrong with the draft");
    };
    if plan.block_count() <= MIDDLE || plan.block(MIDDLE).kind != kind {
        panic!(rt; "the block in the middle is another");
    }
    if reserves(plan.block(MIDDLE)) != reserving {
        panic!(rt; "the block in the middle takes messages otherwise");
    }
    plan
}

/// Whether a block reserves its messages before it takes them.
fn reserves(block: &BlockDef<Steps>) -> bool
    ensures { result ≡ is_reserving block.now }
{
    block.kind.unit().reserves(block.greedy)
}

/// The block in the middle of such a plan, with no function.
pub(crate) fn block<K: Kind>(rt: &impl Abort, alloc: Global, kind: BlockKind) -> TypedBlock<K>
    requires { kind ≡ K.kind }
    ensures { Rests (target_over result.ports) }
{
    let plan = plan(rt, alloc, kind, false);
    let Ok(block) = TypedBlock::new(alloc, &plan, MIDDLE) else {
        panic!(rt; "out of memory");
    };
    block
}

/// The block in the middle of such a plan, with a function.
pub(crate) fn execution<K: WorkKind>(
    rt: &impl Abort,
    alloc: Global,
    kind: BlockKind,
) -> TypedExecution<K, Steps>
    requires { kind ≡ K.kind }
    ensures { Rests (target_over result.block.ports) }
{
    let plan = plan(rt, alloc, kind, false);
    let Ok(execution) = TypedExecution::new(alloc, &plan, MIDDLE) else {
        panic!(rt; "out of memory");
    };
    execution
}

/// A join that groups messages as they came.
pub(crate) fn batched_join(rt: &impl Abort, alloc: Global) -> BatchedJoin
    ensures { Rests (target_over result.block.ports) }
{
    let plan = plan(rt, alloc, BlockKind::BatchedJoin, false);
    let Ok(join) = BatchedJoin::new(alloc, &plan, MIDDLE) else {
        panic!(rt; "out of memory");
    };
    join
}

/// A join that reserves.
pub(crate) fn reserving_join(rt: &impl Abort, alloc: Global) -> ReservingJoin
    ensures { Rests (target_over result.block.ports) }
{
    let plan = plan(rt, alloc, BlockKind::Join, true);
    let Ok(join) = ReservingJoin::new(alloc, &plan, MIDDLE) else {
        panic!(rt; "out of memory");
    };
    join
}
