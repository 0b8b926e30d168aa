//! `Completion` over a block by hand.
ghost use Rattle.std.specs.Prelude.{◌≡◌, ℕ};
ghost use Rattle.flow_link.specs.Plan.{is_reserving};
ghost use Rattle.flow_link.specs.declared.stage.TargetStage.TheVariants.{Free};
ghost use Rattle.flow_block.specs.Traits.{target_over};

use flow_drawn::inputs;
use flow_kinds::Buffer;
use flow_link::{BlockDef, BlockKind, DataflowBlock, Outcome, Plan};
use flow_poll::Completion;
use flow_value::Steps;
use futures::task::Poll;
use futures::test::MockTask;
use std::alloc::Global;
use std::process::Abort;

/// The first block of this plan, which is a buffer.
pub(crate) fn first(rt: &impl Abort, alloc: Global, plan: &Plan<Steps>) -> Buffer
    ensures rests { (link : ℕ) → target_over result.ports link ≡ Free }
{
    if plan.block_count() == 0 || plan.block(0).kind != BlockKind::Buffer {
        panic!(rt; "another plan");
    }
    if reserves(plan.block(0)) {
        panic!(rt; "it reserves");
    }
    let Ok(buffer) = Buffer::new(alloc, plan, 0) else {
        panic!(rt; "out of memory");
    };
    buffer
}

/// Whether a block reserves its messages before it takes them.
fn reserves(block: &BlockDef<Steps>) -> bool
    ensures { result ≡ is_reserving block.now }
{
    block.kind.unit().reserves(block.greedy)
}

/// The buffer, which takes no more messages.
fn completed(rt: &impl Abort, buffer: Buffer) -> Buffer
    requires { (link : ℕ) → target_over buffer.ports link ≡ Free }
{
    let mut buffer = buffer;
    if buffer.block().port_count() == 0 {
        panic!(rt; "no port");
    }
    buffer.complete(0);
    buffer
}

#[test]
fn a_buffer_that_is_done_is_told(rt: HostRuntime) {
    let alloc = rt.alloc();
    let Some(inputs) = inputs(alloc, "b* buffer capacity 1 output true", "b?") else {
        panic!(rt; "no plan");
    };
    let Ok(task) = MockTask::new(&rt) else {
        panic!(&rt; "out of memory");
    };
    let mut waiting = Completion::new(alloc, first(&rt, alloc, inputs.plan()));
    assert!(rt; matches!(task.poll(&mut waiting), Poll::Pending));
    let buffer = completed(&rt, first(&rt, alloc, inputs.plan()));
    let mut waiting = Completion::new(alloc, buffer);
    let Poll::Ready((_buffer, how)) = task.poll(&mut waiting) else {
        panic!(&rt; "the buffer goes on");
    };
    assert!(rt; how == Outcome::Done);
}
