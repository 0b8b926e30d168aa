//! Small plans, a block each between two buffers and a third.
ghost use Rattle.std.specs.Prelude.{◌≡◌, ◌<◌, IfOk, length, true, false};
ghost use Rattle.flow_link.specs.Plan.{block_in, is_reserving};
ghost use Rattle.flow_link.specs.Planned.{layout_of};

use crate::again::{Stop, wrong};
use flow_link::{BlockDef, BlockKind, Plan};
use flow_text::read_plan;
use flow_value::Steps;
use std::alloc::Global;

/// The number of the block in the middle.
pub(crate) const MIDDLE: usize = 2;

/// A block in the middle, and what is done with it.
#[derive(Drop)]
pub(crate) struct Middle {
    /// The network. Links 0 and 1 lead from the first two blocks into the one in the middle.
    pub(crate) network: &'static str,
    /// The call that makes it.
    pub(crate) call: &'static str,
    /// Whether it takes a message over each link, and not over the first alone.
    pub(crate) takes_both: bool,
    /// How many items the row has that it gives first; none where it gives a number.
    pub(crate) items: usize,
}

/// The network with this block in the middle, whose second link leads into this port, and with these links behind it.
macro_rules! between {
    ($middle:literal, $port:literal, $behind:literal) => {
        concat!(
            "format = 1\n",
            "block = [\n",
            "    { name = \"first\", kind = \"buffer\", input = true },\n",
            "    { name = \"second\", kind = \"buffer\", input = true },\n",
            "    { name = \"middle\", ",
            $middle,
            " },\n",
            "    { name = \"last\", kind = \"buffer\" },\n",
            "]\n",
            "link = [\n",
            "    { from = \"first\", to = \"middle\" },\n",
            "    { from = \"second\", to = \"middle\", port = ",
            $port,
            " },\n",
            $behind,
            "]\n"
        )
    };
}

pub(crate) const BUFFER: Middle = Middle {
    network: between!(
        "kind = \"buffer\"",
        "0",
        "    { from = \"middle\", to = \"last\" },\n"
    ),
    call: "Buffer::new",
    takes_both: true,
    items: 0,
};

pub(crate) const BROADCAST: Middle = Middle {
    network: between!(
        "kind = \"broadcast\"",
        "0",
        "    { from = \"middle\", to = \"last\" },\n"
    ),
    call: "Broadcast::new",
    takes_both: true,
    items: 0,
};

pub(crate) const WRITE_ONCE: Middle = Middle {
    network: between!(
        "kind = \"write_once\"",
        "0",
        "    { from = \"middle\", to = \"last\" },\n"
    ),
    call: "WriteOnce::new",
    takes_both: false,
    items: 0,
};

pub(crate) const BATCH: Middle = Middle {
    network: between!(
        "kind = \"batch\", size = 2",
        "0",
        "    { from = \"middle\", to = \"last\" },\n"
    ),
    call: "Batch::new",
    takes_both: true,
    items: 2,
};

pub(crate) const JOIN: Middle = Middle {
    network: between!(
        "kind = \"join\"",
        "1",
        "    { from = \"middle\", to = \"last\" },\n"
    ),
    call: "GreedyJoin::new",
    takes_both: true,
    items: 2,
};

pub(crate) const BATCHED_JOIN: Middle = Middle {
    network: between!(
        "kind = \"batched_join\", size = 2",
        "1",
        "    { from = \"middle\", to = \"last\" },\n"
    ),
    call: "BatchedJoin::new",
    takes_both: true,
    items: 2,
};

pub(crate) const RESERVING_JOIN: Middle = Middle {
    network: between!(
        "kind = \"join\", greedy = false",
        "1",
        "    { from = \"middle\", to = \"last\" },\n"
    ),
    call: "ReservingJoin::new",
    takes_both: false,
    items: 0,
};

pub(crate) const ACTION: Middle = Middle {
    network: between!("kind = \"action\", work = [\"add 1\"]", "0", ""),
    call: "Action::new",
    takes_both: true,
    items: 0,
};

pub(crate) const TRANSFORM: Middle = Middle {
    network: between!(
        "kind = \"transform\", work = [\"add 1\"]",
        "0",
        "    { from = \"middle\", to = \"last\" },\n"
    ),
    call: "Transform::new",
    takes_both: true,
    items: 0,
};

pub(crate) const TRANSFORM_MANY: Middle = Middle {
    network: between!(
        "kind = \"transform_many\", work = [\"upto\"]",
        "0",
        "    { from = \"middle\", to = \"last\" },\n"
    ),
    call: "TransformMany::new",
    takes_both: true,
    items: 0,
};

/// The plan, if the block in its middle is of this kind, and reserves its messages or takes each at once.
pub(crate) fn plan(
    rt: &impl Print,
    alloc: Global,
    middle: &Middle,
    kind: BlockKind,
    reserving: bool,
) -> Result<Plan<Steps>, Stop>
    ensures there { IfOk result (λ plan. MIDDLE < length (layout_of plan).blocks) }
    ensures kind { IfOk result (λ plan. (block_in (layout_of plan).blocks MIDDLE).kind ≡ kind) }
    ensures reserving { IfOk result (λ plan. is_reserving (block_in (layout_of plan).blocks MIDDLE) ≡ reserving) }
{
    let Ok(plan) = read_plan(alloc, middle.network.as_bytes()) else {
        return Err(Stop::Memory);
    };
    if plan.block_count() <= MIDDLE || plan.block(MIDDLE).kind != kind {
        return Err(wrong(rt, "read_plan"));
    }
    if reserves(plan.block(MIDDLE)) != reserving {
        return Err(wrong(rt, "read_plan"));
    }
    Ok(plan)
}

/// Whether a block reserves its messages before it takes them.
fn reserves(block: &BlockDef<Steps>) -> bool
    ensures { result ≡ is_reserving block.now }
{
    block.kind.unit().reserves(block.greedy)
}
