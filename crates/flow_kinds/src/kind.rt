//! The kinds of blocks as types, and what is known of a block by its kind alone.

/// What a block without a function does with its messages, told by a type: a buffer, a broadcast, a write-once block, a
/// batch or a join.
pub trait Kind {
    ghost use Rattle.flow_link.specs.declared.draft.BlockKind.{BlockKind};

    /// As plans name it.
    ghost kind: { BlockKind };
}

/// What a block with a function does with its results, told by a type: an action, a transform or a transform-many.
pub trait WorkKind {
    ghost use Rattle.std.specs.Prelude.{◌≡◌, true};
    ghost use Rattle.flow_link.specs.declared.draft.BlockKind.{BlockKind};
    ghost use Rattle.flow_link.specs.Plan.{has_work};

    /// As plans name it.
    ghost kind: { BlockKind };

    ghost works: { has_work kind ≡ true };
}

/// A kind with a function that gives its results to others: a transform or a transform-many.
pub trait GivingKind: WorkKind {}

/// Of a buffer.
pub struct Buffer;

impl Kind for Buffer {
    ghost use Rattle.flow_link.specs.declared.draft.BlockKind.TheVariants as kinds;

    ghost kind = { kinds.Buffer };
}

/// Of a broadcast.
pub struct Broadcast;

impl Kind for Broadcast {
    ghost use Rattle.flow_link.specs.declared.draft.BlockKind.TheVariants as kinds;

    ghost kind = { kinds.Broadcast };
}

/// Of a block that takes one message in all.
pub struct WriteOnce;

impl Kind for WriteOnce {
    ghost use Rattle.flow_link.specs.declared.draft.BlockKind.TheVariants as kinds;

    ghost kind = { kinds.WriteOnce };
}

/// Of a batch.
pub struct Batch;

impl Kind for Batch {
    ghost use Rattle.flow_link.specs.declared.draft.BlockKind.TheVariants as kinds;

    ghost kind = { kinds.Batch };
}

/// Of a join that takes each message at once.
pub struct GreedyJoin;

impl Kind for GreedyJoin {
    ghost use Rattle.flow_link.specs.declared.draft.BlockKind.TheVariants as kinds;

    ghost kind = { kinds.Join };
}

/// Of an action.
pub struct Action;

impl WorkKind for Action {
    ghost use Rattle.std.specs.Prelude.{refl};
    ghost use Rattle.flow_link.specs.declared.draft.BlockKind.TheVariants as kinds;

    ghost kind = { kinds.Action };

    ghost works = { refl };
}

/// Of a transform.
pub struct Transform;

impl WorkKind for Transform {
    ghost use Rattle.std.specs.Prelude.{refl};
    ghost use Rattle.flow_link.specs.declared.draft.BlockKind.TheVariants as kinds;

    ghost kind = { kinds.Transform };

    ghost works = { refl };
}

impl GivingKind for Transform {}

/// Of a transform-many.
pub struct TransformMany;

impl WorkKind for TransformMany {
    ghost use Rattle.std.specs.Prelude.{refl};
    ghost use Rattle.flow_link.specs.declared.draft.BlockKind.TheVariants as kinds;

    ghost kind = { kinds.TransformMany };

    ghost works = { refl };
}

impl GivingKind for TransformMany {}
