//! Laws about the groups of a batched join. Each stands on a function that does nothing: whoever calls it has the whole law.
ghost use Rattle.flow_block_law.specs.FreshGroups.{FreshGroups};
ghost use Rattle.flow_block_law.specs.GroupsKeep.{GroupsStand};
ghost use Rattle.flow_block_law.specs.GroupsLoad.{GroupsKeepLoad};
ghost use Rattle.flow_block_law.specs.GroupsOrdered.{GroupsOrdered};
ghost use Rattle.flow_block_law.specs.GroupsPeek.{PortsTellGroups};
ghost use Rattle.flow_block_law.specs.GroupsRest.{GroupsRestInRuns, GroupsBegin};
ghost use Rattle.flow_block_law.specs.GroupsSeen.{WholeStand, BatchedJoinsAreParts};

/// Whatever a batched join does, what it took is cut, in the order in which it came in over all ports, into the groups that
/// it gave or has left, and what waits; and only the last group is shorter, once all ports are completed.
pub fn calls_keep_groups<W>()
    ensures { GroupsStand W }
{}

/// Whatever a batched join's node does, its own journal tells in which order came in what is in no group, and its groups are
/// cut in that order.
pub fn calls_keep_groups_in_order<W>()
    ensures { GroupsOrdered W }
{}

/// Whatever a batched join's node does, at each of its ports a place is taken by each message that waits there, and by each
/// that is in a group which is not given yet.
pub fn calls_keep_group_loads<W>()
    ensures { GroupsKeepLoad W }
{}

/// How many messages wait at the ports of a batched join tells whether it has a next group, without the order in which they
/// came in.
#[tactic(auto, using(crate::proofs::GroupsPeek::ports_tell_groups))]
pub fn ports_tell_of_groups()
    ensures { PortsTellGroups }
{}

/// Whatever a batched join does, what it gave before a port's mark Complete are whole groups.
pub fn calls_keep_groups_whole<W>()
    ensures { WholeStand W }
{}

/// What a batched join's node knows of its groups is what the laws of a run say of a batched join: its outputs, and when it
/// is complete.
pub fn batched_joins_are_parts<W>()
    ensures { BatchedJoinsAreParts W }
{}

/// A batched join in which nothing has happened has made no group, and holds nothing.
pub fn fresh_blocks_have_made_nothing<W>()
    ensures { FreshGroups W }
{}

/// What a batched join counts at its ports is what the laws of a run say, and where its ports tell of no group, it rests.
pub fn batched_joins_rest<W>()
    ensures { GroupsRestInRuns W }
{}

/// A batched join in which nothing has happened keeps the laws of its order and of its load.
pub fn fresh_batched_joins_are_in_order<W>()
    ensures { GroupsBegin W }
{}
