//! Laws about blocks. Each stands on a function that does nothing: whoever calls it has the whole law.
ghost use Rattle.flow_block_law.specs.Causes.{NextMovesHaveCauses};
ghost use Rattle.flow_block_law.specs.Fresh.{FreshInOrder};
ghost use Rattle.flow_block_law.specs.JobsEnd.{JobsEndWell};
ghost use Rattle.flow_block_law.specs.LinkFaults.{LowestLinkCounts};
ghost use Rattle.flow_block_law.specs.NextMoves.{NextMovesMay};
ghost use Rattle.flow_block_law.specs.NodeKeeps.{NodesKept};
ghost use Rattle.flow_block_law.specs.NodeRests.{NodesAreStill, NodesRest};
ghost use Rattle.flow_block_law.specs.NodeSeen.{NodesAreLawful};
ghost use Rattle.flow_block_law.specs.Stands.{BlocksStandInOrder, CopiesStandInOrder, PortsStandInOrder, PortsAtRest};
ghost use Rattle.flow_block_law.specs.Stands.{KeptForOne};
ghost use Rattle.flow_block_law.specs.ViewsMove.{CallsMoveViews};

/// A block in which nothing has happened is in order.
pub fn fresh_blocks_are_in_order<W>()
    ensures { FreshInOrder W }
{}

/// Each call that may be made keeps a block in order: buffers, broadcasts, write-once blocks, actions, transforms,
/// transform-manys, batches, joins and batched joins, with any links, predicates, limits and capacities.
pub fn calls_keep_blocks_in_order<W>()
    ensures { NodesKept W }
{}

/// A job that ends keeps its block in order, whatever its place: its result waits for those before it, or comes out with
/// those behind it that are there. No end of a link learns anything by that.
pub fn jobs_that_end_keep_blocks_in_order<W>()
    ensures { JobsEndWell W }
{}

/// What a block would do next at an end of a link is a call that it may make.
pub fn next_moves_may_be_made<W>()
    ensures { NextMovesMay W }
{}

/// A block refuses only where its port has ended or its own function has faulted, puts off only what it could not take
/// at once, takes only what fits beside what is on its way, faults only when nothing is under way and its own work is
/// done, and does not stop offering while a link is free.
pub fn next_moves_have_causes<W>()
    ensures { NextMovesHaveCauses W }
{}

/// A call changes what its own end of a link knows as the laws of one link have it, and what no other end knows.
pub fn calls_move_views<W>()
    ensures { CallsMoveViews W }
{}

/// A block in order keeps what each block of a lawful run keeps.
pub fn blocks_in_order_are_lawful<W>()
    ensures { NodesAreLawful W }
{}

/// A block in order that has nothing to do is still, and it rests where its links do.
pub fn blocks_with_nothing_to_do_rest<W>()
    ensures still { NodesAreStill W }
    ensures rest { NodesRest W }
{}

/// Of the faults that came over links into a block, at whichever ports, the one over the link with the lowest number
/// counts.
pub fn fault_of_the_lowest_link_counts()
    ensures { LowestLinkCounts }
{}

/// A block whose exits are in order stands at each link out of it as its end does, but that nobody waits for a message
/// that is gone. It is busy while an offer is out, offers what may be offered, and gives what a link may consume. One that
/// copies does the same at each link for itself. At each link into it a block stands as its end does, and it wishes for
/// nothing only where no port would consume what it postponed. Where nothing comes over any link into a port, nothing comes
/// there; and in any block, where nothing comes at a port, nothing comes over a link into it. In any block that shares its
/// messages out, one that is kept for a link is kept, given and offered nowhere else.
pub fn blocks_in_order_stand_as_their_ends()
    ensures exits { BlocksStandInOrder }
    ensures copies { CopiesStandInOrder }
    ensures ports { PortsStandInOrder }
    ensures rests { PortsAtRest }
    ensures kept { KeptForOne }
{}
