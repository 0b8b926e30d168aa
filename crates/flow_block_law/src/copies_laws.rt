//! Laws about blocks that copy. Each stands on a function that does nothing: whoever calls it has the whole law.
ghost use Rattle.flow_block_law.specs.CopiesSeen.{CopiersAreParts, CopiersAreStill, CopiersRest};
ghost use Rattle.flow_block_law.specs.NextCopies.{NextCopiesMay, NextCopiesHaveCauses, CopiesMoveViews, PutsMoveNone};

/// What a block would do next over a link over which copies go is a call that it may make.
pub fn next_copies_may_be_made<W>()
    ensures { NextCopiesMay W }
{}

/// A block that copies offers its element over each free link that is still to have it, withdraws only what holds it up,
/// and faults only when no copy is under way.
pub fn next_copies_have_causes<W>()
    ensures { NextCopiesHaveCauses W }
{}

/// A call at a link over which copies go changes what its own end knows as the laws of one link have it, and what no
/// other end knows. Nor does a new element, where nobody waits for the last one.
pub fn copies_move_views<W>()
    ensures calls { CopiesMoveViews W }
    ensures puts { PutsMoveNone }
{}

/// What the node of a block that copies knows is what the laws of a run say of a broadcast or write-once block: which copies
/// its links carry, what its ends gave, its load, and what is left.
pub fn copiers_are_parts<W>()
    ensures { CopiersAreParts W }
{}

/// A block that copies is still where no end of a link out of it has a move, and it rests where nothing is under way
/// there: what it would do but for offers that wait it may do, an element is left only where it took one in all or
/// faulted, and nothing is left to offer over a link that is not over.
pub fn copiers_with_nothing_to_do_rest<W>()
    ensures still { CopiersAreStill W }
    ensures rest { CopiersRest W }
{}
