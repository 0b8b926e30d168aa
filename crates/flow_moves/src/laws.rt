//! Laws about what would happen next in a network in order. Each stands on a function that does nothing: whoever calls
//! it has the whole law.
ghost use Rattle.flow_moves.specs.Passes.{PassesHappen};
ghost use Rattle.flow_moves.specs.Statements.{BlocksArePlanned, LinksAreThere, MovesAreReady, MovesGoAlong};
ghost use Rattle.flow_moves.specs.Statements.{NothingIsStill, PostsGoAlong, SourcesMay, TargetsMay};

/// Each link has its two ends at the places that its way names.
pub fn links_are_there<W>()
    ensures { LinksAreThere W }
{}

/// Each block is of the kind that the plan has there, with its ports, and works on no more messages than it holds.
pub fn blocks_are_planned<W>()
    ensures { BlocksArePlanned W }
{}

/// What an end of a link would do next may happen.
pub fn next_moves_may_happen<W>()
    ensures sources { SourcesMay W }
    ensures targets { TargetsMay W }
{}

/// For a move that may happen all stands ready.
pub fn moves_are_ready<W>()
    ensures { MovesAreReady W }
{}

/// What a move changes is told by the link's way.
pub fn moves_go_along_ways<W>()
    ensures { MovesGoAlong W }
{}

/// What a value that the caller of an input posts changes is told by the link's way.
pub fn posts_go_along_ways<W>()
    ensures { PostsGoAlong W }
{}

/// Where a message may go over a link in one call, each of its five events may happen in its turn.
pub fn passes_may_happen<W>()
    ensures { PassesHappen W }
{}

/// Where nobody would do anything, nothing may happen.
pub fn nothing_next_is_still<W>()
    ensures { NothingIsStill W }
{}
