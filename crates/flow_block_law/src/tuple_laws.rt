//! A law about the tuples of a join, on a function that does nothing: whoever calls it has the whole law.
ghost use Rattle.flow_block_law.specs.TuplesSeen.{JoinsAreParts};

/// What a join's node knows of its tuples is what the laws of a run say of a join: its outputs, its load, when it is
/// complete, and that it rests where it has no tuple to make.
pub fn joins_are_parts<W>()
    ensures { JoinsAreParts W }
{}
