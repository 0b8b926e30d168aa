//! Laws about joins that reserve. Each stands on a function that does nothing: whoever calls it has the whole law.
ghost use Rattle.flow_kinds.specs.WishLaws.{WishesTell};

/// A join asks for what waits in front of an open port, in its turn, where each port has an offer and this one has room. It
/// claims only where a message of each port is kept or claimed, and gives up where an offer has gone, or where it would ask
/// at a port that has ended. It consumes nothing that it has not reserved.
#[tactic(auto, using(crate::proofs::WishLaws::wishes_tell))]
pub fn wishes_tell()
    ensures { WishesTell }
{}
