//! Laws about rows of several ports. Each stands on a function that does nothing: whoever calls it has the whole law.
ghost use Rattle.flow_group.specs.Examples.{GroupExamples};
ghost use Rattle.flow_group.specs.Groups.{GroupsKept, GroupsTell, GroupsAreCutInOrder};
ghost use Rattle.flow_group.specs.Journal.{JournalsTell};
ghost use Rattle.flow_group.specs.RoundLaw.{RoundsKept, LevelsTell, RoundGoes, TurnsKept};
ghost use Rattle.flow_group.specs.RoundTells.{RoundMovesTell};
ghost use Rattle.flow_group.specs.Taken.{PortsTaken, NothingMore};
ghost use Rattle.flow_group.specs.Tuples.{TuplesKept, TuplesTell, NoTupleIsTorn};

/// What a join takes at its ports, and each tuple that it makes, keeps the law of tuples: each message stands in one
/// tuple, at its port's place and in order, or is held.
#[tactic(auto, using(crate::proofs::TuplesKeep::tuples_kept))]
pub fn tuples_are_kept()
    ensures { TuplesKept }
{}

/// By that law each tuple is the row of the messages with its number at all ports, each port has as many messages in the
/// tuples as every other, and holds what came last.
#[tactic(auto, using(crate::proofs::TuplesSay::tuples_tell))]
pub fn tuples_tell()
    ensures { TuplesTell }
{}

/// Over any calls that may be made no message is lost, and no tuple has messages of some ports only.
#[tactic(auto, using(crate::proofs::TuplesKeep::no_tuple_torn))]
pub fn no_tuple_is_torn()
    ensures { NoTupleIsTorn }
{}

/// What a batched join takes at its ports, each group that it makes, and the completion of its ports, keeps the law of
/// groups: what came in is cut, in that order, into groups of one size and what is held, and only the last group is
/// shorter, once all ports are completed.
#[tactic(auto, using(crate::proofs::GroupsKeep::groups_kept))]
pub fn groups_are_kept()
    ensures { GroupsKept }
{}

/// By that law the rows of the groups have each port's messages in order, and as many arrivals of each port are noted as
/// messages wait there.
#[tactic(auto, using(crate::proofs::GroupsCut::groups_tell))]
pub fn groups_tell()
    ensures { GroupsTell }
{}

/// Over any calls that may be made the messages are cut into groups in the order in which they came in.
#[tactic(auto, using(crate::proofs::GroupsCut::groups_cut))]
pub fn groups_are_cut_in_order()
    ensures { GroupsAreCutInOrder }
{}

/// A tuple takes the first message of each port, and a group those of its arrivals, and nothing else changes at the ports.
#[tactic(auto, using(crate::proofs::PortsTaken::ports_taken))]
pub fn ports_give_what_is_taken()
    ensures { PortsTaken }
{}

/// A join that has no tuple has a port that holds nothing. A batched join that has no next group holds fewer messages
/// than a group has, and none where all ports are completed.
#[tactic(auto, using(crate::proofs::PortsTaken::nothing_more))]
pub fn nothing_more_is_made()
    ensures { NothingMore }
{}

/// What came in at a port, by a journal, is what was taken there, and one more Took mark adds its message to both.
#[tactic(auto, using(crate::proofs::JournalsTell::journals_tell))]
pub fn journals_tell_arrivals()
    ensures { JournalsTell }
{}

/// There are tuples and groups of a few messages as one expects them. The laws refuse a tuple whose ports are exchanged or
/// of which one is ahead, a message that is lost, a group cut at the wrong arrival, and one that is short too soon.
#[tactic(auto, using(crate::proofs::ExamplesHold::group_examples))]
pub fn groups_in_order_and_not()
    ensures { GroupExamples }
{}

/// A join that reserves keeps its round in order: when it asks, claims and releases, when an offer comes, is gone or refused, and
/// when a message is taken.
#[tactic(auto, using(crate::proofs::RoundStays::rounds_kept))]
pub fn rounds_are_kept()
    ensures { RoundsKept }
{}

/// No port of such a join is more than one message ahead of another, and none is where nothing comes.
#[tactic(auto, using(crate::proofs::RoundStays::levels_tell))]
pub fn levels_are_told()
    ensures { LevelsTell }
{}

/// Where a message is held, the round goes on, or waits for the source that it asks.
#[tactic(auto, using(crate::proofs::RoundGoes::round_goes))]
pub fn holder_goes_on()
    ensures { RoundGoes }
{}

/// A round asks in the order of the sources.
#[tactic(auto, using(crate::proofs::RoundTurn::turns_kept))]
pub fn turns_are_kept()
    ensures { TurnsKept }
{}

/// What asks, claims or gives up stands in front of its port; it asks where all ports have an offer and room, claims where
/// all are kept, and gives up where an offer has gone.
#[tactic(auto, using(crate::proofs::RoundTells::round_moves_tell))]
pub fn round_moves_tell()
    ensures { RoundMovesTell }
{}
