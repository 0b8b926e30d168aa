//! Laws about outlets. Each stands on a function that does nothing: whoever calls it has the whole law.
ghost use Rattle.flow_outlet.specs.Groups.{WeightsComeInTime};
ghost use Rattle.flow_outlet.specs.History.{NothingIsLost};
ghost use Rattle.flow_outlet.specs.Keeps.{CallsKeepLaw, GivesInOrder};
ghost use Rattle.flow_outlet.specs.KeepsByLink.{LinkCallsKeepLaw};
ghost use Rattle.flow_outlet.specs.Moves.{MovesAreAllowed};
ghost use Rattle.flow_outlet.specs.Order.{OffersInOrder};

/// The head is offered next over the first link, in order, that it does not go past, and nowhere only where none is
/// left or something is still under way there.
#[tactic(auto, using(crate::proofs::OffersInOrder::offers_in_order))]
pub fn offers_go_in_order()
    ensures { OffersInOrder }
{}

/// Each call keeps the outlet's law, and by that law a message never goes over a later link while an earlier one that
/// admits it takes each offer at once.
#[tactic(auto, using(crate::proofs::LawKept::calls_keep_law, crate::proofs::LawKept::gives_in_order))]
pub fn calls_keep_the_law()
    ensures keeps { CallsKeepLaw }
    ensures in_order { GivesInOrder }
{}

/// What an end does next by itself, by the outlet's law, is what the call of that move requires.
#[tactic(auto, using(crate::proofs::MovesAllowed::moves_are_allowed))]
pub fn next_moves_are_allowed()
    ensures { MovesAreAllowed }
{}

/// Over any calls, what was put is what was given, in order, followed by what is left; and each weight comes back once.
#[tactic(auto, using(crate::proofs::NothingLost::nothing_is_lost))]
pub fn nothing_is_lost()
    ensures { NothingIsLost }
{}

/// The weight of a result comes back when the last of its messages is given, and not before.
#[tactic(auto, using(crate::proofs::WeightsInTime::weights_come_in_time))]
pub fn weights_come_in_time()
    ensures { WeightsComeInTime }
{}

/// An answer that is noted by its link, and that answers are forgotten, keep the law, too.
#[tactic(auto, using(crate::proofs::LinkCallsKeep::link_calls_keep))]
pub fn calls_by_link_keep_the_law()
    ensures { LinkCallsKeepLaw }
{}
