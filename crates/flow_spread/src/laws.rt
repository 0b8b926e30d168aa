//! Laws about copies. Each stands on a function that does nothing: whoever calls it has the whole law.
ghost use Rattle.flow_spread.specs.Accounts.{EachLinkHasItsAccounts};
ghost use Rattle.flow_spread.specs.Copied.{EachLinkHasItsCopies};
ghost use Rattle.flow_spread.specs.Keeps.{CallsKeepLaw, LawTells};
ghost use Rattle.flow_spread.specs.Moves.{MovesAreAllowed, OffersInOrder};

/// Each call keeps the law of a spread. By that law what is given over a link is the element, admitted and given there
/// for the first time; what is left stays when links end; a block that is done has nothing left; and one that takes once
/// has nothing left only where each link that admits the element was given it, refused, or has carried its limit.
#[tactic(auto, using(crate::proofs::LawKept::calls_keep_law, crate::proofs::LawKept::law_tells))]
pub fn calls_keep_the_law()
    ensures keeps { CallsKeepLaw }
    ensures tells { LawTells }
{}

/// Over any calls that may be made, each link is given some of the elements that were put, each once at most and in
/// their order, and none that it still owes. A link whose target takes each message at once lacks none that its predicate
/// admits, up to its limit, but for the newest while it owes that, and for those behind a refusal. A link alone into its
/// target has the first of them, with the same exceptions, and whatever it was given begins with that one.
#[tactic(auto, using(crate::proofs::LinksCopied::each_link_has))]
pub fn each_link_has_its_copies()
    ensures { EachLinkHasItsCopies }
{}

/// Over any calls, whatever its target answers, each link is given some of the elements that were put, each once at most and
/// in their order. They are admitted by its predicate, and no more than its limit. It lacks an element only where its
/// predicate turns that away, its target declined it or put it off or had refused by then, or the link had carried its limit
/// before; or where it still owes it, which is the newest.
#[tactic(auto, using(crate::proofs::AnyTarget::each_link_accounts))]
pub fn each_link_has_its_accounts()
    ensures { EachLinkHasItsAccounts }
{}

/// What an end does next by itself, by the law of a spread, is what the call of that move requires.
#[tactic(auto, using(crate::proofs::MovesAllowed::moves_are_allowed))]
pub fn next_moves_are_allowed()
    ensures { MovesAreAllowed }
{}

/// The element is offered next over the first link that still has to be asked for it, and nowhere only where there is
/// none.
#[tactic(auto, using(crate::proofs::NextOffer::offers_in_order))]
pub fn offers_go_in_order()
    ensures { OffersInOrder }
{}
