//! Laws about exits. Each stands on a function that does nothing: whoever calls it has the whole law.
ghost use Rattle.flow_exit.specs.ExitKeeps.{ExitsKeep};

/// Each call keeps an exit in order, what it does next is a call that may be made, and its move keeps its link in order. No
/// call of its caller changes what the link knows of it.
#[tactic(auto, using(crate::proofs::ExitsKeep::exits_keep))]
pub fn exits_keep()
    ensures { ExitsKeep }
{}
