//! Laws about links, and about what a run of a network leaves. Each stands on a function that does nothing: whoever
//! calls it has the whole law.
ghost use Rattle.flow_value.specs.declared.value.Value.{Value};
ghost use Rattle.flow_lawful.specs.Composes.{Composes};
ghost use Rattle.flow_link.specs.JournalGrows.{JournalsGrow};
ghost use Rattle.flow_law.specs.LawfulExamples.{GoodRunsAreLawful};
ghost use Rattle.flow_link.specs.LeadsWell.{LinksLead};
ghost use Rattle.flow_link.specs.LooksKeep.{LooksKeep};
ghost use Rattle.flow_law.specs.MidMove.{KeptInMidMove};
ghost use Rattle.flow_link.specs.MovesKeep.{SourceMovesKeep, TargetMovesKeep};
ghost use Rattle.flow_link.specs.Phase.{WordsTell};
ghost use Rattle.flow_law.specs.PlanExamples.{FaultsOfDrafts};
ghost use Rattle.flow_law.specs.Rebase.{Rebases};
ghost use Rattle.flow_law.specs.RefusedExamples.{WrongRunsAreRefused};
ghost use Rattle.flow_lawful.specs.RestsByParts.{LinksRest, RestsCompose};
ghost use Rattle.flow_link.specs.Told.{LinksTell};
ghost use Rattle.flow_link.specs.Stage.{StagesAreKept};
ghost use Rattle.flow_law.specs.UnfinishedExamples.{UnfinishedRunsAreNotQuiet};
ghost use Rattle.flow_law.specs.WaitsAtRest.{TwoWaitAtRest};
ghost use Rattle.flow_law.specs.WrongParts.{WrongPartsAreRefused};

/// The words of two different phases differ.
pub fn words_differ()
    ensures { WordsTell }
{}

/// A move that an end makes where its own stage allows it is one that the phase allows, and leaves the link in order.
pub fn moves_keep_links_in_order()
    ensures of_source { SourceMovesKeep Value }
    ensures of_target { TargetMovesKeep Value }
{}

/// A look leaves the link in order, and a second look finds nothing new. A fresh link is in order, and both ends have
/// seen it.
pub fn looks_keep_links_in_order()
    ensures { LooksKeep Value }
{}

/// The stages that a program keeps change by a look as those of the model do, whatever the target has in hand.
pub fn stages_are_kept()
    ensures { StagesAreKept }
{}

/// Of a link in order all that was given is taken or under way, what was accepted is not denied, and what a look tells
/// is so.
pub fn links_in_order_tell()
    ensures { LinksTell Value }
{}

/// The links of a plan lead from blocks and inputs that are there to blocks that are there. No two lead from one input,
/// and those of inputs pass their ends on and have no limit.
pub fn links_lead_well<W>()
    ensures { LinksLead W }
{}

/// A link stays in order when both its ends begin to count later.
pub fn counts_begin_anywhere()
    ensures { Rebases Value }
{}

/// What a right program leaves is lawful and quiet, in examples of each kind of block.
pub fn good_runs_are_lawful()
    ensures { GoodRunsAreLawful }
{}

/// What a wrong program would leave is refused: for each of these wrongs there is an example. Some runs are not lawful,
/// some are not quiet, and some a part of their network refuses before they show it.
pub fn wrong_runs_are_refused()
    ensures not_lawful { WrongRunsAreRefused }
    ensures not_quiet { UnfinishedRunsAreNotQuiet }
    ensures not_kept { WrongPartsAreRefused }
{}

/// Of the faults of a draft the first in order is the one that counts, in an example of each.
pub fn faults_come_in_order()
    ensures { FaultsOfDrafts }
{}

/// A network whose links are in order, and whose blocks, inputs and exits each keep their own laws, is lawful.
pub fn lawful_by_parts<W>()
    ensures { Composes W }
{}

/// Where no end of a link has a move, each link rests. A network whose parts keep their own laws is quiet when each
/// link rests, both its ends have seen it, and no block and no input has anything left to do.
pub fn quiet_by_parts<W>()
    ensures links_rest { LinksRest W }
    ensures quiet { RestsCompose W }
{}

/// There are networks whose parts keep their own laws, also while a message is under way.
pub fn laws_hold_in_mid_move()
    ensures { KeptInMidMove }
{}

/// There are networks whose parts keep their own laws and have nothing left to do, also while messages wait for room or
/// for a partner.
pub fn parts_rest_while_messages_wait()
    ensures { TwoWaitAtRest }
{}

/// One more mark adds its value to what was taken or given, and changes nothing else of it.
pub fn journals_grow()
    ensures { JournalsGrow }
{}
