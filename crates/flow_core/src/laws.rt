//! Laws about the states of a network. Each stands on a function that does nothing: whoever calls it has the whole law.
ghost use Rattle.flow_core.specs.Numbers.{BlocksFaultByNumber};
ghost use Rattle.flow_core.specs.Statements.{AcceptedWasTaken, AllLooksKeep, EndedExitsStay, EntryCallsKeep, EventsKeep, ExitCallsKeep};
ghost use Rattle.flow_core.specs.Statements.{FreshKeeps, InOrderIsLawful, InputsChange, KeptIsHeld, KeptIsLawful};
ghost use Rattle.flow_core.specs.Statements.{LooksLeavePosted, LooksWriteNoMark};
ghost use Rattle.flow_core.specs.Statements.{NextIsAllowed, PostedListsStay, PostsKeep, ReceivedWasGiven};
ghost use Rattle.flow_core.specs.Statements.{SchedulesGoWell, StillIsQuiet, StillRests};

/// A network in which nothing has happened is in order.
pub fn fresh_networks_are_in_order<W>()
    ensures { FreshKeeps W }
{}

/// Each event that may happen keeps each block, input and link in order, and both ends of each link aware of it.
pub fn events_keep_networks_in_order<W>()
    ensures { EventsKeep W }
{}

/// What the caller of an exit does, which is to ask and to receive, keeps the network in order, too.
pub fn exit_calls_keep_networks_in_order<W>()
    ensures { ExitCallsKeep W }
{}

/// What the caller of an input does that its link knows nothing of keeps the network in order.
pub fn entry_calls_keep_networks_in_order<W>()
    ensures { EntryCallsKeep W }
{}

/// A value that the caller of an input posts keeps the network in order.
pub fn posts_keep_networks_in_order<W>()
    ensures { PostsKeep W }
{}

/// An event changes an input by one call of the network at most, so what is posted stays, but for a value that was posted to
/// its target and is turned down.
pub fn events_leave_what_is_posted<W>()
    ensures calls { InputsChange W }
    ensures posted { PostedListsStay W }
{}

/// What the caller of an input was told as accepted was taken over its link, each once and in order, as far as it went.
pub fn accepted_was_taken<W>()
    ensures { AcceptedWasTaken W }
{}

/// What was received at an exit is what its block gave over its link, each once and in order, and it gave at most one message
/// more.
pub fn received_was_given<W>()
    ensures { ReceivedWasGiven W }
{}

/// Where the link of an exit has ended, no event changes the exit any more.
pub fn ended_exits_stay<W>()
    ensures { EndedExitsStay W }
{}

/// Where all of a network is in order, whenever the ends of its links looked last: its run is lawful, and a look of all of them leaves
/// it in order, both ends of each link aware of it, writes no mark, and leaves what is posted, but for what its target turned down.
pub fn looks_make_ends_aware<W>()
    ensures lawful { InOrderIsLawful W }
    ensures keeps { AllLooksKeep W }
    ensures marks { LooksWriteNoMark W }
    ensures posted { LooksLeavePosted W }
{}

/// The run of a network in order is lawful.
pub fn networks_in_order_are_lawful<W>()
    ensures { KeptIsLawful W }
{}

/// In a network in order, what a source keeps for a target that reserves is offered and given to nobody else, and the target
/// that claims it is given it. Of a copy, each link has its own.
pub fn kept_messages_go_to_one<W>()
    ensures { KeptIsHeld W }
{}

/// What an end of a link would do next, by its own data alone, is a move that the link's phase allows.
pub fn next_moves_are_allowed<W>()
    ensures { NextIsAllowed W }
{}

/// Where nothing may happen any more, nothing is left to do.
pub fn quiet_networks_are_quiet<W>()
    ensures { StillIsQuiet W }
{}

/// Where nothing may happen any more, no message is under way over a link: each that was given was taken.
pub fn quiet_networks_are_at_rest<W>()
    ensures { StillRests W }
{}

/// Whatever events are asked for, in whatever order: the run so far is lawful, what is kept for a target goes to it alone, and
/// where nothing may happen any more the run is quiet.
pub fn every_schedule_goes_well<W>()
    ensures { SchedulesGoWell W }
{}

/// Where no work faults by number 0 and no input ends by it, no block ends by it, whatever events are asked for.
pub fn blocks_fault_by_number<W>()
    ensures { BlocksFaultByNumber W }
{}
