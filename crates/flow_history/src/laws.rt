//! Laws about blocks that a caller drives by hand. Each stands on a function that does nothing: whoever calls it has the
//! whole law.
ghost use Rattle.flow_history.specs.Copied.{CopiesAreGiven};
ghost use Rattle.flow_history.specs.Grouped.{GroupsAreKept};
ghost use Rattle.flow_history.specs.Kept.{MessagesAreKept, NewPortsTookNothing};
ghost use Rattle.flow_history.specs.Ordered.{MessagesGoByRule, MessagesGoInOrder};
ghost use Rattle.flow_history.specs.Reserved.{ReservedAreKept};
ghost use Rattle.flow_history.specs.Worked.{WorkIsKept};
ghost use Rattle.flow_history.specs.WriteOnce.{WriteOnceTakesOne};

/// Nothing came to ports that were just made. From a block with such ports the other laws begin.
pub fn new_ports_took_nothing()
    ensures { NewPortsTookNothing }
{}

/// Whatever is called, in whatever order: a buffer, a batch or a join gives each of its outputs once, in order, and has the
/// rest left. A buffer, a broadcast and a write-once block make their outputs of their messages as they are, a batch makes
/// rows of them, and a join tuples; what they made nothing of they hold. What they hold, what they have not wholly given and
/// what comes fit into the capacity. A write-once block with room for one message takes no second.
pub fn messages_are_kept()
    ensures { MessagesAreKept }
{}

/// Whatever is called, and whatever targets answer, what a block gives over a link, unless it copies, is what the link's
/// predicate admits, and no more than its limit. This holds of blocks with a function, whose jobs the caller begins and ends
/// too, of batched joins, and of joins that reserve.
pub fn messages_go_by_rule<W>()
    ensures { MessagesGoByRule W }
{}

/// Where targets decline or put off over no link that is to take each message at once, a message goes over a link only where
/// each earlier one rejects it, need not take it at once, or is cut or refused. This holds of the same blocks.
pub fn messages_go_in_order<W>()
    ensures { MessagesGoInOrder W }
{}

/// Whatever is called, a batched join cuts what came in into groups, in the order in which it came over all ports, and
/// holds the rest. It gives each group once, in order, and has the rest left. At each port the messages that it holds, those
/// of groups that it has left, and those that come fit into the port's capacity.
pub fn groups_are_kept()
    ensures { GroupsAreKept }
{}

/// Whatever is called, a join that reserves makes tuples of what it took, each with one message of each port, in order, and
/// holds the rest. It gives each tuple once, in order, and has the rest left. No port took more than one message more than
/// another, and none did unless messages are claimed, nor where nothing comes. What it holds at a port, the tuples that it has
/// left, and what comes there fit into the capacity.
pub fn reserved_messages_are_kept()
    ensures { ReservedAreKept }
{}

/// Whatever is called, and whatever targets answer, each link out of a block that copies is given some of what the block
/// made, in order and once each at most: what its predicate admits, and no more than its limit. It lacks an element only
/// where its predicate turns that away, its target declined it or put it off or had refused by then, or the link had carried
/// its limit before; or where it still owes it, which is the newest. Where targets answer by the rules of their links, one
/// whose target takes each message at once lacks none that its predicate admits, up to its limit, but for the newest while
/// the link owes that, and for those behind a refusal.
pub fn copies_are_given()
    ensures { CopiesAreGiven }
{}

/// Whatever is called, an action, a transform or a transform-many gives, has left or has recorded the results of the
/// messages that it took, in order, but for those that it holds. A result that came back out of turn is that of its
/// message, and its own fault that of the message that it holds first. What it holds, the messages whose results it has not
/// wholly given, and what comes fit into the capacity.
pub fn work_is_kept<W>()
    ensures { WorkIsKept W }
{}

/// Whatever is called, a write-once block of a plan takes one message in all, and holds none. It copies the message that
/// it took, and has that left, or nothing. Where targets answer by the rules of their links, and nothing is left of what it
/// took, each link was given the message, rejects it, refused, or gave as many as it may; what is left is to come over some
/// link that admits it and was not given it.
pub fn write_once_takes_one<W>()
    ensures { WriteOnceTakesOne W }
{}
