//! Laws about ports. Each stands on a function that does nothing: whoever calls it has the whole law.
ghost use Rattle.flow_intake.specs.PortExamples.{PortExamples};
ghost use Rattle.flow_intake.specs.PortKeeps.{MovesKeep, CallsByLinkKeep};
ghost use Rattle.flow_intake.specs.Profile.{AnswersTell, OldestFirst, RoomAddsUp};

/// Each call keeps a port in order.
pub fn calls_keep_ports_in_order()
    ensures moves { MovesKeep }
    ensures by_link { CallsByLinkKeep }
{}

/// A port declines for good exactly where it takes no message any more, and accepts exactly where it takes one at once.
/// It consumes the offer that waits longest, only with room, and always where it may. What it took and what comes fit
/// into its capacity.
pub fn ports_answer_in_order()
    ensures answers { AnswersTell }
    ensures oldest_first { OldestFirst }
    ensures room { RoomAddsUp }
{}

/// There is a port in order where one message comes and another waits. Ports that took on too much, forgot an offer,
/// wait for a message after their end, or put off what they could take, are not in order.
pub fn ports_in_order_and_not()
    ensures { PortExamples }
{}
