//! Laws about networks. Each stands on a function that does nothing: whoever calls it has the whole law. Those of every
//! list of events are in `flow_core`.
ghost use Rattle.flow_net.specs.Asked.{ExitsWantNothing};
ghost use Rattle.flow_net.specs.Net.{layout_in, parts_of};
ghost use Rattle.flow_net.specs.Numbers.{BlocksFaultByNumber, WorksFaultByNumber};

use crate::net::Net;
use flow_value::Runs;

/// What a block's work means of a value is never fault 0: out of memory, which has no number, is no meaning.
pub fn works_fault_by_number<W: Runs>()
    ensures { WorksFaultByNumber W W.meaning }
{}

/// No block ends by fault 0, whatever events are asked for, where no input does.
pub fn blocks_fault_by_number<W: Runs>()
    ensures { BlocksFaultByNumber W W.meaning }
{}

/// At its exits a network wants nothing by itself, and takes nothing that it put off there: no driver does so on behalf of a caller.
pub fn exits_want_nothing<W: Runs>(net: &Net<W>)
    ensures { ExitsWantNothing (layout_in net.now) (parts_of net.now) }
{}
