//! What is under way over the links of a network when its owner looks at the time.
ghost use Rattle.std.specs.Prelude.{◌<◌, ◌≤◌, length};
ghost use Rattle.flow_net.specs.Net.{layout_in};
ghost use Rattle.flow_crew.specs.Runs.{RunsOn};

use flow_link::{LinkId, Move, Phase};
use flow_net::{Event, Net};
use flow_value::Runs;
use std::alloc::Global;

/// Has what is under way over links come to its targets, by at most so many events, and answers how many.
///
/// A share of events may end while a message is under way. The network comes back to its link last of all, and so all that is to follow
/// over it would pile up at its source until then.
pub(crate) fn hand_over<W: Runs>(alloc: Global, net: &mut Net<W>, limit: u64) -> u64
    ensures within { result ≤ limit }
    ensures runs_on { RunsOn net.old net.new }
{
    let mut done = 0;
    for id in 0..net.plan().link_count() {
        done += finish(alloc, net, id, limit - done);
    }
    done
}

/// The same over one link.
fn finish<W: Runs>(alloc: Global, net: &mut Net<W>, id: LinkId, limit: u64) -> u64
    requires { id < length (layout_in net.old).links }
    ensures within { result ≤ limit }
    ensures runs_on { RunsOn net.old net.new }
{
    let mut done = 0;
    while done < limit {
        let Some(next) = next_move(net.phase(id)) else {
            break;
        };
        if !go_on(alloc, net, id, next) {
            break;
        }
        done += 1;
    }
    done
}

/// The next move for a message that is under way. One that its target postponed or reserved waits.
fn next_move(phase: Phase) -> Option<Move> {
    match phase {
        Phase::Posted(_) | Phase::Offered(_) => Some(Move::Want),
        Phase::Wanted(_) => Some(Move::Give),
        Phase::Given(_) => Some(Move::Open),
        Phase::Opened(_) => Some(Move::Close),
        Phase::Idle
        | Phase::Postponed(_)
        | Phase::Asked(_)
        | Phase::Held(_)
        | Phase::Refused
        | Phase::Ended(_) => None,
    }
}

/// An end of a link makes its move. False where it may not, or has no memory for it.
fn go_on<W: Runs>(alloc: Global, net: &mut Net<W>, id: LinkId, next: Move) -> bool
    ensures runs_on { RunsOn net.old net.new }
{
    net.event(alloc, Event::Link(id, next)).is_ok()
}
