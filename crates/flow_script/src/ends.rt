//! The end of a link out of a network by hand: it does what it does next, one move after another.

use crate::lines::{Line, ending_of};
use crate::said::Said;
use flow_exit::ExitEnd;
use flow_link::{Ending, LinkEnd, Move, Phase, TargetStage};
use flow_value::{MessageHeader, Parcel, Value};
use std::alloc::Global;

/// Does a line to an end.
pub(crate) fn end_word(alloc: Global, line: Line, exit: &mut ExitEnd, said: &mut Said) -> bool {
    match line.words {
        "ask" => {
            exit.ask();
            true
        }
        "unask" => {
            exit.ask_no_more();
            true
        }
        "receive" => said.tell(&exit.receive()),
        "received" => said.tell(&exit.received()),
        "next" => said.tell(&exit.next_move()),
        "outcome" => said.tell(&exit.outcome()),
        _ => end_call(alloc, line, exit, said),
    }
}

fn end_call(alloc: Global, line: Line, exit: &mut ExitEnd, said: &mut Said) -> bool {
    match line.word {
        "phase" => match phase_of(line) {
            Some(phase) => {
                exit.look(phase);
                true
            }
            None => false,
        },
        "go" => match line.behind.parse::<i64>() {
            Ok(number) => go_on(alloc, exit, number, said),
            Err(_) => false,
        },
        _ => false,
    }
}

/// The phase that a line names.
fn phase_of(line: Line) -> Option<Phase> {
    if line.name == "ended" {
        return match ending_of(line.rest) {
            Some(Ending::Complete) => Some(Phase::Ended(LinkEnd::Complete)),
            Some(Ending::Fault(number)) => Some(Phase::Ended(LinkEnd::Fault(number))),
            Some(Ending::Open) | None => None,
        };
    }
    let header = MessageHeader::new(line.rest.parse::<u64>().ok()?)?;
    match line.name {
        "offered" => Some(Phase::Offered(header)),
        "posted" => Some(Phase::Posted(header)),
        "given" => Some(Phase::Given(header)),
        _ => None,
    }
}

/// Has it do what it does next, and answers what that is.
fn go_on(alloc: Global, exit: &mut ExitEnd, number: i64, said: &mut Said) -> bool {
    let next = exit.next_move();
    said.tell(&next);
    match next {
        Some(Move::Open) => open(alloc, exit, number, said),
        Some(step) if !makes(exit, step) => said.put(", which it may not"),
        Some(_) | None => true,
    }
}

/// The message comes out of the slot: this number.
fn open(alloc: Global, exit: &mut ExitEnd, number: i64, said: &mut Said) -> bool {
    let Ok(parcel) = Parcel::new(alloc, Value::Int(number)) else {
        return said.put(", no memory");
    };
    if matches!(exit.stage(), TargetStage::Arrived(_)) {
        exit.open(parcel);
        true
    } else {
        said.put(", which it may not")
    }
}

/// Makes this move, if it may, and tells whether it did.
fn makes(exit: &mut ExitEnd, step: Move) -> bool {
    let keeps = exit.kept().is_some();
    match exit.stage() {
        TargetStage::Offered(_) if step == Move::Postpone => exit.postpone(),
        TargetStage::Offered(_) | TargetStage::Posted(_) if step == Move::Want && !keeps =>
            exit.want(),
        TargetStage::Posted(_) if step == Move::TurnDown => exit.turn_down(),
        TargetStage::Postponed(_) if step == Move::Consume && !keeps => exit.consume(),
        TargetStage::Hand(_) if step == Move::Close => exit.close(),
        TargetStage::Free
        | TargetStage::Offered(_)
        | TargetStage::Posted(_)
        | TargetStage::Postponed(_)
        | TargetStage::Accepted(_)
        | TargetStage::Consuming(_)
        | TargetStage::Asking(_)
        | TargetStage::Holding(_)
        | TargetStage::Claiming(_)
        | TargetStage::Arrived(_)
        | TargetStage::Hand(_)
        | TargetStage::Refused(_)
        | TargetStage::Ended(_) => return false,
    }
    true
}
