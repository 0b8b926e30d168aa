//! A fault of a plan, as a line tells it.
ghost use Rattle.std.specs.Prelude.{◌≡◌, Some};
ghost use Rattle.flow_fault_text.specs.FaultText.{plan_text, place_of};

use crate::fault::TextPlace;
use flow_link::{Place, PlanFault};
use std::fmt;

/// A fault of a plan, as a refusal's line has it.
#[derive(Clone, Copy)]
pub(crate) struct PlanLine(pub(crate) PlanFault);

impl fmt::Display for PlanLine {
    ghost output = { λ line. Some (plan_text line.0) };

    fn fmt<W: fmt::Write>(&self, f: &mut fmt::Formatter<W>) -> fmt::Result {
        match self.0 {
            PlanFault::Limit => f.write_str("1 Limit"),
            PlanFault::DuplicateName(block) => write!(f, "2 DuplicateName block {block}"),
            PlanFault::UnknownBlock(link) => write!(f, "3 UnknownBlock link {link}"),
            PlanFault::Port(link) => write!(f, "4 Port link {link}"),
            PlanFault::NoOutput(link) => write!(f, "5 NoOutput link {link}"),
            PlanFault::BadOption(place) => {
                let place = text_place(place);
                write!(f, "6 BadOption {place}")
            }
            PlanFault::CapacityBelowSize(block) => {
                write!(f, "7 CapacityBelowSize block {block}")
            }
            PlanFault::SharedSource(block) => write!(f, "8 SharedSource block {block}"),
            PlanFault::Cycle => f.write_str("9 Cycle"),
        }
    }
}

/// The place of a draft's fault in its text.
fn text_place(place: Place) -> TextPlace
    ensures { result ≡ place_of place }
{
    match place {
        Place::Block(number) => TextPlace::Block(number),
        Place::Link(number) => TextPlace::Link(number),
    }
}
