//! The port's end of one link.
ghost use Rattle.std.specs.Prelude.{◌≡◌, Some, None, true};
ghost use Rattle.flow_intake.specs.Port.{fresh_end, is_hand, is_coming as coming_at, is_queued as queued_at};
ghost use Rattle.flow_intake.specs.Port.{is_owed as owed_at};
ghost use Rattle.flow_intake.specs.Ended.{is_completion as completion_at, fault_seen as fault_at};
ghost use Rattle.flow_intake.specs.Ended.{has_seen_fault as seen_fault_at, fault_over, of_lower_link};
ghost use Rattle.flow_intake.specs.ByLink.{is_free as free_at};
ghost use Rattle.flow_link.specs.declared.stage.TargetStage.TheVariants.{Free, Hand};

use flow_link::{LinkEnd, LinkId, TargetStage};
use flow_value::{MessageHeader, Parcel, Value};
use std::marker::Model;

/// The port's end of a link. Contracts see the link, the stage, and the message in hand.
#[derive(Drop)]
pub(crate) struct InEnd {
    link: LinkId,
    stage: TargetStage,
    /// What it has in hand.
    parcel: Option<Parcel>,
}

impl Model for InEnd {
    ghost use Rattle.std.specs.Coded.{codes};
    ghost use Rattle.std.specs.Prelude.{◌≡◌, is_some};
    ghost use Rattle.flow_value.specs.contracts.value.Value as content;
    ghost use Rattle.flow_intake.specs.Port.{EndState, is_hand};

    ghost Value = { EndState };

    ghost coded = { Prim.hlevel (codes, content.the_row.coded) };

    ghost view = { λ e. record { link = e.link; stage = e.stage; hand = e.parcel } };

    ghost invariant = { λ e. is_some e.parcel ≡ is_hand e.stage };
}

/// Whether the message comes: it is wanted, and not taken yet.
pub(crate) fn is_coming(stage: &TargetStage) -> bool
    ensures { result ≡ coming_at stage.now }
{
    matches!(
        stage,
        TargetStage::Accepted(_)
            | TargetStage::Consuming(_)
            | TargetStage::Asking(_)
            | TargetStage::Holding(_)
            | TargetStage::Claiming(_)
            | TargetStage::Arrived(_)
            | TargetStage::Hand(_)
    )
}

/// Whether the offer waits at the target, which may come back for it.
pub(crate) fn is_queued(stage: &TargetStage) -> bool
    ensures { result ≡ queued_at stage.now }
{
    matches!(
        stage,
        TargetStage::Postponed(_) | TargetStage::Asking(_) | TargetStage::Holding(_)
    )
}

/// Whether memory is set aside for the message.
pub(crate) fn is_owed(stage: &TargetStage) -> bool
    ensures { result ≡ owed_at stage.now }
{
    is_queued(stage) || is_coming(stage)
}

/// Whether it has seen that its link ended with completion.
pub(crate) fn is_completion(stage: &TargetStage) -> bool
    ensures { result ≡ completion_at stage.now }
{
    matches!(stage, TargetStage::Ended(LinkEnd::Complete))
}

/// The fault with which it has seen its link end.
pub(crate) fn fault_seen(stage: &TargetStage) -> Option<u32>
    ensures { result ≡ fault_at stage.now }
{
    match stage {
        TargetStage::Ended(LinkEnd::Fault(number)) => Some(*number),
        _ => None,
    }
}

/// Of two faults that came over links, the one over the link with the lower number.
pub fn of_lower_link(
    first: Option<(LinkId, u32)>,
    later: Option<(LinkId, u32)>,
) -> Option<(LinkId, u32)>
    ensures { result ≡ of_lower_link first later }
{
    let Some(first) = first else {
        return later;
    };
    match later {
        Some(later) if later.0 < first.0 => Some(later),
        Some(_) | None => Some(first),
    }
}

/// Whether it has seen that its link ended with a fault.
pub(crate) fn has_seen_fault(stage: &TargetStage) -> bool
    ensures { result ≡ seen_fault_at stage.now }
{
    fault_seen(stage).is_some()
}

impl InEnd {
    /// The end of a link over which nothing is under way.
    pub(crate) fn new(link: LinkId) -> InEnd
        ensures { result ≡ fresh_end link }
    {
        InEnd {
            link,
            stage: TargetStage::Free,
            parcel: None,
        }
    }

    /// The fault with which it has seen its link end, and the link.
    pub(crate) fn fault_over(&self) -> Option<(LinkId, u32)>
        ensures { result ≡ fault_over self.now }
    {
        match fault_seen(&self.stage) {
            Some(number) => Some((self.link, number)),
            None => None,
        }
    }

    /// The link.
    pub(crate) fn link(&self) -> LinkId
        ensures { result ≡ self.now.link }
    {
        self.link
    }

    /// Where it stands.
    pub(crate) fn stage(&self) -> TargetStage
        ensures { result ≡ self.now.stage }
    {
        self.stage
    }

    /// Whether nothing is under way over the link. Then it has nothing in hand.
    #[inline]
    pub(crate) fn is_free(&self) -> bool
        ensures free { result ≡ free_at self.now.stage }
        ensures hand { result ≡ true → self.now.hand ≡ None }
    {
        matches!(self.stage, TargetStage::Free)
    }

    /// It stands elsewhere from now on, with what it has in hand, if it has.
    pub(crate) fn go_to(&mut self, stage: TargetStage)
        requires { is_hand stage ≡ is_hand self.old.stage }
        ensures { self.new ≡ record self.old { stage = stage } }
    {
        self.stage = stage;
    }

    /// It has this message in hand.
    pub(crate) fn open(&mut self, header: MessageHeader, parcel: Parcel)
        ensures { self.new ≡ record self.old { stage = Hand header; hand = Some parcel } }
    {
        self.stage = TargetStage::Hand(header);
        self.parcel = Some(parcel);
    }

    /// It gives what it has in hand, and is free.
    pub(crate) fn close(&mut self) -> Parcel
        requires { is_hand self.old.stage ≡ true }
        ensures parcel { self.old.hand ≡ Some result }
        ensures closed { self.new ≡ record self.old { stage = Free; hand = None } }
    {
        self.stage = TargetStage::Free;
        match self.parcel.take() {
            Some(parcel) => parcel,
            None => unreachable!(),
        }
    }
}
