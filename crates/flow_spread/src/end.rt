//! A block's end of one link over which copies go.
ghost use Rattle.std.specs.Prelude.{◌≡◌, Some};
ghost use Rattle.flow_link.specs.LinkOk.{HasRoom};
ghost use Rattle.flow_spread.specs.End.{fresh_end, is_open, is_busy, is_due, is_answer, moved, takes_up};
ghost use Rattle.flow_spread.specs.Sends.{sent_end};

use crate::share::Share;
use flow_link::SourceStage;
use flow_outlet::{LinkRule, OutEnd};
use flow_value::Value;

/// The block's end of a link, and how the element stands there.
#[derive(Drop)]
pub struct CopyEnd {
    /// The end of the link.
    pub link: OutEnd,
    /// The link has not answered for the element yet: it was not given it, did not refuse, and is not to be passed over.
    pub owes: bool,
    /// What the link is to have of the element, once that is made.
    pub share: Option<Share>,
}

impl CopyEnd {
    /// The end of a link over which nothing has gone yet.
    pub fn new(rule: LinkRule) -> CopyEnd
        ensures { result ≡ fresh_end rule }
    {
        CopyEnd {
            link: OutEnd::new(rule),
            owes: false,
            share: None,
        }
    }

    /// Whether the element with this id may be offered over the link now.
    #[inline(always)]
    pub fn is_open(&self, id: u64) -> bool
        ensures { result ≡ is_open id self.now }
    {
        self.owes && self.link.is_free() && self.link.declined != id
    }

    // its link stands elsewhere from now on; what was made for a message goes with it
    #[inline(always)]
    pub(crate) fn go_to(&mut self, link: OutEnd, owes: bool)
        ensures { self.new ≡ moved link owes self.old }
    {
        if link.id().is_none() {
            self.share = None;
        }
        self.link = link;
        self.owes = owes;
    }

    // its link sent the message with this id, to a target that took it at once; what was made for that goes with it
    #[inline(always)]
    pub(crate) fn send(&mut self, id: u64) -> Option<Share>
        requires { HasRoom self.old.link.rule.max self.old.link.given }
        ensures share { result ≡ self.old.share }
        ensures sent { self.new ≡ sent_end id self.old }
    {
        self.link.note_sent(id);
        self.owes = false;
        self.share.take()
    }

    // what the link is to have is made
    #[inline(always)]
    pub(crate) fn put_share(&mut self, share: Share)
        ensures { self.new ≡ record self.old { share = Some share } }
    {
        // so that nothing is dropped where nothing is there
        if self.share.is_some() {
            self.share = None;
        }
        self.share = Some(share);
    }

    // the end when the block takes this element, where what the last one left there is forgotten
    pub(crate) fn take_up(&mut self, value: &Value)
        ensures { self.new ≡ takes_up value.now self.old }
    {
        if let SourceStage::Waiting(_) = self.link.stage {
            self.link.stage = SourceStage::Free;
        }
        self.owes = is_due(&self.link, value);
        if self.share.is_some() {
            self.share = None;
        }
    }
}

/// Whether the target has to be given the element, or to say more of it.
#[inline]
pub(crate) fn is_busy(stage: SourceStage) -> bool
    ensures { result ≡ is_busy stage }
{
    match stage {
        SourceStage::Posted(_)
        | SourceStage::Out(_)
        | SourceStage::Accepted(_)
        | SourceStage::Wished(_)
        | SourceStage::AskedBy(_)
        | SourceStage::Reserved(_)
        | SourceStage::Claimed(_) => true,
        SourceStage::Free
        | SourceStage::Waiting(_)
        | SourceStage::Crossing
        | SourceStage::Refused
        | SourceStage::Ended(_) => false,
    }
}

/// Whether a target that is seen to stand so has answered for the element.
#[inline]
pub(crate) fn is_answer(once: bool, stage: SourceStage) -> bool
    ensures { result ≡ is_answer once stage }
{
    match stage {
        SourceStage::Refused => true,
        SourceStage::Waiting(_) | SourceStage::AskedBy(_) => !once,
        _ => false,
    }
}

// whether the link is to be asked for a new element
fn is_due(link: &OutEnd, value: &Value) -> bool
    ensures { result ≡ is_due value.now link.now }
{
    !link.is_over() && !link.is_cut() && link.rule.when.admits(value)
}
