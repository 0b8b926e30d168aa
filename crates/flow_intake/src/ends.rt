//! The port's ends of all links that lead into it, by their places, with counts of them.
ghost use Rattle.std.specs.Prelude.{◌≡◌, ◌<◌, ◌≤◌, ◌+◌, ◌^◌, [], ◌∷◌, ◌++◌, Some, None, true, length};
ghost use Rattle.std.specs.Prelude.{◌==◌, cond, false, OnOk, OnErr, IfSome};
ghost use Rattle.flow_intake.specs.Port.{fresh_end, stage_in, link_in, hand_in, is_hand, is_coming, is_owed, count_at};
ghost use Rattle.flow_intake.specs.Ended.{is_completion, has_seen_fault, has_seen_completion, fault_at_ends};
ghost use Rattle.flow_intake.specs.ByLink.{place_of, is_free};
ghost use Rattle.flow_intake.specs.Calls.{put_stage, put_hand};
ghost use Rattle.flow_link.specs.declared.stage.TargetStage.TheVariants.{Free, Hand};

use crate::end::{InEnd, has_seen_fault, is_coming, is_completion, is_owed, of_lower_link};
use flow_link::{LinkId, TargetStage};
use flow_value::{MessageHeader, Parcel};
use std::alloc::{AllocError, Global};
use std::marker::Model;

/// Ends of links. Contracts see the list of them.
#[derive(Drop)]
pub(crate) struct Ends {
    ends: Vec<InEnd>,
    /// How many messages come.
    coming: usize,
    /// For how many messages memory is set aside.
    owed: usize,
    /// At how many ends completion was seen.
    completed: usize,
    /// At how many ends a fault was seen.
    faulted: usize,
}

impl Model for Ends {
    ghost use Rattle.std.specs.Coded.{codes};
    ghost use Rattle.std.specs.Prelude.{List, ◌≡◌};
    ghost use Rattle.flow_value.specs.contracts.value.Value as content;
    ghost use Rattle.flow_intake.specs.Port.{EndState, count_at, is_coming, is_owed};
    ghost use Rattle.flow_intake.specs.Ended.{is_completion, has_seen_fault};

    ghost Value = { List EndState };

    ghost coded = { Prim.hlevel (codes, content.the_row.coded) };

    ghost view = { λ e. e.ends.items };

    ghost invariant = { λ e. (e.coming ≡ count_at is_coming e.ends.items) ×
        (e.owed ≡ count_at is_owed e.ends.items) ×
        (e.completed ≡ count_at is_completion e.ends.items) ×
        (e.faulted ≡ count_at has_seen_fault e.ends.items) };
}

impl Ends {
    /// No ends.
    pub(crate) fn new(alloc: Global) -> Ends
        ensures { result ≡ [] }
    {
        Ends {
            ends: Vec::new(alloc),
            coming: 0,
            owed: 0,
            completed: 0,
            faulted: 0,
        }
    }

    /// How many messages come.
    #[inline]
    pub(crate) fn coming(&self) -> usize
        ensures count { result ≡ count_at is_coming self.now }
    {
        self.coming
    }

    /// For how many messages memory is set aside.
    pub(crate) fn owed(&self) -> usize
        ensures count { result ≡ count_at is_owed self.now }
    {
        self.owed
    }

    /// Whether completion was seen at one of them.
    pub(crate) fn has_seen_completion(&self) -> bool
        ensures { result ≡ has_seen_completion self.now }
    {
        self.completed > 0
    }

    /// The fault that was seen at one of them, and its link: of several the one over the link with the lowest number.
    pub(crate) fn fault_seen(&self) -> Option<(LinkId, u32)>
        ensures { result ≡ fault_at_ends self.now }
    {
        if self.faulted == 0 {
            return None;
        }
        let mut lowest = None;
        for end in &self.ends {
            lowest = of_lower_link(lowest, end.fault_over());
        }
        lowest
    }

    /// How many ends there are.
    pub(crate) fn len(&self) -> usize
        ensures { result ≡ length self.now }
    {
        self.ends.len()
    }

    /// Where the end at this place stands.
    pub(crate) fn stage(&self, place: usize) -> TargetStage
        requires { place < length self.now }
        ensures { result ≡ stage_in place self.now }
    {
        self.ends[place].stage()
    }

    /// Whether nothing is under way over the link at this place. Then its end has nothing in hand.
    #[inline]
    pub(crate) fn is_free(&self, place: usize) -> bool
        requires { place < length self.now }
        ensures free { result ≡ is_free (stage_in place self.now) }
        ensures hand { result ≡ true → hand_in place self.now ≡ None }
    {
        self.ends[place].is_free()
    }

    /// The link of the end at this place.
    pub(crate) fn link(&self, place: usize) -> LinkId
        requires { place < length self.now }
        ensures { result ≡ link_in place self.now }
    {
        self.ends[place].link()
    }

    /// The end at this place stands elsewhere from now on, with what it has in hand, if it has.
    pub(crate) fn go_to(&mut self, place: usize, stage: TargetStage)
        requires place { place < length self.old }
        requires hand { is_hand stage ≡ is_hand (stage_in place self.old) }
        ensures moved { self.new ≡ put_stage place stage self.old }
        ensures coming { count_at is_coming self.new + cond (is_coming (stage_in place self.old)) 1 0 ≡
            count_at is_coming self.old + cond (is_coming stage) 1 0 }
        ensures owed { count_at is_owed self.new + cond (is_owed (stage_in place self.old)) 1 0 ≡
            count_at is_owed self.old + cond (is_owed stage) 1 0 }
        ensures len { length self.new ≡ length self.old }
    {
        let before = self.stage(place);
        self.ends[place].go_to(stage);
        self.coming = recounted(self.coming, is_coming(&before), is_coming(&stage));
        self.owed = recounted(self.owed, is_owed(&before), is_owed(&stage));
        self.completed = completions_after(self.completed, &before, &stage);
        self.faulted = faults_after(self.faulted, &before, &stage);
    }

    /// The end at this place, where the message lies in the slot, has it in hand.
    pub(crate) fn open(&mut self, place: usize, header: MessageHeader, parcel: Parcel)
        requires place { place < length self.old }
        requires before { is_coming (stage_in place self.old) ≡ true }
        ensures moved { self.new ≡ put_hand place (Hand header) (Some parcel) self.old }
        ensures coming { count_at is_coming self.new ≡ count_at is_coming self.old }
        ensures owed { count_at is_owed self.new ≡ count_at is_owed self.old }
        ensures len { length self.new ≡ length self.old }
    {
        self.ends[place].open(header, parcel);
    }

    /// The end at this place gives what it has in hand, and is free.
    pub(crate) fn close(&mut self, place: usize) -> Parcel
        requires place { place < length self.old }
        requires before { is_hand (stage_in place self.old) ≡ true }
        ensures parcel { hand_in place self.old ≡ Some result }
        ensures moved { self.new ≡ put_hand place Free None self.old }
        ensures coming { count_at is_coming self.new + 1 ≡ count_at is_coming self.old }
        ensures owed { count_at is_owed self.new + 1 ≡ count_at is_owed self.old }
        ensures len { length self.new ≡ length self.old }
    {
        self.coming -= 1;
        self.owed -= 1;
        self.ends[place].close()
    }

    /// One more end, of a link over which nothing is under way.
    pub(crate) fn add(&mut self, link: LinkId) -> Result<(), AllocError>
        ensures added { OnOk result (self.new ≡ self.old ++ fresh_end link ∷ []) }
        ensures coming { OnOk result (count_at is_coming self.new ≡ count_at is_coming self.old) }
        ensures owed { OnOk result (count_at is_owed self.new ≡ count_at is_owed self.old) }
        ensures len { OnOk result (length self.new ≡ length self.old + 1) }
        ensures kept { OnErr result (self.new ≡ self.old) }
    {
        self.ends.push(InEnd::new(link))?;
        Ok(())
    }

    /// The place of this link's end.
    pub(crate) fn find(&self, link: LinkId) -> Option<usize>
        ensures place { result ≡ place_of link self.now }
        ensures there { IfSome result (λ place. place < length self.now) }
    {
        self.ends.iter().position(|end| end.link() == link)
    }
}

/// The count when one of those counted may have gone and one may have come.
fn recounted(count: usize, before: bool, after: bool) -> usize
    requires there { cond before 1 0 ≤ count }
    requires small { count < 2 ^ 63 }
    ensures { result + cond before 1 0 ≡ count + cond after 1 0 }
{
    count - usize::from(before) + usize::from(after)
}

/// How many ends have seen completion after one of them moved: few moves have to do with that.
fn completions_after(count: usize, before: &TargetStage, after: &TargetStage) -> usize
    requires there { cond (is_completion before.now) 1 0 ≤ count }
    requires small { count < 2 ^ 63 }
    ensures { result + cond (is_completion before.now) 1 0 ≡ count + cond (is_completion after.now) 1 0 }
{
    if !has_ended(before) && !has_ended(after) {
        return count;
    }
    recounted(count, is_completion(before), is_completion(after))
}

/// The same of faults.
fn faults_after(count: usize, before: &TargetStage, after: &TargetStage) -> usize
    requires there { cond (has_seen_fault before.now) 1 0 ≤ count }
    requires small { count < 2 ^ 63 }
    ensures { result + cond (has_seen_fault before.now) 1 0 ≡ count + cond (has_seen_fault after.now) 1 0 }
{
    if !has_ended(before) && !has_ended(after) {
        return count;
    }
    recounted(count, has_seen_fault(before), has_seen_fault(after))
}

/// Whether an end has seen that its link ended.
fn has_ended(stage: &TargetStage) -> bool
    ensures completion { result ≡ false → is_completion stage.now ≡ false }
    ensures fault { result ≡ false → has_seen_fault stage.now ≡ false }
{
    matches!(stage, TargetStage::Ended(_))
}
