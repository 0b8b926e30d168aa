//! Which parts of a scattered network are missing.
ghost use Rattle.std.specs.Prelude.{◌≡◌, ◌≤◌, ◌<◌, ◌-◌, ℕ, All, map, IfSome, IfNone};
ghost use Rattle.std.specs.List.Sorted.{IsNonDecreasingBy, IsPermutation};
ghost use Rattle.flow_link.specs.Lists.{numbers_from};
ghost use Rattle.flow_task.specs.Absent.{AllDiffer, AllThere, EntriesStay, ExitsStay, HasAll, IsAbsent, IsGap, IsThere, NoTwoAlike, TasksStay, part_count};
ghost use Rattle.flow_task.specs.Parts.{AllEntriesOf, AllExitsOf, AllTasksOf, entry_number, exit_number, task_number};

use crate::numbered::{Entry, Exit, Parts, Task};
use flow_value::Runs;

impl<W: Runs> Parts<W> {
    /// Puts all parts in the order of their numbers.
    pub fn sort(&mut self)
        ensures board { self.new.board ≡ self.old.board }
        ensures tasks { IsPermutation self.old.tasks.items self.new.tasks.items }
        ensures entries { IsPermutation self.old.entries.items self.new.entries.items }
        ensures exits { IsPermutation self.old.exits.items self.new.exits.items }
        ensures tasks_rise { IsNonDecreasingBy task_number self.new.tasks.items }
        ensures entries_rise { IsNonDecreasingBy entry_number self.new.entries.items }
        ensures exits_rise { IsNonDecreasingBy exit_number self.new.exits.items }
        ensures tasks_of { TasksStay self.old.tasks.items self.new.tasks.items }
        ensures entries_of { EntriesStay self.old.entries.items self.new.entries.items }
        ensures exits_of { ExitsStay self.old.exits.items self.new.exits.items }
    {
        self.tasks.sort_unstable_by_key(|task| task.number);
        self.entries.sort_unstable_by_key(|entry| entry.number);
        self.exits.sort_unstable_by_key(|exit| exit.number);
    }

    /// The least number that no part has; where two parts have one number, some part may have it. It looks at each part once.
    pub fn first_missing(&self) -> Option<usize>
        requires tasks_of { AllTasksOf self.now.board self.now.tasks.items }
        requires entries_of { AllEntriesOf self.now.board self.now.entries.items }
        requires exits_of { AllExitsOf self.now.board self.now.exits.items }
        requires tasks_rise { IsNonDecreasingBy task_number self.now.tasks.items }
        requires entries_rise { IsNonDecreasingBy entry_number self.now.entries.items }
        requires exits_rise { IsNonDecreasingBy exit_number self.now.exits.items }
        ensures all { IfNone result (AllThere self.now.board self.now.tasks.items self.now.entries.items self.now.exits.items) }
        ensures missing { IfSome result (λ n. NoTwoAlike self.now.board self.now.tasks.items self.now.entries.items self.now.exits.items →
            IsAbsent self.now.board self.now.tasks.items self.now.entries.items self.now.exits.items n) }
        ensures within { IfSome result (λ n. NoTwoAlike self.now.board self.now.tasks.items self.now.entries.items self.now.exits.items →
            n < part_count self.now.board) }
        ensures before { IfSome result (λ n. (k : ℕ) → k < n →
            IsThere self.now.board self.now.tasks.items self.now.entries.items self.now.exits.items k) }
    {
        let turned = self.board.rest.plan.block_count() + self.board.closed_count();
        let entries = turned + self.board.lane_count();
        let exits = entries + self.board.open_count();
        let end = exits + self.board.exit_count();
        if let Some(number) = first_gap(&self.tasks, 0, entries) {
            return Some(number);
        }
        if let Some(number) = first_gap(&self.entries, entries, exits) {
            return Some(number);
        }
        first_gap(&self.exits, exits, end)
    }
}

/// A part of a scattered network.
trait Numbered {
    ghost use Rattle.std.specs.Prelude.{◌≡◌, ℕ};

    ghost says: { Self → ℕ };

    /// Its number.
    fn number(&self) -> usize
        ensures { result ≡ says self.now };
}

impl<W: Runs> Numbered for Task<W> {
    ghost says = { λ task. task.number };

    fn number(&self) -> usize {
        self.number
    }
}

impl<W: Runs> Numbered for Entry<W> {
    ghost says = { λ entry. entry.number };

    fn number(&self) -> usize {
        self.number
    }
}

impl<W: Runs> Numbered for Exit<W> {
    ghost says = { λ exit. exit.number };

    fn number(&self) -> usize {
        self.number
    }
}

/// The first number from `first` on and before `end` that none of these has; they have such numbers, and stand in their order.
fn first_gap<T: Numbered>(parts: &[T], first: usize, end: usize) -> Option<usize>
    requires ordered { first ≤ end }
    requires low { All (λ part. first ≤ T.says part) parts.now }
    requires high { All (λ part. T.says part < end) parts.now }
    requires rise { IsNonDecreasingBy T.says parts.now }
    ensures all { IfNone result (map T.says parts.now ≡ numbers_from first (end - first)) }
    ensures missing { IfSome result (λ n. AllDiffer T.says parts.now → IsGap T.says first end parts.now n) }
    ensures before { IfSome result (λ n. HasAll T.says first n parts.now) }
{
    let mut expected = first;
    for part in parts {
        if part.number() != expected {
            return Some(expected);
        }
        expected += 1;
    }
    (expected < end).then_some(expected)
}
