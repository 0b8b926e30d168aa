//! The rule of the queue, and what each of its calls tells.
use crate::item::{Item, Round};
use crossbeam_queue::protocol::{Join, Lesson, Outcome, Protocol, Split};
use crossbeam_queue::{Pass, RuledArrayQueue};
use flow_value::Runs;
use std::collections::LinkedList;
use std::marker::PhantomData;

/// What a pass knows: its parts of the right to know the whole, and the numbers of the tasks that its worker holds, in the order in which
/// they were taken. No value is made.
pub struct Hand {
    pub parts: u64,
    pub holds: LinkedList<usize>,
}

/// The rule: the tasks of the round are those in the queue and those that passes hold.
pub struct Fair<J> {
    of: PhantomData<J>,
}

impl<W: Runs, J: Round<W>> Protocol<Item<W, J>, Hand> for Fair<J> {
    ghost use Rattle.flow_crew.specs.Rules.{Balanced, all_parts, hand};

    ghost holds = { Balanced J.all };

    ghost first = { hand all_parts J.all };
}

/// A pass is cut into halves, of which the second holds nothing.
pub struct Halves;

impl Split<Hand> for Halves {
    ghost use Rattle.std.specs.Prelude.{◌-◌, ◌/◌, []};
    ghost use Rattle.flow_crew.specs.Rules.{hand};

    ghost left = { λ v. hand (v.parts - v.parts / 2) v.holds };

    ghost right = { λ v. hand (v.parts / 2) [] };
}

impl Join<Hand> for Halves {
    ghost use Rattle.std.specs.Prelude.{◌+◌, ◌++◌, []};
    ghost use Rattle.flow_crew.specs.Rules.{hand};

    ghost both = { λ v w. hand (v.parts + w.parts) (v.holds ++ w.holds) };

    ghost spent = { hand 0 [] };
}

/// A task is taken: it is held, last.
pub struct Takes<J> {
    of: PhantomData<J>,
}

impl<W: Runs, J: Round<W>> Outcome<Item<W, J>, Hand> for Takes<J> {
    ghost use Rattle.std.specs.Prelude.{◌≡◌, ◌<◌, ◌∷◌, ◌++◌, [], length};
    ghost use Rattle.flow_crew.specs.Rules.{hand};

    ghost then = { λ v x w. (w ≡ hand v.parts (v.holds ++ x ∷ [])) × (length v.holds < length J.all) };
}

impl<W: Runs, J: Round<W>> Lesson<Item<W, J>, Hand> for Takes<J> {
    ghost use Rattle.flow_crew.specs.Rules.{Tells};

    ghost fact = { Tells J.all };
}

/// The first task that is held is put back.
pub struct Puts<J> {
    of: PhantomData<J>,
}

impl<W: Runs, J: Round<W>> Outcome<Item<W, J>, Hand> for Puts<J> {
    ghost use Rattle.std.specs.Prelude.{◌≡◌, drop};
    ghost use Rattle.flow_crew.specs.Rules.{hand};

    ghost then = { λ v x w. w ≡ hand v.parts (drop 1 v.holds) };
}

impl<W: Runs, J: Round<W>> Lesson<Item<W, J>, Hand> for Puts<J> {
    ghost use Rattle.flow_crew.specs.Rules.{HasRoom};

    ghost fact = { HasRoom J.all };
}

pub(crate) type Queue<W, J> = RuledArrayQueue<Item<W, J>, Hand, Fair<J>>;

pub(crate) type Ticket<W, J> = Pass<Item<W, J>, Hand>;
