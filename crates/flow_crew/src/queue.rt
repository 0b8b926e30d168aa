//! All tasks go into the queue, and come out of it.
ghost use Rattle.std.specs.Prelude.{◌≡◌, ◌≤◌, [], length, reverse, ℕ};
ghost use Rattle.std.specs.Vec.{vec_capacity};
ghost use Rattle.crossbeam_queue.specs.Passes.{view, IsPassOf, ruled_capacity};
ghost use Rattle.flow_crew.specs.Numbers.{numbers, weigh};
ghost use Rattle.flow_crew.specs.Rounds.{AllIn};
ghost use Rattle.flow_crew.specs.Rules.{all_parts, hand};

use crate::item::{Item, Round};
use crate::rule::{Puts, Queue, Takes, Ticket};
use flow_board::Task;
use flow_value::Runs;
use std::sync::Wait;

/// Puts all tasks into the queue, the last first.
pub(crate) fn put_in<W: Runs, J: Round<W>, R: Wait>(
    rt: &R,
    queue: &Queue<W, J>,
    pass: &mut Ticket<W, J>,
    tasks: &mut Vec<Task<W>>,
)
    requires queue { IsPassOf queue.now pass.old × (length J.all ≤ ruled_capacity queue.now) }
    requires pass { (view pass.old).parts ≡ all_parts }
    requires holds { (view pass.old).holds ≡ reverse (numbers tasks.old.items) }
    requires in_round { AllIn J.board J.came tasks.old.items }
    ensures queue { IsPassOf queue.now pass.new }
    ensures pass { view pass.new ≡ hand all_parts [] }
    ensures tasks { (tasks.new.items ≡ []) × (vec_capacity tasks.new ≡ vec_capacity tasks.old) }
{
    while let Some(task) = tasks.pop() {
        match queue.push_as::<Puts<J>, R>(rt, pass, Item::new(task)) {
            Ok(()) => {}
            Err(_) => unreachable!(),
        }
    }
}

/// Takes all tasks out of the queue.
pub(crate) fn take_out<W: Runs, J: Round<W>, R: Wait>(
    rt: &R,
    queue: &Queue<W, J>,
    pass: &mut Ticket<W, J>,
    tasks: &mut Vec<Task<W>>,
)
    requires queue { IsPassOf queue.now pass.old }
    requires pass { view pass.old ≡ hand all_parts [] }
    requires room { (tasks.old.items ≡ []) × (length J.all ≤ vec_capacity tasks.old) }
    ensures in_round { AllIn J.board J.came tasks.new.items }
    ensures all { (h : ℕ → ℕ) → weigh h (numbers tasks.new.items) ≡ weigh h J.all }
{
    for _ in rt.forever() {
        match queue.pop_as::<Takes<J>, R>(rt, pass) {
            Some(item) => tasks.push_reserved(item.into_task()),
            None => return,
        }
    }
    unreachable!()
}
