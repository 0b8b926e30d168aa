//! Functions that a network names: lists of steps.
ghost use Rattle.std.specs.Prelude.{◌≡◌, ◌≢◌, map, replicate, MatchResult, Ok, Err};
ghost use Rattle.flow_value.specs.Function.{each, joined, meaning_of};
ghost use Rattle.flow_value.specs.Meaning.{RunsOneAs};
ghost use Rattle.flow_value.specs.Step.{ints_below};
ghost use Rattle.flow_value.specs.declared.value.Value.TheVariants.{Int};
ghost use Rattle.flow_value.specs.declared.work.WorkFault.TheVariants.{Memory};

use crate::step::{Applied, FromInt, Step};
use crate::value::Value;
use crate::work::{Work, WorkFault};
use std::alloc::{AllocError, AllocFailed, Global};
use std::marker::Model;
use thiserror::Error;

/// The most steps that a function has.
const MOST_STEPS: usize = 16;

/// A function made of steps: the first step is applied to the value, the others to each of its results, in order.
///
/// The empty list gives its argument. Contracts see the list of the steps.
#[derive(Debug, Drop)]
pub struct Steps {
    steps: Vec<Step>,
}

impl Model for Steps {
    ghost use Rattle.std.specs.Prelude.{List};
    ghost use Rattle.flow_value.specs.declared.step.Step.{Step};

    ghost Value = { List Step };

    ghost view = { λ s. s.steps.items };
}

/// Why texts are no function.
#[derive(Clone, Copy, Debug, PartialEq, Eq, Error)]
pub enum StepsError {
    /// The text at this place, from 0, is no step, or stands behind the sixteenth.
    #[error("no step at place {0}")]
    BadStep(usize),
    /// There is no memory for the steps.
    #[error("out of memory")]
    Memory,
}

impl From<AllocFailed<Step>> for StepsError {
    ghost use Rattle.std.specs.Prelude.{◌≡◌};
    ghost use Rattle.flow_value.specs.declared.steps.StepsError.TheVariants.{Memory};

    ghost from_gives = { λ _ error. error ≡ Memory };

    fn from(_error: AllocFailed<Step>) -> StepsError {
        StepsError::Memory
    }
}

impl Steps {
    ghost use Rattle.flow_value.specs.ReadsAs.{ReadsAs};

    /// The function that these steps are, in order: at most 16, in the words of `docs/formats.md`.
    pub fn read(alloc: Global, texts: &[&str]) -> Result<Steps, StepsError>
        ensures { ReadsAs (map (λ text. text.now) texts.now) result }
    {
        let mut steps = Vec::new(alloc);
        for (place, text) in texts.iter().enumerate() {
            if place >= MOST_STEPS {
                return Err(StepsError::BadStep(place));
            }
            match Step::read(text) {
                Some(step) => steps.push(step)?,
                None => return Err(StepsError::BadStep(place)),
            }
        }
        Ok(Steps { steps })
    }

    /// The steps, in order.
    pub fn as_slice(&self) -> &[Step]
        ensures { result.now ≡ self.now }
    {
        self.steps.as_slice()
    }
}

impl PartialEq for Steps {
    ghost use Rattle.std.specs.Cmp.{decided, partial_equiv_from_equiv};
    ghost use Rattle.std.specs.Cmp.Lexicographic.{pointwise};
    ghost use Rattle.std.specs.Prelude.{refl};
    ghost use Rattle.std.proofs.Common.{rules};
    ghost use Rattle.std.proofs.lemmas.Slice.Eq.{slice_eq-Decides};

    ghost eq = { pointwise ⟦<Step as PartialEq>⟧.eq };

    ghost laws = { partial_equiv_from_equiv
        (decided _ (λ a b. slice_eq-Decides (λ x y. Prim.search rules) a b _ refl)) };

    fn eq(&self, other: &Steps) -> bool {
        self.as_slice() == other.as_slice()
    }
}

impl Eq for Steps {
    ghost use Rattle.std.specs.Cmp.{decided};
    ghost use Rattle.std.specs.Prelude.{refl};
    ghost use Rattle.std.proofs.Common.{rules};
    ghost use Rattle.std.proofs.lemmas.Slice.Eq.{slice_eq-Decides};

    ghost laws = { decided _ (λ a b. slice_eq-Decides (λ x y. Prim.search rules) a b _ refl) };
}

impl Work for Steps {
    ghost use Rattle.std.specs.Prelude.{refl};
    ghost use Rattle.std.proofs.Common.{ap, rules};
    ghost use Rattle.std.proofs.lemmas.Slice.Eq.{slice_eq-Decides};
    ghost use Rattle.flow_value.specs.Function.{meaning_of};
    ghost use Rattle.flow_value.specs.NeverMemory.{meaning_of-never};

    ghost meaning = { meaning_of };

    ghost same_meaning = { λ a b same v. ap (λ steps. meaning_of steps v)
        ((slice_eq-Decides (λ x y. Prim.search rules) a b _ refl).0 same) };

    ghost never_memory = { meaning_of-never };

    fn run(&self, alloc: Global, value: &Value) -> Result<Vec<Value>, WorkFault> {
        let mut results = Vec::with_capacity(alloc, 1)?;
        run_onto(alloc, self.as_slice(), value.copy(alloc)?, &mut results)?;
        Ok(results)
    }

    fn run_one(&self, alloc: Global, value: &Value) -> Result<Option<Value>, WorkFault> {
        if self.as_slice().iter().any(|step| step.gives_list()) {
            return Ok(None);
        }
        run_in_turn(alloc, self.as_slice(), value.copy(alloc)?)
    }

    fn is_identity(&self) -> bool {
        self.as_slice().is_empty()
    }

    fn copy(&self, alloc: Global) -> Result<Steps, AllocError> {
        Ok(Steps {
            steps: Vec::from_slice(alloc, self.as_slice())?,
        })
    }
}

/// Puts what the steps make of the value behind the results so far.
#[cycle(run)]
fn run_onto(
    alloc: Global,
    steps: &[Step],
    value: Value,
    results: &mut Vec<Value>,
) -> Result<(), WorkFault>
    ensures { MatchResult result
        (λ _. joined (Ok results.old.items) (meaning_of steps.now value) ≡ Ok results.new.items)
        (λ fault. fault ≢ Memory → meaning_of steps.now value ≡ Err fault) }
{
    match value {
        Value::Int(number) => run_number(alloc, steps, number, results),
        Value::Text(_) | Value::Row(_) => run_any(alloc, steps, value, results),
    }
}

// The same.
#[cycle(run)]
fn run_any(
    alloc: Global,
    steps: &[Step],
    value: Value,
    results: &mut Vec<Value>,
) -> Result<(), WorkFault>
    ensures { MatchResult result
        (λ _. joined (Ok results.old.items) (meaning_of steps.now value) ≡ Ok results.new.items)
        (λ fault. fault ≢ Memory → meaning_of steps.now value ≡ Err fault) }
{
    let Some((step, rest)) = steps.split_first() else {
        results.push(value)?;
        return Ok(());
    };
    match step.apply(alloc, value)? {
        Applied::One(next) => run_onto(alloc, rest, next, results),
        Applied::Many(values) => {
            for next in values {
                run_onto(alloc, rest, next, results)?;
            }
            Ok(())
        }
    }
}

// The same of a number. It goes from step to step as a number, and not as a value.
#[cycle(run)]
fn run_number(
    alloc: Global,
    steps: &[Step],
    number: i64,
    results: &mut Vec<Value>,
) -> Result<(), WorkFault>
    ensures { MatchResult result
        (λ _. joined (Ok results.old.items) (meaning_of steps.now (Int number)) ≡ Ok results.new.items)
        (λ fault. fault ≢ Memory → meaning_of steps.now (Int number) ≡ Err fault) }
{
    let mut made = number;
    let mut left = steps;
    while let Some((step, rest)) = left.split_first() {
        match step.apply_to_int(made)? {
            FromInt::One(next) => made = next,
            FromInt::Below(end) => return run_below(alloc, rest, end, results),
            FromInt::Times(count) => return run_times(alloc, rest, made, count, results),
            FromInt::Other => return run_any(alloc, left, Value::Int(made), results),
        }
        left = rest;
    }
    results.push(Value::Int(made))?;
    Ok(())
}

// The same of each number from 0 up to this one, without it.
#[cycle(run)]
fn run_below(
    alloc: Global,
    steps: &[Step],
    end: u16,
    results: &mut Vec<Value>,
) -> Result<(), WorkFault>
    ensures { MatchResult result
        (λ _. joined (Ok results.old.items) (each (meaning_of steps.now) (ints_below end)) ≡ Ok results.new.items)
        (λ fault. fault ≢ Memory → each (meaning_of steps.now) (ints_below end) ≡ Err fault) }
{
    for number in 0..end {
        run_number(alloc, steps, i64::from(number), results)?;
    }
    Ok(())
}

// The same of a number, so many times.
#[cycle(run)]
fn run_times(
    alloc: Global,
    steps: &[Step],
    number: i64,
    count: u16,
    results: &mut Vec<Value>,
) -> Result<(), WorkFault>
    ensures { MatchResult result
        (λ _. joined (Ok results.old.items) (each (meaning_of steps.now) (replicate count (Int number))) ≡ Ok results.new.items)
        (λ fault. fault ≢ Memory → each (meaning_of steps.now) (replicate count (Int number)) ≡ Err fault) }
{
    for _done in 0..count {
        run_number(alloc, steps, number, results)?;
    }
    Ok(())
}

/// What the steps make of the value, one after another, as long as each gives one value.
fn run_in_turn(alloc: Global, steps: &[Step], value: Value) -> Result<Option<Value>, WorkFault>
    ensures { RunsOneAs (meaning_of steps.now value) result }
{
    let mut made = value;
    for step in steps {
        match step.apply(alloc, made)? {
            Applied::One(next) => made = next,
            Applied::Many(_) => return Ok(None),
        }
    }
    Ok(Some(made))
}
