//! One step of a named function, and what it makes of a value.
ghost use Rattle.std.specs.Prelude.{◌≡◌, IfOk, MatchOption, MatchResult, Ok, Err};
ghost use Rattle.std.specs.Fmt.{signed_decimal};
ghost use Rattle.flow_value.specs.Step.{applied, counted_to, gives_list, summed, ints_below, numbers_of, one_int};
ghost use Rattle.flow_value.specs.Meaning.{RunsAs};
ghost use Rattle.flow_value.specs.StepRuns.{AppliesAs, AppliesToInt, GivesOne, int_in, row_in};
ghost use Rattle.flow_value.specs.declared.step.Step.TheVariants.{ToInt, ToText, Add, Mul, Field, Len, Sum, Reject};
ghost use Rattle.flow_value.specs.declared.step.Step.TheVariants.{Spread, Upto, Repeat};
ghost use Rattle.flow_value.specs.declared.work.WorkFault.TheVariants.{Range};

use crate::number::read_int;
use crate::value::{Row, Text, Value};
use crate::work::WorkFault;
use std::alloc::{AllocError, Global};

/// The greatest number that `upto` counts to, and the most values that `repeat` gives.
pub(crate) const MOST_VALUES: u16 = 1_000;

/// One step of a named function; `docs/formats.md` says what each makes of each value.
#[derive(Clone, Copy, Debug, PartialEq, Eq)]
pub enum Step {
    /// `id`: the value itself.
    Id,
    /// `int`: a number, or the number that a text is.
    ToInt,
    /// `text`: a text, or a number's decimal text.
    ToText,
    /// `add k`: a number plus k.
    Add(i64),
    /// `mul k`: a number times k.
    Mul(i64),
    /// `field i`: a row's value at place i, from 0.
    Field(u16),
    /// `len`: how many values a row has, or bytes a text.
    Len,
    /// `sum`: the sum of a row of numbers.
    Sum,
    /// `reject k`: a number other than k.
    Reject(i64),
    /// `spread`: a row's values, one by one.
    Spread,
    /// `upto`: the whole numbers from 0 up to a number, without it.
    Upto,
    /// `repeat n`: the value, n times.
    Repeat(u16),
}

/// What a step gave for a value: most steps give one.
pub(crate) enum Applied {
    One(Value),
    Many(Vec<Value>),
}

/// What a step makes of a number, without a list of it.
#[derive(Clone, Copy)]
pub(crate) enum FromInt {
    /// This number.
    One(i64),
    /// The numbers from 0 up to this one, without it.
    Below(u16),
    /// The number itself, so many times.
    Times(u16),
    /// A value that is no number.
    Other,
}

impl Step {
    /// Whether it gives a list of values, and not one value.
    pub(crate) fn gives_list(&self) -> bool
        ensures { result ≡ gives_list self.now }
    {
        match self {
            Step::Spread | Step::Upto | Step::Repeat(_) => true,
            Step::Id
            | Step::ToInt
            | Step::ToText
            | Step::Add(_)
            | Step::Mul(_)
            | Step::Field(_)
            | Step::Len
            | Step::Sum
            | Step::Reject(_) => false,
        }
    }

    /// Applies the step to a number.
    #[inline(always)]
    pub(crate) fn apply_to_int(self, number: i64) -> Result<FromInt, WorkFault>
        ensures { AppliesToInt self number result }
    {
        match self {
            Step::Id | Step::ToInt => Ok(FromInt::One(number)),
            Step::ToText => Ok(FromInt::Other),
            Step::Add(more) => Ok(FromInt::One(in_range(number.checked_add(more))?)),
            Step::Mul(by) => Ok(FromInt::One(in_range(number.checked_mul(by))?)),
            Step::Field(_) | Step::Len | Step::Sum | Step::Spread => Err(WorkFault::NotRow),
            Step::Reject(rejected) if number == rejected => Err(WorkFault::Rejected),
            Step::Reject(_) => Ok(FromInt::One(number)),
            Step::Upto => Ok(FromInt::Below(end_of(number)?)),
            Step::Repeat(count) => Ok(FromInt::Times(count)),
        }
    }

    /// Applies the step.
    pub(crate) fn apply(self, alloc: Global, value: Value) -> Result<Applied, WorkFault>
        ensures { AppliesAs (applied self value) result }
    {
        match self {
            Step::Id => Ok(Applied::One(value)),
            Step::ToInt => Ok(Applied::One(to_int(value)?)),
            Step::ToText => Ok(Applied::One(to_text(alloc, value)?)),
            Step::Add(number) => Ok(Applied::One(add(value, number)?)),
            Step::Mul(number) => Ok(Applied::One(multiply(value, number)?)),
            Step::Field(at) => Ok(Applied::One(field(alloc, &value, at)?)),
            Step::Len => Ok(Applied::One(len(value)?)),
            Step::Sum => Ok(Applied::One(sum(value)?)),
            Step::Reject(number) => Ok(Applied::One(reject(value, number)?)),
            Step::Spread => Ok(Applied::Many(spread(alloc, value)?)),
            Step::Upto => Ok(Applied::Many(up_to(alloc, value)?)),
            Step::Repeat(count) => Ok(Applied::Many(repeat(alloc, &value, count)?)),
        }
    }
}

fn to_int(value: Value) -> Result<Value, WorkFault>
    ensures { GivesOne (applied ToInt value) result }
{
    match value {
        Value::Int(number) => Ok(Value::Int(number)),
        Value::Text(text) => Ok(Value::Int(read_int(text.as_str())?)),
        Value::Row(_) => Err(WorkFault::NotInt),
    }
}

fn to_text(alloc: Global, value: Value) -> Result<Value, WorkFault>
    ensures { GivesOne (applied ToText value) result }
{
    match value {
        Value::Int(number) => Ok(Value::Text(decimal(alloc, number)?)),
        Value::Text(text) => Ok(Value::Text(text)),
        Value::Row(_) => Err(WorkFault::NotText),
    }
}

/// The number's decimal text.
fn decimal(alloc: Global, number: i64) -> Result<Text, AllocError>
    ensures { IfOk result (λ text. text ≡ signed_decimal number) }
{
    Text::new(alloc, number.to_string(alloc)?).map_err(|_| AllocError)
}

fn add(value: Value, number: i64) -> Result<Value, WorkFault>
    ensures { GivesOne (applied (Add number) value) result }
{
    match int(value)?.checked_add(number) {
        Some(sum) => Ok(Value::Int(sum)),
        None => Err(WorkFault::Range),
    }
}

fn multiply(value: Value, number: i64) -> Result<Value, WorkFault>
    ensures { GivesOne (applied (Mul number) value) result }
{
    match int(value)?.checked_mul(number) {
        Some(product) => Ok(Value::Int(product)),
        None => Err(WorkFault::Range),
    }
}

fn reject(value: Value, number: i64) -> Result<Value, WorkFault>
    ensures { GivesOne (applied (Reject number) value) result }
{
    let found = int(value)?;
    if found == number {
        return Err(WorkFault::Rejected);
    }
    Ok(Value::Int(found))
}

fn len(value: Value) -> Result<Value, WorkFault>
    ensures { GivesOne (applied Len value) result }
{
    match value {
        Value::Int(_) => Err(WorkFault::NotRow),
        Value::Text(text) => Ok(Value::Int(text.len() as i64)),
        Value::Row(row) => Ok(Value::Int(row.len() as i64)),
    }
}

fn field(alloc: Global, value: &Value, at: u16) -> Result<Value, WorkFault>
    ensures { GivesOne (applied (Field at) value.now) result }
{
    let Some(items) = value.as_items() else {
        return Err(WorkFault::NotRow);
    };
    match items.get(usize::from(at)) {
        Some(item) => Ok(item.copy(alloc)?),
        None => Err(WorkFault::NoField),
    }
}

fn sum(value: Value) -> Result<Value, WorkFault>
    ensures { GivesOne (applied Sum value) result }
{
    let row = row(value)?;
    Ok(Value::Int(total(row.items())?))
}

fn total(items: &[Value]) -> Result<i64, WorkFault>
    ensures { one_int result ≡ summed (numbers_of items.now) }
{
    let mut total: i128 = 0;
    for item in items {
        match item {
            Value::Int(number) => total += i128::from(*number),
            _ => return Err(WorkFault::NotInt),
        }
    }
    match i64::try_from(total) {
        Ok(total) => Ok(total),
        Err(_) => Err(WorkFault::Range),
    }
}

fn spread(alloc: Global, value: Value) -> Result<Vec<Value>, WorkFault>
    ensures { RunsAs (applied Spread value) result }
{
    Ok(row(value)?.into_items(alloc).map_err(|_| AllocError)?)
}

fn up_to(alloc: Global, value: Value) -> Result<Vec<Value>, WorkFault>
    ensures { RunsAs (applied Upto value) result }
{
    Ok(ints_below(alloc, end_of(int(value)?)?)?)
}

/// How far `upto` counts for a number.
#[inline(always)]
fn end_of(number: i64) -> Result<u16, WorkFault>
    ensures { MatchResult result (λ end. counted_to number ≡ Ok (ints_below end)) (λ fault. counted_to number ≡ Err fault) }
{
    match u16::try_from(number) {
        Ok(end) if end <= MOST_VALUES => Ok(end),
        Ok(_) | Err(_) => Err(WorkFault::Range),
    }
}

/// The number, unless it was out of range.
#[inline(always)]
fn in_range(number: Option<i64>) -> Result<i64, WorkFault>
    ensures { MatchOption number (result ≡ Err Range) (λ made. result ≡ Ok made) }
{
    match number {
        Some(number) => Ok(number),
        None => Err(WorkFault::Range),
    }
}

fn ints_below(alloc: Global, end: u16) -> Result<Vec<Value>, WorkFault>
    ensures { RunsAs (Ok (ints_below end)) result }
{
    let mut values = Vec::with_capacity(alloc, usize::from(end))?;
    for number in 0..end {
        values.push(Value::Int(i64::from(number)))?;
    }
    Ok(values)
}

fn repeat(alloc: Global, value: &Value, count: u16) -> Result<Vec<Value>, WorkFault>
    ensures { RunsAs (applied (Repeat count) value.now) result }
{
    let mut values = Vec::with_capacity(alloc, usize::from(count))?;
    for _made in 0..count {
        values.push(value.copy(alloc)?)?;
    }
    Ok(values)
}

/// The number in a value.
fn int(value: Value) -> Result<i64, WorkFault>
    ensures { result ≡ int_in value }
{
    match value {
        Value::Int(number) => Ok(number),
        _ => Err(WorkFault::NotInt),
    }
}

/// The row in a value.
fn row(value: Value) -> Result<Row, WorkFault>
    ensures { result ≡ row_in value }
{
    match value {
        Value::Row(row) => Ok(row),
        _ => Err(WorkFault::NotRow),
    }
}
