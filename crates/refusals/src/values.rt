//! Values, functions and drafts.
use crate::again::{Stop, again, check};
use flow_link::{BlockDef, BlockKind, Draft, LinkDef, Plan, PlanRefusal, plan_check};
use flow_value::{Parcel, Row, Steps, StepsError, Text, Value, Work, WorkFault};
use std::alloc::{AllocError, Global};

/// A text that is too long to stand without memory of its own.
const LONG: &str = "a text that is longer than what a value holds by itself";

/// Whether the value is this text.
fn is_text(value: &Value, text: &str) -> bool {
    value.as_str() == Some(text)
}

fn copy(rt: &impl Print, alloc: Global, value: &Value) -> Result<Value, Stop> {
    again!(rt, "Value::copy", value.copy(alloc), only _ => is_text(value, LONG))
}

fn parcel(rt: &impl Print, alloc: Global, value: Value) -> Result<Parcel, Stop> {
    again!(rt, "Parcel::new", Parcel::new(alloc, value), only value => is_text(&value, LONG))
}

/// A value is copied, and sent.
pub(crate) fn values(rt: &impl Print, alloc: Global) -> Result<(), Stop> {
    let value = Value::Text(Text::from_str(alloc, LONG)?);
    let copy = copy(rt, alloc, &value)?;
    check(rt, "Value::copy", is_text(&copy, LONG));
    let parcel = parcel(rt, alloc, value)?;
    check(rt, "Parcel::new", is_text(parcel.value(), LONG));
    Ok(())
}

fn read(rt: &impl Print, alloc: Global) -> Result<Steps, Stop> {
    let words = ["repeat 2", "field 1", "int", "add 1", "text", "repeat 2"];
    again!(rt, "Steps::read", Steps::read(alloc, &words), StepsError::Memory => true)
}

fn run(rt: &impl Print, alloc: Global, steps: &Steps, value: &Value) -> Result<Vec<Value>, Stop> {
    again!(rt, "Work::run", steps.run(alloc, value), WorkFault::Memory => is_argument(value))
}

fn copy_of(rt: &impl Print, alloc: Global, steps: &Steps) -> Result<Steps, Stop> {
    again!(rt, "Work::copy", steps.copy(alloc), only _ => true)
}

/// A row of two texts, of which the function goes through the second.
fn argument(alloc: Global) -> Result<Value, Stop> {
    let first = Text::from_str(alloc, "1")?;
    let second = Text::from_str(alloc, "22")?;
    let texts = vec![in alloc; Value::Text(first), Value::Text(second)]?;
    match Row::new(alloc, texts) {
        Ok(row) => Ok(Value::Row(row)),
        Err(_) => Err(Stop::Memory),
    }
}

fn is_argument(value: &Value) -> bool {
    matches!(value.as_items(), Some([first, second]) if is_text(first, "1") && is_text(second, "22"))
}

/// A function is read, copied and run.
pub(crate) fn functions(rt: &impl Print, alloc: Global) -> Result<(), Stop> {
    let steps = read(rt, alloc)?;
    let copy = copy_of(rt, alloc, &steps)?;
    let value = argument(alloc)?;
    let given = run(rt, alloc, &copy, &value)?;
    let is_one_more =
        matches!(given.as_slice(), [first, _, _, last] if is_text(first, "23") && is_text(last, "23"));
    check(rt, "Work::run", is_one_more);
    Ok(())
}

/// Two blocks and a link.
fn draft(alloc: Global) -> Result<Draft<Steps>, AllocError> {
    let draft = Draft::new(alloc)
        .block(BlockDef::named(alloc, "in", BlockKind::Buffer)?.input())?
        .block(BlockDef::named(alloc, "out", BlockKind::Buffer)?)?
        .link(LinkDef::between(alloc, "in", "out")?)?;
    Ok(draft)
}

fn plan(rt: &impl Print, alloc: Global, draft: Draft<Steps>) -> Result<Plan<Steps>, Stop> {
    again!(rt, "plan_check", plan_check(alloc, draft), (draft, PlanRefusal::Memory) =>
        draft.blocks.len() == 2 && draft.links.len() == 1)
}

/// A draft becomes a plan.
pub(crate) fn drafts(rt: &impl Print, alloc: Global) -> Result<(), Stop> {
    let draft = draft(alloc)?;
    let plan = plan(rt, alloc, draft)?;
    check(rt, "plan_check", plan.link_count() == 2);
    Ok(())
}
