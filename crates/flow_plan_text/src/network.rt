//! Networks as TOML text.
ghost use Rattle.std.specs.Prelude.{◌≡◌, position, MatchResult, IfOk, IfErr};
ghost use Rattle.toml.specs.View.{view, table_view};
ghost use Rattle.flow_link.specs.Planned.{layout_of};
ghost use Rattle.flow_plan_text.specs.Plan.{IsPlannedAs, IsUnplannedFor, refusal_of_plan};
ghost use Rattle.flow_plan_text.specs.Read.{IsReadAs, IsRefusedFor};
ghost use Rattle.flow_plan_text.specs.Passes.{first_fault, format_fault, first_place, first_from, is_wrong_in, section};

mod build;
mod keys;

use flow_fault_text::{TextFault, TextPlace, TextRefusal};
use flow_link::{Draft, Plan, PlanRefusal, plan_check};
use flow_value::Steps;
use keys::{Check, Part, section, value_at};
use std::alloc::Global;
use toml::{Table, Value};

/// The format of networks that this reads.
const FORMAT: i64 = 1;

/// The plan that a text is.
pub fn read_plan(alloc: Global, text: &[u8]) -> Result<Plan<Steps>, TextRefusal>
    ensures planned { IfOk result (λ plan. IsPlannedAs text.now (layout_of plan)) }
    ensures refused { IfErr result (IsUnplannedFor text.now) }
{
    let draft = read_draft(alloc, text)?;
    match plan_check(alloc, draft) {
        Ok(plan) => Ok(plan),
        Err(refused) => Err(refusal_of(refused.1)),
    }
}

/// A refusal of a plan, as one of its text.
fn refusal_of(refusal: PlanRefusal) -> TextRefusal
    ensures { result ≡ refusal_of_plan refusal }
{
    match refusal {
        PlanRefusal::Fault(fault) => TextRefusal::Fault(TextFault::Plan(fault)),
        PlanRefusal::Memory => TextRefusal::Memory,
    }
}

/// The network that a text is, before it is checked as a plan.
fn read_draft(alloc: Global, text: &[u8]) -> Result<Draft<Steps>, TextRefusal>
    ensures { MatchResult result (IsReadAs text.now) (IsRefusedFor text.now) }
{
    let top = match toml::table_from_slice(alloc, text) {
        Ok(top) => top,
        Err(error) if error.is_memory() => return Err(TextRefusal::Memory),
        Err(_) => return Err(TextRefusal::Fault(TextFault::Syntax)),
    };
    if let Some(fault) = first_fault(&top) {
        return Err(TextRefusal::Fault(fault));
    }
    Ok(Draft {
        blocks: build::blocks(alloc, section(&top, "block"))?,
        links: build::links(alloc, section(&top, "link"))?,
    })
}

/// The first fault that can be told before any function or predicate is read.
fn first_fault(top: &Table) -> Option<TextFault>
    ensures { result ≡ first_fault (table_view top.now) }
{
    if let Some(fault) = format_fault(top) {
        return Some(fault);
    }
    if let Some(place) = first_place(Check::UnknownKey, top) {
        return Some(TextFault::UnknownKey(place));
    }
    if let Some(place) = first_place(Check::MissingKey, top) {
        return Some(TextFault::MissingKey(place));
    }
    match first_place(Check::WrongType, top) {
        Some(place) => Some(TextFault::WrongType(place)),
        None => None,
    }
}

/// What is wrong with the format that the text names.
fn format_fault(top: &Table) -> Option<TextFault>
    ensures { result ≡ format_fault (table_view top.now) }
{
    let Some(value) = value_at(top, "format") else {
        return Some(TextFault::MissingKey(TextPlace::Top));
    };
    let Some(format) = value.as_integer() else {
        return Some(TextFault::WrongType(TextPlace::Top));
    };
    if format == FORMAT {
        None
    } else {
        Some(TextFault::BadFormat)
    }
}

/// The first place of the text where this is wrong.
fn first_place(check: Check, top: &Table) -> Option<TextPlace>
    ensures { result ≡ first_place check (table_view top.now) }
{
    if check.fails(Part::Top, top) {
        return Some(TextPlace::Top);
    }
    match first_in(check, Part::Block, top, "block") {
        Some(block) => Some(TextPlace::Block(block)),
        None => match first_in(check, Part::Link, top, "link") {
            Some(link) => Some(TextPlace::Link(link)),
            None => None,
        },
    }
}

/// The number of the first table at this key with which this is wrong.
fn first_in(check: Check, part: Part, top: &Table, key: &str) -> Option<usize>
    ensures { result ≡ first_from (is_wrong_in check part) 0 (section key.now (table_view top.now)) }
{
    first_failing(check, part, section(top, key))
}

/// The number of the first of these tables with which this is wrong.
fn first_failing(check: Check, part: Part, tables: &[Value]) -> Option<usize>
    ensures { result ≡ position (λ table. is_wrong_in check part (view table)) tables.now }
{
    tables.iter().position(|table| check.fails_in(part, table))
}
