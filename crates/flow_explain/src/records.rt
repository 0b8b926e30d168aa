//! All that is to be said of records.
ghost use Rattle.std.specs.Prelude.{IfOk};
ghost use Rattle.flow_link.specs.Planned.{layout_of};
ghost use Rattle.flow_record_text.specs.Records.{input_names};
ghost use Rattle.flow_explain.specs.Answers.{IsRecordsAnswer};

use crate::cause::cause_of;
use crate::encoding::without_mark;
use crate::explain::Answer;
use crate::finding::Flaw;
use crate::rows::{Rows, opens_quote};
use flow_fault_text::{TextFault, TextRefusal};
use flow_hints::{Warning, quoted};
use flow_link::Plan;
use flow_record_text::read_records;
use flow_spans::Span;
use flow_value::Steps;
use std::alloc::{AllocError, Global};
use std::fmt::Display;

/// What is to be said of the records of a text: a flaw where `read_records` refuses them, and none where it does not.
///
/// Spans count from behind a byte order mark.
pub fn explain_records(alloc: Global, plan: &Plan<Steps>, text: &[u8]) -> Result<Answer, AllocError>
    ensures { IfOk result (IsRecordsAnswer (input_names (layout_of plan.now).blocks) text.now) }
{
    match read_records(alloc, text, plan) {
        Ok(_posted) => {
            let warnings = record_warnings(alloc, plan, without_mark(text))?;
            Ok(Answer::Accepted(warnings))
        }
        Err(TextRefusal::Memory) => Err(AllocError),
        Err(TextRefusal::Fault(fault)) => {
            let (span, message) = cause_of(alloc, plan, without_mark(text), fault)?;
            let flaw = Flaw {
                fault,
                span,
                message,
            };
            Ok(Answer::Refused(flaw, Vec::new(alloc)))
        }
    }
}

// What was hardly meant in records that are accepted, in their order.
fn record_warnings(
    alloc: Global,
    plan: &Plan<Steps>,
    text: &[u8],
) -> Result<Vec<Warning>, AllocError> {
    let takers = takers_of_one(alloc, plan)?;
    let mut rows = Rows::new(alloc, text);
    let mut warnings = Vec::new(alloc);
    let last = read_all(alloc, &mut rows, &takers, &mut warnings)?;
    if opens_quote(text, last) {
        let message = "the last record begins here, since a double quote in it is never closed.";
        add_warning(alloc, &mut warnings, last, message)?;
    }
    Ok(warnings)
}

// The names of the inputs that take one message in all.
fn takers_of_one<'p>(alloc: Global, plan: &'p Plan<Steps>) -> Result<Vec<&'p str>, AllocError> {
    let mut takers = Vec::new(alloc);
    for number in 0..plan.block_count() {
        let block = plan.block(number);
        if block.input && block.kind.unit().copies_one() {
            takers.push(block.name.as_str())?;
        }
    }
    Ok(takers)
}

// Reads all records, adds what was hardly meant in them, and answers where the last one stands.
fn read_all(
    alloc: Global,
    rows: &mut Rows<'_>,
    takers: &[&str],
    warnings: &mut Vec<Warning>,
) -> Result<Span, AllocError> {
    let mut counts = vec![in alloc; 0u64; takers.len()]?;
    let mut last = Span::new(0, 0);
    let mut has_blank = false;
    for number in 1..=u64::MAX {
        let Some(row) = rows.next_row()? else {
            break;
        };
        last = row.span;
        if row.value_begins_blank && !has_blank {
            has_blank = true;
            let message = format_args!(
                "the value of record {number} begins with a blank, which is part of it."
            );
            add_warning(alloc, warnings, last, message)?;
        }
        let name = rows.field(0).unwrap_or(&[]);
        if let Some(taker) = second_for(takers, &mut counts, name) {
            let shown = quoted(alloc, taker)?;
            let message = format_args!(
                "record {number} is the second for {shown}, a write_once block, which takes one message in all: it waits for ever, and the status is 1 at best."
            );
            add_warning(alloc, warnings, last, message)?;
        }
    }
    Ok(last)
}

// Counts a record for the input of this name, and answers which it is where this is its second.
fn second_for<'p>(takers: &[&'p str], counts: &mut [u64], name: &[u8]) -> Option<&'p str> {
    for (place, taker) in takers.iter().enumerate() {
        if taker.as_bytes() == name {
            let count = counts.get_mut(place)?;
            *count = count.saturating_add(1);
            return if *count == 2 { Some(*taker) } else { None };
        }
    }
    None
}

fn add_warning<D: Display + Drop>(
    alloc: Global,
    warnings: &mut Vec<Warning>,
    span: Span,
    message: D,
) -> Result<(), AllocError> {
    let message = message.to_string(alloc)?;
    warnings.push(Warning { span, message })?;
    Ok(())
}
