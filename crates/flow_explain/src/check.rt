//! Checks a network and its records, and prints all that is to be said of them.
ghost use Rattle.std.specs.Prelude.{ℕ, List, IfOk};
ghost use Rattle.flow_link.specs.Planned.{layout_of};
ghost use Rattle.flow_record_text.specs.Records.{input_names};
ghost use Rattle.flow_explain.specs.Answers.{IsAnswerTo, IsVerdictOn, IsRecordsAnswer, IsRecordsVerdict};

use crate::encoding::without_mark;
use crate::explain::{Answer, explain_network};
use crate::finding::Flaw;
use crate::print::{Source, Style, out_of_memory, write_flaw, write_warning};
use crate::records::explain_records;
use flow_fault_text::{TextFault, TextRefusal};
use flow_hints::Warning;
use flow_link::Plan;
use flow_plan_text::read_plan;
use flow_spans::Escaped;
use flow_value::Steps;
use std::alloc::{AllocError, Global};
use std::io;
use std::io::Write;

/// What becomes of a text.
#[derive(Clone, Copy, PartialEq, Eq)]
pub enum Verdict {
    /// It is accepted.
    Accepted,
    /// It is refused for this fault.
    Refused(TextFault),
}

/// Prints all that is to be said of a network. The verdict is that of `read_plan`.
///
/// Where the writer fails, its error is answered; where memory is out, an error of the kind `OutOfMemory`.
pub fn check_network<W: Write>(
    alloc: Global,
    source: Source<'_>,
    style: Style,
    out: &mut W,
) -> io::Result<Verdict>
    ensures { IfOk result (IsVerdictOn source.entry.text.now) }
{
    let answer = match explain_network(alloc, source.text) {
        Ok(answer) => answer,
        Err(error) => return Err(out_of_memory(error)),
    };
    write_answer(alloc, source, &answer, style, out)?;
    Ok(verdict_of(&answer))
}

/// Prints all that is to be said of records for this plan. The verdict is that of `read_records`.
///
/// Errors are those of `check_network`.
pub fn check_records<W: Write>(
    alloc: Global,
    plan: &Plan<Steps>,
    source: Source<'_>,
    style: Style,
    out: &mut W,
) -> io::Result<Verdict>
    ensures { IfOk result (IsRecordsVerdict (input_names (layout_of plan.now).blocks) source.entry.text.now) }
{
    let answer = match explain_records(alloc, plan, source.text) {
        Ok(answer) => answer,
        Err(error) => return Err(out_of_memory(error)),
    };
    write_answer(alloc, source, &answer, style, out)?;
    Ok(verdict_of(&answer))
}

/// Prints all that is to be said of a network and, where it is accepted, of its records.
///
/// Errors are those of `check_network`.
pub fn check_both<W: Write>(
    alloc: Global,
    network: Source<'_>,
    records: Source<'_>,
    style: Style,
    out: &mut W,
) -> io::Result<Verdict> {
    let verdict = check_network(alloc, network, style, out)?;
    match read_plan(alloc, network.text) {
        Ok(plan) => check_records(alloc, &plan, records, style, out),
        Err(TextRefusal::Memory) => Err(out_of_memory(AllocError)),
        Err(TextRefusal::Fault(_)) => Ok(verdict),
    }
}

fn verdict_of(answer: &Answer) -> Verdict
    ensures of_network { (text : List ℕ) → IsAnswerTo text answer.now → IsVerdictOn text result }
    ensures of_records { (names : List (List ℕ)) (text : List ℕ) → IsRecordsAnswer names text answer.now
        → IsRecordsVerdict names text result }
{
    match answer {
        Answer::Accepted(_) => Verdict::Accepted,
        Answer::Refused(flaw, _) => Verdict::Refused(flaw.fault),
    }
}

fn write_answer<W: Write>(
    alloc: Global,
    source: Source<'_>,
    answer: &Answer,
    style: Style,
    out: &mut W,
) -> io::Result<()> {
    let source = Source {
        name: source.name,
        text: without_mark(source.text),
    };
    match answer {
        Answer::Accepted(warnings) => write_warnings(alloc, source, warnings, style, out),
        Answer::Refused(first, others) => write_flaws(alloc, source, first, others, style, out),
    }
}

fn write_warnings<W: Write>(
    alloc: Global,
    source: Source<'_>,
    warnings: &[Warning],
    style: Style,
    out: &mut W,
) -> io::Result<()> {
    for warning in warnings {
        write_warning(alloc, source, warning, style, out)?;
    }
    match style {
        Style::Short => Ok(()),
        Style::Full => write_end(source.name, "accepted", warnings.len(), "warning", out),
    }
}

fn write_flaws<W: Write>(
    alloc: Global,
    source: Source<'_>,
    first: &Flaw,
    others: &[Flaw],
    style: Style,
    out: &mut W,
) -> io::Result<()> {
    write_flaw(alloc, source, first, style, out)?;
    for flaw in others {
        write_flaw(alloc, source, flaw, style, out)?;
    }
    let count = others.len().saturating_add(1);
    match style {
        Style::Short => Ok(()),
        Style::Full => write_end(source.name, "refused", count, "error", out),
    }
}

// Prints what came of a text, and with how much of this sort.
fn write_end<W: Write>(
    name: &str,
    end: &str,
    count: usize,
    sort: &str,
    out: &mut W,
) -> io::Result<()> {
    let name = Escaped(name);
    match count {
        0 => writeln!(out, "{name}: {end}"),
        1 => writeln!(out, "{name}: {end}, with 1 {sort}"),
        _ => writeln!(out, "{name}: {end}, with {count} {sort}s"),
    }
}
