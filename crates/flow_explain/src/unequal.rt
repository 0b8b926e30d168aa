//! Joins whose inputs get different numbers of records, so that some find no partner.
use crate::encoding::without_mark;
use crate::print::{Source, Style, out_of_memory, write_warning};
use crate::rows::Rows;
use flow_hints::{Warning, quoted};
use flow_link::{BlockKind, Link, LinkSource, LinkTarget, Plan, PortId};
use flow_spans::Span;
use flow_value::{Steps, When};
use std::alloc::{AllocError, Global};
use std::io;
use std::io::Write;

/// The most ports of a join.
const MOST_PORTS: PortId = 3;

/// Prints a warning for each join whose ports get different numbers of these records, as far as each record makes one
/// message there. Such a run ends with status 1. Of records that are refused nothing is said.
///
/// Where the writer fails, its error is answered; where memory is out, an error of the kind `OutOfMemory`.
pub fn warn_unequal<W: Write>(
    alloc: Global,
    plan: &Plan<Steps>,
    source: Source<'_>,
    style: Style,
    out: &mut W,
) -> io::Result<()> {
    let source = Source {
        name: source.name,
        text: without_mark(source.text),
    };
    let warnings = match unequal_joins(alloc, plan, source.text) {
        Ok(warnings) => warnings,
        Err(error) => return Err(out_of_memory(error)),
    };
    for warning in &warnings {
        write_warning(alloc, source, warning, style, out)?;
    }
    Ok(())
}

/// The warnings, in the order of the joins.
fn unequal_joins(
    alloc: Global,
    plan: &Plan<Steps>,
    text: &[u8],
) -> Result<Vec<Warning>, AllocError> {
    let mut warnings = Vec::new(alloc);
    let Some(counts) = counts_of(alloc, plan, text)? else {
        return Ok(warnings);
    };
    for join in 0..plan.block_count() {
        if let BlockKind::Join = plan.block(join).kind {
            if let Some((more, less)) = unequal_inputs(plan, join, &counts) {
                warnings.push(warning_of(alloc, plan, text, join, more, less)?)?;
            }
        }
    }
    Ok(warnings)
}

/// An input and how many records it gets.
#[derive(Clone, Copy)]
struct Fed {
    input: usize,
    records: usize,
}

/// How many records each block gets; none where a record names no input.
fn counts_of(
    alloc: Global,
    plan: &Plan<Steps>,
    text: &[u8],
) -> Result<Option<Vec<usize>>, AllocError> {
    let mut counts = vec![in alloc; 0usize; plan.block_count()]?;
    let mut rows = Rows::new(alloc, text);
    for _ in 0..u64::MAX {
        if rows.next_row()?.is_none() {
            break;
        }
        match input_of(plan, &rows) {
            Some(input) => {
                if let Some(count) = counts.get_mut(input) {
                    *count = count.saturating_add(1);
                }
            }
            None => return Ok(None),
        }
    }
    Ok(Some(counts))
}

/// The input that the record names which was read last, unless a run refuses that record.
fn input_of(plan: &Plan<Steps>, rows: &Rows<'_>) -> Option<usize> {
    let (2, Some(name), Some(value)) = (rows.field_count(), rows.field(0), rows.field(1)) else {
        return None;
    };
    let (Ok(name), Ok(_)) = (str::from_utf8(name), str::from_utf8(value)) else {
        return None;
    };
    let input = plan.find(name)?;
    if input < plan.block_count() && plan.block(input).input {
        Some(input)
    } else {
        None
    }
}

/// The inputs of a join with the most and with the fewest records, where these are not as many.
fn unequal_inputs(plan: &Plan<Steps>, join: usize, counts: &[usize]) -> Option<(Fed, Fed)> {
    let mut most: Option<Fed> = None;
    let mut least: Option<Fed> = None;
    for port in 0..MOST_PORTS {
        let Some(input) = input_behind(plan, join, port) else {
            continue;
        };
        let records = counts.get(input).copied().unwrap_or(0);
        let fed = Fed { input, records };
        most = match most {
            Some(before) if before.records >= records => Some(before),
            _ => Some(fed),
        };
        least = match least {
            Some(before) if before.records <= records => Some(before),
            _ => Some(fed),
        };
    }
    match (most, least) {
        (Some(most), Some(least)) if most.records > least.records => Some((most, least)),
        _ => None,
    }
}

/// The input each record of which makes one message at this port, where there is such an input.
fn input_behind(plan: &Plan<Steps>, join: usize, port: PortId) -> Option<usize> {
    let mut block = join;
    let mut port = port;
    for _ in 0..=plan.block_count() {
        match only_source(plan, block, port)? {
            LinkSource::Input(input) => return Some(input),
            LinkSource::Block(source) => {
                if !hands_on_each(plan, source) {
                    return None;
                }
                block = source;
                port = 0;
            }
        }
    }
    None
}

/// Where the messages at a port come from, if over one link alone, which lets each of them cross.
fn only_source(plan: &Plan<Steps>, block: usize, port: PortId) -> Option<LinkSource> {
    let mut found: Option<Link> = None;
    for id in 0..plan.link_count() {
        let link = plan.link(id);
        if link.target == LinkTarget::Port(block, port) {
            if found.is_some() {
                return None;
            }
            found = Some(link);
        }
    }
    match found {
        Some(link) if link.when == When::Any && link.max.is_none() => Some(link.source),
        _ => None,
    }
}

/// Whether a block hands on one message for each that it takes, over one link alone.
fn hands_on_each(plan: &Plan<Steps>, block: usize) -> bool {
    if block >= plan.block_count() {
        return false;
    }
    match plan.block(block).kind {
        BlockKind::Buffer | BlockKind::Transform => links_out_of(plan, block) == 1,
        BlockKind::Broadcast
        | BlockKind::WriteOnce
        | BlockKind::Action
        | BlockKind::TransformMany
        | BlockKind::Batch
        | BlockKind::Join
        | BlockKind::BatchedJoin => false,
    }
}

/// How many links lead out of a block.
fn links_out_of(plan: &Plan<Steps>, block: usize) -> usize {
    let mut count = 0usize;
    for id in 0..plan.link_count() {
        if plan.link(id).source == LinkSource::Block(block) {
            count = count.saturating_add(1);
        }
    }
    count
}

/// What is said of a join, at the first record that has no partner.
fn warning_of(
    alloc: Global,
    plan: &Plan<Steps>,
    text: &[u8],
    join: usize,
    most: Fed,
    least: Fed,
) -> Result<Warning, AllocError> {
    let name = name_of(alloc, plan, join)?;
    let (more, less) = (most.records, least.records);
    let from = name_of(alloc, plan, most.input)?;
    let other = name_of(alloc, plan, least.input)?;
    let end = "what has no partner waits, and the run ends with status 1.";
    let message = format!(in alloc;
        "block {join} {name} gets more records from {from} ({more}) than from {other} ({less}): {end}"
    )?;
    let span = span_of(alloc, plan, text, most.input, less)?;
    Ok(Warning { span, message })
}

/// The name of a block, as it is told.
fn name_of(alloc: Global, plan: &Plan<Steps>, block: usize) -> Result<String, AllocError> {
    if block < plan.block_count() {
        quoted(alloc, plan.block(block).name.as_str())
    } else {
        quoted(alloc, "")
    }
}

/// Where the record of this input stands that comes behind so many others of it.
fn span_of(
    alloc: Global,
    plan: &Plan<Steps>,
    text: &[u8],
    input: usize,
    before: usize,
) -> Result<Span, AllocError> {
    let mut rows = Rows::new(alloc, text);
    let mut left = before;
    for _ in 0..u64::MAX {
        let Some(row) = rows.next_row()? else {
            break;
        };
        if input_of(plan, &rows) == Some(input) {
            if left == 0 {
                return Ok(row.span);
            }
            left = left.saturating_sub(1);
        }
    }
    Ok(Span::new(0, 0))
}
