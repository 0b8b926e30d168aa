//! Prints what is to be said of a text, for people and for other programs.
ghost use Rattle.std.specs.Prelude.{◌≡◌};

use crate::finding::Flaw;
use flow_fault_text::TextFault;
use flow_hints::Warning;
use flow_spans::{Escaped, Excerpt, Span, excerpt_of, position_of};
use std::alloc::{AllocError, Global};
use std::io;
use std::io::{ErrorKind, Write};

/// A text and the name by which it is told, such as that of its file; the name is printed with escapes.
#[derive(Clone, Copy)]
pub struct Source<'s> {
    pub name: &'s str,
    pub text: &'s [u8],
}

/// How much is printed.
#[derive(Clone, Copy)]
pub enum Style {
    /// Each thing with its line of the text, and at the end what came of it.
    Full,
    /// A line for each thing.
    Short,
}

/// Out of memory, as a fault of writing.
pub(crate) fn out_of_memory(_error: AllocError) -> io::Error {
    io::Error::from(ErrorKind::OutOfMemory)
}

/// Prints a flaw.
pub(crate) fn write_flaw<W: Write>(
    alloc: Global,
    source: Source<'_>,
    flaw: &Flaw,
    style: Style,
    out: &mut W,
) -> io::Result<()> {
    write_head(source, "error", flaw.span, flaw.message.as_str(), out)?;
    match style {
        Style::Short => Ok(()),
        Style::Full => {
            let digits = write_excerpt(alloc, source, flaw.span, out)?;
            let fault = flaw.fault;
            writeln!(out, "{:digits$}  = {fault}", "")
        }
    }
}

/// Prints a warning.
pub(crate) fn write_warning<W: Write>(
    alloc: Global,
    source: Source<'_>,
    warning: &Warning,
    style: Style,
    out: &mut W,
) -> io::Result<()> {
    write_head(
        source,
        "warning",
        warning.span,
        warning.message.as_str(),
        out,
    )?;
    match style {
        Style::Short => Ok(()),
        Style::Full => {
            write_excerpt(alloc, source, warning.span, out)?;
            Ok(())
        }
    }
}

fn write_head<W: Write>(
    source: Source<'_>,
    severity: &str,
    span: Span,
    message: &str,
    out: &mut W,
) -> io::Result<()> {
    let name = Escaped(source.name);
    let position = position_of(source.text, span.start);
    let (line, column) = (position.line, position.column);
    writeln!(out, "{name}:{line}:{column}: {severity}: {message}")
}

// Prints the line on which a span begins and marks under the span, and answers how long the line's number is.
fn write_excerpt<W: Write>(
    alloc: Global,
    source: Source<'_>,
    span: Span,
    out: &mut W,
) -> io::Result<usize> {
    let line = position_of(source.text, span.start).line;
    let digits = length_of(alloc, line).map_err(out_of_memory)?;
    let excerpt = excerpt_of(alloc, source.text, span).map_err(out_of_memory)?;
    write_marked(line, digits, &excerpt, out)?;
    Ok(digits)
}

// How many digits a number has.
fn length_of(alloc: Global, number: usize) -> Result<usize, AllocError> {
    let digits = number.to_string(alloc)?;
    Ok(digits.len())
}

// Prints a line with its number, and marks under a part of it.
fn write_marked<W: Write>(
    number: usize,
    digits: usize,
    excerpt: &Excerpt,
    out: &mut W,
) -> io::Result<()> {
    let text = excerpt.line.as_str();
    if text.trim().is_empty() {
        return Ok(());
    }
    let (before, marked) = (excerpt.before, excerpt.marked);
    writeln!(out, " {number} | {text}")?;
    writeln!(out, "{:digits$}  | {:before$}{:^<marked$}", "", "", "")
}
