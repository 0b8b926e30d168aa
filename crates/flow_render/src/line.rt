//! The lines of text in the box of a block, and what stands beside a link.
use crate::escape::write_head;
use flow_outcome::{
    BlockOutline, LinkOutline, Outline, write_counts, write_crossed, write_options, write_state,
    write_terms,
};
use flow_reading::{BlockReport, Report};
use std::io;
use std::io::Write;

/// How many characters of a line a picture shows at most: as many as the name of a block may have.
const MOST_SHOWN: usize = 64;

/// A line in the box of a block.
#[derive(Clone, Copy)]
pub(crate) enum Row {
    Name,
    Options,
    State,
    Counts,
}

impl Row {
    pub(crate) fn class(self) -> &'static str {
        match self {
            Row::Name => "name",
            Row::Options => "options",
            Row::State => "state",
            Row::Counts => "counts",
        }
    }
}

/// The lines of a box, from top to bottom: those of a network alone, or those with a report.
pub(crate) fn rows(has_report: bool) -> &'static [Row] {
    if has_report {
        &[Row::Name, Row::Options, Row::State, Row::Counts]
    } else {
        &[Row::Name, Row::Options]
    }
}

/// Fills a line with what stands there in the box of a block.
pub(crate) fn fill_row(
    line: &mut Vec<u8>,
    row: Row,
    block: &BlockOutline,
    reported: Option<&BlockReport>,
) -> io::Result<()> {
    line.clear();
    match (row, reported) {
        (Row::Name, _) => line.write_all(block.name.as_bytes()),
        (Row::Options, _) => write_options(line, block),
        (Row::State, Some(reported)) => write_state(line, reported.state),
        (Row::Counts, Some(reported)) => write_counts(line, reported),
        (Row::State | Row::Counts, None) => Ok(()),
    }
}

/// Fills a line with what a link is asked for and how much crossed it. That it hands an end on is shown by its stroke.
pub(crate) fn fill_label(
    line: &mut Vec<u8>,
    outline: &Outline,
    report: Option<&Report>,
    number: usize,
    link: &LinkOutline,
) -> io::Result<()> {
    line.clear();
    let link = *link;
    let asked = LinkOutline {
        propagate: false,
        ..link
    };
    write_terms(line, &asked)?;
    let words = if line.is_empty() { "" } else { ": " };
    write_crossed(line, outline, report, number, words)
}

/// The text of a line, without the comma with which it may begin.
fn text_of(line: &[u8]) -> &str {
    let text = str::from_utf8(line).unwrap_or("");
    text.strip_prefix(", ").unwrap_or(text)
}

/// How many characters of a line are shown.
pub(crate) fn width_of(line: &[u8]) -> usize {
    text_of(line).chars().count().min(MOST_SHOWN)
}

/// Writes what is shown of a line.
pub(crate) fn write_line<W: Write>(writer: &mut W, line: &[u8]) -> io::Result<()> {
    write_head(writer, text_of(line), MOST_SHOWN)
}
