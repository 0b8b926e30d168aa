//! Networks that are drawn in a line, each with records and what it comes to: as texts and as drafts.

use crate::drawn::add;
use crate::lines::{has_lines, is_report};
use crate::shares::share;
use flow_drawn::{Drawn, inputs, read_drawn, split_word};
use flow_net::{Net, Settled};
use flow_text::write_report;
use flow_value::Steps;
use std::alloc::{AllocError, Global};

/// Puts the options at the end of a text, each as a key with its value.
fn add_options(text: &mut Vec<u8>, options: &str) -> Result<(), AllocError> {
    let mut rest = options;
    for _ in 0..options.len() {
        if rest.is_empty() {
            return Ok(());
        }
        let (key, others) = split_word(rest);
        let (value, behind) = split_word(others);
        let mark = if key == "when" { "\"" } else { "" };
        add(text, &[key, " = ", mark, value, mark, "\n"])?;
        rest = behind;
    }
    Ok(())
}

/// Puts the steps of a function at the end of a text.
fn add_work(text: &mut Vec<u8>, work: &str) -> Result<(), AllocError> {
    add(text, &["work = ["])?;
    for step in work.split("+") {
        if !step.is_empty() {
            add(text, &["\"", step, "\","])?;
        }
    }
    add(text, &["]\n"])
}

fn add_block(text: &mut Vec<u8>, drawn: &Drawn) -> Result<(), AllocError> {
    let (name, input) = drawn.name();
    let (kind, work) = drawn.kind_and_work();
    let key = if input { "\"\ninput = true\n" } else { "\"\n" };
    add(text, &["[[block]]\nname = \"", name, key])?;
    add(text, &["kind = \"", kind, "\"\n"])?;
    if let Some(work) = work {
        add_work(text, work)?;
    }
    add_options(text, drawn.options)
}

fn add_link(text: &mut Vec<u8>, drawn: &Drawn, propagate: bool) -> Result<(), AllocError> {
    let word = if propagate { "true" } else { "false" };
    add(
        text,
        &[
            "[[link]]\nfrom = \"",
            drawn.first,
            "\"\nto = \"",
            drawn.second,
        ],
    )?;
    add(text, &["\"\npropagate = ", word, "\n"])?;
    add_options(text, drawn.options)
}

/// The text of the network that is drawn so.
fn text(alloc: Global, drawn: &str) -> Result<Vec<u8>, AllocError> {
    let mut text = Vec::new(alloc);
    add(&mut text, &["format = 1\n"])?;
    for part in drawn.split(", ") {
        let part = read_drawn(part);
        match part.link {
            Some(propagate) => add_link(&mut text, &part, propagate)?,
            None => add_block(&mut text, &part)?,
        }
    }
    Ok(text)
}

/// A network with its records and what it comes to.
#[derive(Clone, Copy)]
pub struct Case<'a> {
    pub name: &'a str,
    /// The network, drawn in a line.
    pub drawn: &'a str,
    /// Records, as `a,1 b,2`, or `none`. In a draft `a!5` ends the input with a fault.
    records: &'a str,
    /// In each line a status and lines of the report, which are all of them where `all` stands before them; and behind a stroke
    /// rows that the records share, if they do. The network comes to one of them.
    due: &'a str,
}

/// The case that these lines are: its name, the network, the records, and what is due. None where a line is missing.
pub fn read_case(lines: &str) -> Option<Case<'_>> {
    let (name, others) = lines.split_once("\n")?;
    let (drawn, others) = others.split_once("\n")?;
    let (records, due) = others.split_once("\n")?;
    Some(Case {
        name,
        drawn,
        records,
        due,
    })
}

/// Whether these lines stand in a report, in this order; and no others, where `all` stands before them.
fn are_lines(report: &[u8], lines: &str) -> bool {
    match lines.strip_prefix("all ") {
        Some(all) => is_report(report, &[all]),
        None => has_lines(report, lines),
    }
}

/// The records as the program reads them.
fn records_of(alloc: Global, words: &str) -> Result<Vec<u8>, AllocError> {
    let mut records = Vec::new(alloc);
    for word in words.split(" ") {
        if word != "none" {
            add(&mut records, &[word, "\n"])?;
        }
    }
    Ok(records)
}

impl Case<'_> {
    /// The network, built as a draft, to which the records are posted. None where it is no plan, or memory is out.
    pub fn network(&self, alloc: Global) -> Option<Net<Steps>> {
        inputs(alloc, self.drawn, self.records)?.start(alloc).ok()
    }

    /// Whether what is due stands in the report of a network that is quiet.
    pub fn is_met(&self, alloc: Global, net: &Net<Steps>) -> bool {
        let mut report = Vec::new(alloc);
        write_report(alloc, net, Settled::Quiet, &mut report).is_ok()
            && self.is_told(alloc, None, report.as_slice()) == Ok(true)
    }

    /// Whether what is due stands in a report. A status has to be the one that is due, too.
    pub fn is_told(
        &self,
        alloc: Global,
        status: Option<u8>,
        report: &[u8],
    ) -> Result<bool, AllocError> {
        for line in self.due.lines() {
            let (due, others) = split_word(line);
            let (lines, rows) = others.split_once(" | ").unwrap_or((others, ""));
            let is_status = status.is_none() || due.parse::<u8>().ok() == status;
            if is_status && are_lines(report, lines) && share(alloc, report, rows)? {
                return Ok(true);
            }
        }
        Ok(false)
    }

    /// The texts of the network and of the records.
    pub fn texts(&self, alloc: Global) -> Result<(Vec<u8>, Vec<u8>), AllocError> {
        Ok((text(alloc, self.drawn)?, records_of(alloc, self.records)?))
    }
}
