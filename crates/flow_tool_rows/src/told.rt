//! What is told of a text.
use crate::check::{add_words, check, given, is_due};
use flow_explain::{Answer, Source, Style, Verdict, check_network, explain_network};
use flow_fault_text::{TextFault, TextRefusal};
use flow_plan_text::read_plan;
use flow_spans::Span;
use std::alloc::Global;
use std::process::Abort;

/// A text whose first line names the format, and whose others are these, between which ' ; ' stands.
pub(crate) fn lines_of(rt: &(impl Abort + Print), alloc: Global, lines: &str) -> String {
    let mut text = given(rt, lines, String::from_str(alloc, "format = 1\n"));
    for line in lines.split(" ; ") {
        add_words(rt, &mut text, line);
        add_words(rt, &mut text, "\n");
    }
    text
}

/// A text without the double angles in it, and what stood between them, or its start where there are none.
pub(crate) fn unmarked(rt: &(impl Abort + Print), alloc: Global, marked: &str) -> (String, Span) {
    let Some((before, rest)) = marked.split_once("<<") else {
        let text = given(rt, marked, String::from_str(alloc, marked));
        return (text, Span::new(0, 0));
    };
    let (inner, after) = rest.split_once(">>").unwrap_or((rest, ""));
    let mut text = given(rt, marked, String::from_str(alloc, before));
    add_words(rt, &mut text, inner);
    let span = Span::new(before.len(), text.len());
    add_words(rt, &mut text, after);
    (text, span)
}

/// Tests that the first flaw that is told of a text has this fault, as a run tells it. It is where the flaw stands; a text that is
/// accepted has none.
pub(crate) fn flaw_in(
    rt: &(impl Abort + Print),
    alloc: Global,
    row: &str,
    text: &[u8],
    line: &str,
) -> Span {
    match given(rt, row, explain_network(alloc, text)) {
        Answer::Refused(flaw, _) => {
            is_told(rt, alloc, row, flaw.fault, line);
            flaw.span
        }
        Answer::Accepted(_) => panic!(rt; "accepted: {row}"),
    }
}

/// Tests that a fault is told so.
fn is_told(rt: &(impl Abort + Print), alloc: Global, row: &str, fault: TextFault, line: &str) {
    let told = given(rt, row, format!(in alloc; "{fault}"));
    is_due(rt, row, line, told.as_str());
}

/// Tests that the first flaw of a text has this fault and stands there, and that a run refuses the text for it too.
pub(crate) fn is_flawed(
    rt: &(impl Abort + Print),
    alloc: Global,
    row: &str,
    text: &[u8],
    line: &str,
    span: Span,
) {
    check(rt, row, flaw_in(rt, alloc, row, text, line) == span);
    match read_plan(alloc, text) {
        Err(TextRefusal::Fault(fault)) => is_told(rt, alloc, row, fault, line),
        Ok(_) | Err(TextRefusal::Memory) => panic!(rt; "not refused: {row}"),
    }
}

/// What is printed of a network with the name `net`, and the verdict.
pub(crate) fn printed(
    rt: &(impl Abort + Print),
    alloc: Global,
    text: &[u8],
    style: Style,
) -> (Verdict, String) {
    let mut out = Vec::new(alloc);
    let source = Source { name: "net", text };
    let verdict = given(
        rt,
        "a network",
        check_network(alloc, source, style, &mut out),
    );
    (verdict, text_of(rt, alloc, &out))
}

/// What was printed, as a text.
pub(crate) fn text_of(rt: &(impl Abort + Print), alloc: Global, out: &[u8]) -> String {
    given(rt, "a text", String::from_utf8_lossy(alloc, out))
}

/// Tests that the lines of a text begin with the words of these lines, one after another, and that there are no others.
pub(crate) fn begins(rt: &(impl Abort + Print), case: &str, text: &str, beginnings: &str) {
    assert!(rt; begin_with(text, beginnings), "{case}\n  came\n{text}");
}

/// Whether the lines of a text begin with the words of these lines, one after another, and there are no others.
fn begin_with(text: &str, beginnings: &str) -> bool {
    let mut lines = text.lines();
    for beginning in beginnings.lines() {
        match lines.next() {
            Some(line) if line.starts_with(beginning) => {}
            _ => return false,
        }
    }
    lines.next().is_none()
}
