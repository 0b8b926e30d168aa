//! A network as a graph for Graphviz.
use crate::damage::Damage;
use crate::drawing::notes::{
    reported, write_counts, write_crossed, write_options, write_state, write_terms,
};
use crate::outline::{BlockOutline, LinkOutline, Outline};
use flow_reading::{BlockReport, Report, State};
use std::io;
use std::io::Write;

/// Writes a graph: a box for each block, an arrow for each link, and a title where the report is damaged.
pub(crate) fn write_graph<W: Write>(
    outline: &Outline,
    report: Option<&Report>,
    damage: Option<Damage<'_>>,
    writer: &mut W,
) -> io::Result<()> {
    writer.write_all(b"digraph network {\n  rankdir=LR;\n  node [shape=box];\n")?;
    if let Some(damage) = damage {
        writeln!(writer, "  label=\"{damage}\";")?;
    }
    for (number, block) in outline.blocks.iter().enumerate() {
        write_box(writer, number, block, reported(report, number))?;
    }
    for (number, link) in outline.links.iter().enumerate() {
        write_arrow(writer, number, link)?;
        write_crossed(writer, outline, report, number, "\\n")?;
        writer.write_all(b"\"];\n")?;
    }
    writer.write_all(b"}\n")
}

fn write_box<W: Write>(
    writer: &mut W,
    number: usize,
    block: &BlockOutline,
    reported: Option<&BlockReport>,
) -> io::Result<()> {
    let name = block.name;
    write!(writer, "  b{number} [label=\"{name}\\n")?;
    write_options(writer, block)?;
    match reported {
        Some(reported) => {
            writer.write_all(b"\\n")?;
            write_state(writer, reported.state)?;
            write_counts(writer, reported)?;
            let colour = colour_of(reported.state);
            writeln!(writer, "\", style=filled, fillcolor={colour}];")
        }
        None => writer.write_all(b"\"];\n"),
    }
}

fn colour_of(state: State) -> &'static str {
    match state {
        State::Done => "palegreen",
        State::Faulted(_) => "lightpink",
        State::Open | State::Completing => "khaki",
    }
}

/// Writes an arrow, up to what crossed the link.
fn write_arrow<W: Write>(writer: &mut W, number: usize, link: &LinkOutline) -> io::Result<()> {
    let source = link.from;
    let target = link.to;
    write!(writer, "  b{source} -> b{target} [label=\"link {number}")?;
    if link.port > 0 {
        let port = link.port;
        write!(writer, ", port {port}")?;
    }
    write_terms(writer, link)
}
