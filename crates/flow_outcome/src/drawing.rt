//! Draws a network in one of the styles.
mod graph;
mod notes;
mod text;

use crate::damage::damage_in;
use crate::drawing::graph::write_graph;
pub use crate::drawing::notes::{
    write_counts, write_crossed, write_link, write_options, write_state, write_terms,
};
use crate::drawing::text::write_text;
use crate::fault::TellFault;
use crate::fit::check_fit;
use crate::outline::Outline;
use flow_reading::Report;
use std::io::Write;

/// How a network is drawn.
#[derive(Clone, Copy)]
pub enum DrawStyle {
    /// A line for each block, and under it one for each of its links.
    Plain,
    /// The same, with names and states in the colours of a terminal.
    Coloured,
    /// A graph in the language of Graphviz.
    Dot,
}

/// Draws a network. With a report of it each block has its state and how many messages it took, holds, recorded and
/// left, and each link how many crossed it. Where the report is damaged, the drawing says so.
pub fn write_drawing<W: Write>(
    outline: &Outline,
    report: Option<&Report>,
    style: DrawStyle,
    writer: &mut W,
) -> Result<(), TellFault> {
    let damage = match report {
        Some(report) => {
            check_fit(outline, report)?;
            damage_in(outline, report)
        }
        None => None,
    };
    match style {
        DrawStyle::Plain => write_text(outline, report, false, damage, writer)?,
        DrawStyle::Coloured => write_text(outline, report, true, damage, writer)?,
        DrawStyle::Dot => write_graph(outline, report, damage, writer)?,
    }
    Ok(())
}
