//! What is written of a chunk.
ghost use Rattle.std.specs.Prelude.{◌≡◌, IfOk};
ghost use Rattle.flow_net.specs.declared.settled.Settled.TheVariants.{Quiet};
ghost use Rattle.flow_report.specs.Report.{report, run_in};

use crate::fault::ChunkFault;
use crate::json::write_lines;
use crate::table::write_rows;
use csv::{Writer, WriterBuilder};
use flow_link::BlockKind;
use flow_net::{Net, Settled};
use flow_text::write_report;
use flow_value::Steps;
use std::alloc::Global;

/// What is written of a chunk.
#[derive(Clone, Copy, Debug, PartialEq, Eq)]
pub enum Form {
    /// A row for each value that an action recorded: the name of the action, and the value, or the items of a row, each in a column.
    Csv,
    /// A line for each of them: a JSON object with its `block` and the `value`.
    JsonLines,
    /// The report of the chunk's run.
    Report,
}

/// What is written of a run that is quiet.
pub(crate) fn page_of(alloc: Global, net: &Net<Steps>, form: Form) -> Result<Vec<u8>, ChunkFault> {
    match form {
        Form::Csv => table_of(alloc, net),
        Form::JsonLines => lines_of(alloc, net),
        Form::Report => report_of(alloc, net),
    }
}

/// The rows of each action.
fn table_of(alloc: Global, net: &Net<Steps>) -> Result<Vec<u8>, ChunkFault> {
    let mut table = WriterBuilder::new()
        .flexible(true)
        .from_writer(Vec::new(alloc));
    for number in 0..net.plan().block_count() {
        let block = net.plan().block(number);
        if matches!(block.kind, BlockKind::Action) {
            write_rows(alloc, &mut table, block.name.as_str(), net.record(number))?;
        }
    }
    page_behind(table)
}

/// The page under a table that is written.
fn page_behind(table: Writer<Vec<u8>>) -> Result<Vec<u8>, ChunkFault> {
    match table.into_inner() {
        Ok(page) => Ok(page),
        // A page takes all that is written, as long as there is memory.
        Err(_) => Err(ChunkFault::Memory),
    }
}

/// The lines of each action.
fn lines_of(alloc: Global, net: &Net<Steps>) -> Result<Vec<u8>, ChunkFault> {
    let mut page = Vec::new(alloc);
    for number in 0..net.plan().block_count() {
        let block = net.plan().block(number);
        if matches!(block.kind, BlockKind::Action) {
            write_lines(block.name.as_str(), net.record(number), &mut page)?;
        }
    }
    Ok(page)
}

/// The report of a run.
fn report_of(alloc: Global, net: &Net<Steps>) -> Result<Vec<u8>, ChunkFault>
    ensures { IfOk result (λ page. page.items ≡ report (run_in net.now) Quiet) }
{
    let mut page = Vec::new(alloc);
    match write_report(alloc, net, Settled::Quiet, &mut page) {
        Ok(()) => Ok(page),
        // A page takes all that is written, as long as there is memory.
        Err(_) => Err(ChunkFault::Memory),
    }
}
