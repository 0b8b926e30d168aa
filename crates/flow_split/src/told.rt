//! Which records are why others are refused, in words.
use crate::differ::Difference;
use crate::entry::Entry;
use crate::fault::PieceFault;
use crate::records::Records;
use std::alloc::Global;

/// What is told of a record: its key, its input and its line.
#[derive(Drop)]
struct Told {
    key: String,
    input: String,
    line: u64,
}

/// What the first input of a part and another one have where their keys differ first, by these records, in which each input
/// comes first at the record with this number.
pub(crate) fn difference_words(
    alloc: Global,
    records: &[u8],
    inputs: &[usize],
    found: &Difference,
) -> Result<String, PieceFault> {
    let first = side_words(alloc, records, inputs, 0, found.first_entry)?;
    let other = side_words(alloc, records, inputs, found.other, found.other_entry)?;
    Ok(format!(in alloc; "{first}, {other}")?)
}

/// What an input has.
fn side_words(
    alloc: Global,
    records: &[u8],
    inputs: &[usize],
    input: usize,
    entry: Option<Entry>,
) -> Result<String, PieceFault> {
    if let Some(entry) = entry {
        return record_words(alloc, records, entry.record);
    }
    let record = inputs.get(input).copied().unwrap_or(0);
    let Told { input, .. } = look(alloc, records, record)?;
    Ok(format!(in alloc; "none of {input:?}")?)
}

/// The key, the input and the line of the record with this number, from 0.
pub(crate) fn record_words(
    alloc: Global,
    records: &[u8],
    record: usize,
) -> Result<String, PieceFault> {
    let Told { key, input, line } = look(alloc, records, record)?;
    Ok(format!(in alloc; "{key:?} of {input:?} (line {line})")?)
}

/// What is told of the record with this number.
fn look(alloc: Global, records: &[u8], record: usize) -> Result<Told, PieceFault> {
    let mut walk = Records::new(alloc, records);
    for _ in 0..=record {
        if !walk.advance()? {
            break;
        }
    }
    let row = walk.row();
    Ok(Told {
        key: String::from_utf8_lossy(alloc, row.get(0).unwrap_or(&[]))?,
        input: String::from_utf8_lossy(alloc, row.get(1).unwrap_or(&[]))?,
        line: walk.line(),
    })
}
