//! The parts of records of a key, an input and a value, as texts.
ghost use Rattle.std.specs.Prelude.{◌≡◌, length, max, IfOk};

use crate::deal::{Dealt, deal_in_order, deal_in_rows};
use crate::entry::Entry;
use crate::fault::{DealFault, PieceFault};
use crate::keyed::Keyed;
use crate::records::Records;
use crate::told::{difference_words, record_words};
use std::alloc::{AllocError, AllocFailed, Global};

/// What is done where the inputs of a part do not have the same keys in the same order.
#[derive(Clone, Copy)]
pub enum Pairing {
    /// It is refused.
    AsTheyCome,
    /// They are put into the order of the first input; a record without a partner is refused.
    InRows,
    /// They are put into the order of the first input, and records without a partner are set aside.
    SetAside,
}

/// The texts of parts.
#[derive(Drop)]
pub struct KeyedPieces {
    /// Those of the parts, without keys.
    pub pieces: Vec<Vec<u8>>,
    /// The records that were set aside, as they stood.
    pub alone: Vec<u8>,
}

/// Why records are not dealt out by their key.
#[derive(Drop)]
pub enum KeyFault {
    /// They can't be cut.
    Piece(PieceFault),
    /// Two inputs of a part do not have the same keys in the same order: what each has where they differ first.
    Differ(String),
    /// A record has no partner: which one.
    Alone(String),
}

impl From<PieceFault> for KeyFault {
    fn from(fault: PieceFault) -> KeyFault {
        KeyFault::Piece(fault)
    }
}

impl From<AllocError> for KeyFault {
    fn from(_error: AllocError) -> KeyFault {
        KeyFault::Piece(PieceFault::Memory)
    }
}

impl<T: Drop> From<AllocFailed<T>> for KeyFault {
    fn from(_error: AllocFailed<T>) -> KeyFault {
        KeyFault::Piece(PieceFault::Memory)
    }
}

/// The parts of records of a key, an input and a value: as many as asked for, and one where none is asked for. All records
/// with one key stand in one part, and without the key. In each part each input has the same keys in the same order.
///
/// A record that hasn't three fields is refused.
pub fn deal_by_key(
    alloc: Global,
    records: &[u8],
    parts: usize,
    pairing: Pairing,
) -> Result<KeyedPieces, KeyFault>
    ensures { IfOk result (λ dealt. length dealt.pieces.items ≡ max 1 parts) }
{
    let parts = parts.max(1);
    let keyed = Keyed::read(alloc, records, parts)?;
    let dealt = match pairing {
        Pairing::AsTheyCome => deal_in_order(alloc, &keyed, parts),
        Pairing::InRows | Pairing::SetAside => deal_in_rows(alloc, &keyed, parts),
    };
    match dealt {
        Ok(dealt) => texts_of(alloc, records, &keyed, &dealt, pairing),
        Err(DealFault::Memory) => Err(KeyFault::Piece(PieceFault::Memory)),
        Err(DealFault::Differ(found)) => {
            let words = difference_words(alloc, records, &keyed.inputs, &found)?;
            Err(KeyFault::Differ(words))
        }
    }
}

/// The texts of records that were dealt out, unless one has no partner and may not.
fn texts_of(
    alloc: Global,
    records: &[u8],
    keyed: &Keyed,
    dealt: &Dealt,
    pairing: Pairing,
) -> Result<KeyedPieces, KeyFault>
    ensures { IfOk result (λ texts. length texts.pieces.items ≡ length dealt.now.parts.items) }
{
    let is_alone = marked(alloc, keyed.entries.len(), &dealt.alone)?;
    if matches!(pairing, Pairing::InRows) {
        if let Some(record) = first_marked(&is_alone) {
            let words = record_words(alloc, records, record)?;
            return Err(KeyFault::Alone(words));
        }
    }
    let mut pieces = Vec::with_capacity(alloc, dealt.parts.len())?;
    'parts: for part in &dealt.parts {
        pieces.push(keyed.text_of(alloc, part)?)?;
    }
    let alone = marked_records(alloc, records, &is_alone)?;
    Ok(KeyedPieces { pieces, alone })
}

/// For each of so many records whether it is one of these.
fn marked(alloc: Global, count: usize, lists: &[Vec<Entry>]) -> Result<Vec<bool>, AllocError> {
    let mut marks = vec![in alloc; false; count]?;
    for entries in lists {
        mark_all(&mut marks, entries);
    }
    Ok(marks)
}

fn mark_all(marks: &mut [bool], entries: &[Entry]) {
    for entry in entries {
        if let Some(mark) = marks.get_mut(entry.record) {
            *mark = true;
        }
    }
}

fn first_marked(marks: &[bool]) -> Option<usize> {
    for (record, mark) in marks.iter().enumerate() {
        if *mark {
            return Some(record);
        }
    }
    None
}

/// The records that are marked, as they stand, each with a line end.
fn marked_records(alloc: Global, records: &[u8], marks: &[bool]) -> Result<Vec<u8>, PieceFault> {
    let mut text = Vec::new(alloc);
    let mut walk = Records::new(alloc, records);
    for mark in marks {
        if !walk.advance()? {
            break;
        }
        if *mark {
            let raw = walk.raw();
            text.extend_from_slice(raw)?;
            if !raw.ends_with(b"\n") && !raw.ends_with(b"\r") {
                text.push(b'\n')?;
            }
        }
    }
    Ok(text)
}
