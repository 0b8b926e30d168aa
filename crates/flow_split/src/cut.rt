//! Cuts records in their order.
ghost use Rattle.std.specs.Prelude.{◌≡◌, ◌+◌, length, flat_map, max, IfOk};

use crate::fault::PieceFault;
use crate::records::Records;
use std::alloc::{AllocError, Global};

/// The parts of a text of records, in order: as many as asked for, and one where none is asked for.
///
/// A cut stands where a record begins, and never in a quoted line end. Each part is about as long as the others, to a
/// record; where there are fewer records than parts, some parts are empty.
pub fn cut_records(alloc: Global, records: &[u8], parts: usize) -> Result<Vec<&[u8]>, PieceFault>
    ensures joined { IfOk result (λ pieces. flat_map (λ piece. piece.now) pieces.items ≡ records.now) }
    ensures count { IfOk result (λ pieces. length pieces.items ≡ max 1 parts) }
{
    let places = cut_places(alloc, records, parts)?;
    Ok(pieces_between(alloc, records, &places)?)
}

/// Where the records are cut: a place for each part but the last.
fn cut_places(alloc: Global, records: &[u8], parts: usize) -> Result<Vec<usize>, PieceFault>
    ensures { IfOk result (λ places. length places.items + 1 ≡ max 1 parts) }
{
    let mut walk = Records::new(alloc, records);
    let mut places = Vec::new(alloc);
    for number in 1..parts {
        let wanted = share(records.len(), number, parts);
        places.push(next_start(&mut walk, records.len(), wanted)?)?;
    }
    Ok(places)
}

/// So many parts of the length, of which there are so many in all.
fn share(length: usize, number: usize, parts: usize) -> usize {
    let whole = length as u128 * number as u128;
    match whole.checked_div(parts as u128) {
        Some(share) => usize::try_from(share).unwrap_or(length),
        None => length,
    }
}

/// The first place from here on that is at least the wanted one and may be cut at; the end where there is none.
fn next_start(walk: &mut Records<'_>, end: usize, wanted: usize) -> Result<usize, PieceFault> {
    for _ in 0..u64::MAX {
        if walk.end() >= wanted && walk.may_cut() {
            break;
        }
        if !walk.advance()? {
            return Ok(end);
        }
    }
    Ok(walk.end())
}

/// What stands between these places, each of which counts from the beginning.
#[tactic(auto, using(crate::proofs::PiecesJoin::joined_snoc, crate::proofs::PiecesJoin::joined_on))]
fn pieces_between<'r>(
    alloc: Global,
    records: &'r [u8],
    places: &[usize],
) -> Result<Vec<&'r [u8]>, AllocError>
    ensures joined { IfOk result (λ pieces. flat_map (λ piece. piece.now) pieces.items ≡ records.now) }
    ensures count { IfOk result (λ pieces. length pieces.items ≡ length places.now + 1) }
{
    let mut pieces = Vec::new(alloc);
    let mut rest = records;
    'places: for place in places {
        let taken = records.len().saturating_sub(rest.len());
        let width = place.saturating_sub(taken).min(rest.len());
        let (piece, others) = rest.split_at(width);
        pieces.push(piece)?;
        rest = others;
    }
    pieces.push(rest)?;
    Ok(pieces)
}
