//! Records as a reader of CSV gives them.
ghost use Rattle.std.specs.Prelude.{◌≡◌, ◌≢◌, ◌∷◌, ◌⊎◌, [], ℕ, List, length, replicate, true, IfOk, IfErr, IfSome, MatchOption, option_map};
ghost use Rattle.csv.specs.Reading.{ReadRecord, reader_state, source_of, strip_bom};
ghost use Rattle.csv.specs.Records.{fields_of};
ghost use Rattle.csv.specs.declared.parser.State.TheVariants as at;
ghost use Rattle.flow_record_text.specs.Records.{texts_of, AllDiffer, IsOfRecords, TakesAll, posted_values, posted_endings};
ghost use Rattle.flow_record_text.specs.Places.{FindsInputs};
ghost use Rattle.flow_record_text.specs.Lines.{Begun, PostAllOf, ExplainsOf};

use crate::fields::{Seen, post_record};
use csv::{ByteRecord, Error, ErrorKind, Reader, ReaderBuilder};
use flow_fault_text::{TextFault, TextRefusal};
use flow_link::{Ending, Posted};
use std::alloc::Global;
use std::collections::HashMap;
use std::io::Read;

#[cold]
fn reading_failed(error: &Error) -> TextRefusal
    ensures { (result ≡ TextRefusal.Memory) ⊎ (result ≡ TextRefusal.Fault TextFault.Read) }
{
    match error.kind() {
        ErrorKind::OutOfMemory => TextRefusal::Memory,
        _ => TextRefusal::Fault(TextFault::Read),
    }
}

// A reader that gives each record of a text, the first too, whatever number of fields it has.
fn record_reader<R: Read + Drop>(alloc: Global, reader: R) -> Reader<R>
    ensures takes { TakesAll result }
    ensures state { reader_state result ≡ at.StartRecord }
    ensures source { source_of R.remaining result ≡ option_map strip_bom (R.remaining reader) }
{
    ReaderBuilder::new()
        .has_headers(false)
        .flexible(true)
        .from_reader(alloc, reader)
}

// Reads the next record, if there is one.
fn read_row<R: Read + Drop>(
    records: &mut Reader<R>,
    row: &mut ByteRecord,
) -> Result<bool, TextRefusal>
    requires { TakesAll records.old }
    ensures reads { IfOk result (λ found. ReadRecord R.remaining records.old records.new found (fields_of row.new)) }
    ensures takes { IfOk result (λ found. found ≡ true → TakesAll records.new) }
    ensures refused { IfErr result (λ refusal. (refusal ≡ TextRefusal.Memory)
        ⊎ (refusal ≡ TextRefusal.Fault TextFault.Read)) }
{
    match records.read_byte_record(row) {
        Ok(found) => Ok(found),
        Err(error) => Err(reading_failed(&error)),
    }
}

// The fields of a record that has two.
fn two_fields(row: &ByteRecord) -> Option<(&[u8], &[u8])>
    ensures { MatchOption result (length (fields_of row.now) ≢ 2)
        (λ fields. fields_of row.now ≡ fields.0.now ∷ fields.1.now ∷ []) }
{
    if row.len() != 2 {
        return None;
    }
    let Some(name) = row.get(0) else {
        return None;
    };
    let Some(field) = row.get(1) else {
        return None;
    };
    Some((name, field))
}

// Posts the records of a text, or of the rest of one. The count of them stops at the greatest number, the reading does not.
pub(crate) fn read_rows<R: Read + Drop>(
    alloc: Global,
    reader: R,
    names: &[&str],
    places: &HashMap<&str, usize>,
    posted: Vec<Posted>,
    seen: Seen,
) -> Result<Vec<Posted>, TextRefusal>
    requires differ { AllDiffer (texts_of names.now) }
    requires places { FindsInputs places.now (texts_of names.now) }
    requires endings { posted_endings posted.items ≡ replicate (length names.now) Ending.Complete }
    ensures endings { IfOk result (λ all. posted_endings all.items ≡ replicate (length names.now) Ending.Complete) }
    ensures values { IfOk result (λ all. IfSome (R.remaining reader) (λ left. (bytes : List ℕ)
        → Begun (texts_of names.now) seen.number (posted_values posted.items) bytes left
        → PostAllOf (texts_of names.now) bytes (posted_values all.items))) }
    ensures of_records { IfErr result IsOfRecords }
    ensures refused { IfErr result (λ refusal. IfSome (R.remaining reader) (λ left. (bytes : List ℕ)
        → Begun (texts_of names.now) seen.number (posted_values posted.items) bytes left
        → ExplainsOf (texts_of names.now) bytes refusal)) }
{
    let mut posted = posted;
    let mut seen = seen;
    let mut records = record_reader(alloc, reader);
    let mut row = ByteRecord::new(alloc);
    'reading: loop {
        let found = read_row(&mut records, &mut row)?;
        if !found {
            return Ok(posted);
        }
        let Some((name, field)) = two_fields(&row) else {
            let number = seen.number.saturating_add(1);
            return Err(TextRefusal::Fault(TextFault::Csv(number)));
        };
        post_record(alloc, names, places, name, field, &mut posted, &mut seen)?;
    }
}
