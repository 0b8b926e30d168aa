//! Plain lines: two fields and a comma, without a quote. They are read where they stand, as a reader of CSV would read them.
ghost use Rattle.std.specs.Prelude.{◌≡◌, ◌<◌, ◌≤◌, ◌⊎◌, ℕ, List, length, replicate, take, true, false, Ok, IfOk, IfErr, OnOk, IfSome};
ghost use Rattle.std.specs.Io.Buffered.{reader_remaining};
ghost use Rattle.std.specs.Io.KnownBytes.{Keeps};
ghost use Rattle.csv.specs.Reading.{strip_bom};
ghost use Rattle.flow_record_text.specs.Records.{texts_of, AllDiffer, IsOfRecords, room, posted_values, posted_endings};
ghost use Rattle.flow_record_text.specs.Places.{FindsInputs};
ghost use Rattle.flow_record_text.specs.Lines.{is_ordinary, AllOrdinary, IsPlain, GoesOn, Stops, GoesFrom, StopsFrom, LeavesLine, ReadsLine};

use crate::fields::{Seen, post_record};
use flow_fault_text::{TextFault, TextRefusal};
use flow_link::{Ending, Posted};
use std::alloc::Global;
use std::collections::HashMap;
use std::io;
use std::io::{BufRead, BufReader, ErrorKind, Read};

/// Where the comma and the line feed of a line stand.
#[derive(Clone, Copy)]
struct Line {
    comma: usize,
    end: usize,
}

// Whether a byte stands in a field as it is, and ends none.
#[inline(always)]
fn is_ordinary(byte: u8) -> bool
    ensures { result ≡ is_ordinary byte }
{
    byte != b',' && byte != b'\n' && byte != b'"' && byte != b'\r'
}

// The place of the first byte from this one on that is not ordinary, or the end.
#[inline(always)]
fn field_end(bytes: &[u8], from: usize) -> usize
    requires { from ≤ length bytes.now }
    ensures after { from ≤ result }
    ensures within { result ≤ length bytes.now }
    ensures ordinary { AllOrdinary bytes.now from result }
{
    let mut place = from;
    while place < bytes.len() && is_ordinary(bytes[place]) {
        place += 1;
    }
    place
}

// The line in front, where it is plain and whole.
#[inline(always)]
fn plain_line(bytes: &[u8]) -> Option<Line>
    ensures { IfSome result (λ line. IsPlain bytes.now line.comma line.end) }
{
    let comma = field_end(bytes, 0);
    if comma >= bytes.len() || bytes[comma] != b',' {
        return None;
    }
    let end = field_end(bytes, comma + 1);
    if end >= bytes.len() || bytes[end] != b'\n' {
        return None;
    }
    Some(Line { comma, end })
}

// Posts what the plain lines in front have. Answers how many bytes they take.
fn post_lines(
    alloc: Global,
    names: &[&str],
    places: &HashMap<&str, usize>,
    bytes: &[u8],
    posted: &mut Vec<Posted>,
    seen: &mut Seen,
) -> Result<usize, TextRefusal>
    requires differ { AllDiffer (texts_of names.now) }
    requires places { FindsInputs places.now (texts_of names.now) }
    requires endings { posted_endings posted.old.items ≡ replicate (length names.now) Ending.Complete }
    ensures within { IfOk result (λ used. used ≤ length bytes.now) }
    ensures goes_on { IfOk result (λ used. GoesOn (texts_of names.now) seen.old.number (posted_values posted.old.items)
        seen.new.number (posted_values posted.new.items) (take used bytes.now)) }
    ensures endings { OnOk result (posted_endings posted.new.items ≡ posted_endings posted.old.items) }
    ensures room { OnOk result (room (posted_values posted.new.items) ≤ room (posted_values posted.old.items)) }
    ensures of_records { IfErr result IsOfRecords }
    ensures refused { IfErr result (λ refusal. Stops (texts_of names.now) seen.old.number
        (posted_values posted.old.items) bytes.now refusal) }
{
    let mut used = 0;
    'lines: loop {
        let rest = &bytes[used..];
        let Some(line) = plain_line(rest) else {
            return Ok(used);
        };
        let name = &rest[..line.comma];
        let field = &rest[line.comma + 1..line.end];
        post_record(alloc, names, places, name, field, posted, seen)?;
        used += line.end + 1;
    }
}

// Posts what a line has that is read, where it is plain and ends there; tells whether it is.
fn post_line(
    alloc: Global,
    names: &[&str],
    places: &HashMap<&str, usize>,
    bytes: &[u8],
    posted: &mut Vec<Posted>,
    seen: &mut Seen,
) -> Result<bool, TextRefusal>
    requires differ { AllDiffer (texts_of names.now) }
    requires places { FindsInputs places.now (texts_of names.now) }
    requires endings { posted_endings posted.old.items ≡ replicate (length names.now) Ending.Complete }
    ensures goes_on { result ≡ Ok true → GoesOn (texts_of names.now) seen.old.number (posted_values posted.old.items)
        seen.new.number (posted_values posted.new.items) bytes.now }
    ensures room { result ≡ Ok true → room (posted_values posted.new.items) < room (posted_values posted.old.items) }
    ensures endings { OnOk result (posted_endings posted.new.items ≡ posted_endings posted.old.items) }
    ensures same_values { result ≡ Ok false → posted_values posted.new.items ≡ posted_values posted.old.items }
    ensures same_number { result ≡ Ok false → seen.new.number ≡ seen.old.number }
    ensures of_records { IfErr result IsOfRecords }
    ensures refused { IfErr result (λ refusal. Stops (texts_of names.now) seen.old.number
        (posted_values posted.old.items) bytes.now refusal) }
{
    let Some(line) = plain_line(bytes) else {
        return Ok(false);
    };
    if line.end + 1 != bytes.len() {
        return Ok(false);
    }
    let name = &bytes[..line.comma];
    let field = &bytes[line.comma + 1..line.end];
    post_record(alloc, names, places, name, field, posted, seen)?;
    Ok(true)
}

// Why a read failed.
#[cold]
fn failed(error: &io::Error) -> TextRefusal
    ensures { (result ≡ TextRefusal.Memory) ⊎ (result ≡ TextRefusal.Fault TextFault.Read) }
{
    if error.kind() == ErrorKind::OutOfMemory {
        TextRefusal::Memory
    } else {
        TextRefusal::Fault(TextFault::Read)
    }
}

// Whether a text that nothing was read of begins with no byte order mark, as far as one look tells.
pub(crate) fn begins_plainly<R: Read>(reader: &mut BufReader<R>) -> Result<bool, TextRefusal>
    ensures keeps { OnOk result (Keeps (reader_remaining R.remaining reader.old)
        (reader_remaining R.remaining reader.new)) }
    ensures plain { result ≡ Ok true → IfSome (reader_remaining R.remaining reader.old)
        (λ bytes. strip_bom bytes ≡ bytes) }
    ensures refused { IfErr result (λ refusal. (refusal ≡ TextRefusal.Memory)
        ⊎ (refusal ≡ TextRefusal.Fault TextFault.Read)) }
{
    match reader.fill_buf() {
        Ok(bytes) => Ok(!bytes.is_empty() && bytes[0] != 0xEF),
        Err(error) => {
            if error.kind() == ErrorKind::Interrupted {
                Ok(false)
            } else {
                Err(failed(&error))
            }
        }
    }
}

// Posts what the plain lines have that are read ahead, and reads ahead where nothing is.
fn take_lines<R: Read>(
    alloc: Global,
    reader: &mut BufReader<R>,
    names: &[&str],
    places: &HashMap<&str, usize>,
    posted: &mut Vec<Posted>,
    seen: &mut Seen,
) -> Result<(), TextRefusal>
    requires differ { AllDiffer (texts_of names.now) }
    requires places { FindsInputs places.now (texts_of names.now) }
    requires endings { posted_endings posted.old.items ≡ replicate (length names.now) Ending.Complete }
    ensures goes_on { OnOk result (GoesFrom (texts_of names.now) seen.old.number (posted_values posted.old.items)
        seen.new.number (posted_values posted.new.items) (reader_remaining R.remaining reader.old)
        (reader_remaining R.remaining reader.new)) }
    ensures endings { OnOk result (posted_endings posted.new.items ≡ posted_endings posted.old.items) }
    ensures room { OnOk result (room (posted_values posted.new.items) ≤ room (posted_values posted.old.items)) }
    ensures of_records { IfErr result IsOfRecords }
    ensures refused { IfErr result (λ refusal. StopsFrom (texts_of names.now) seen.old.number
        (posted_values posted.old.items) (reader_remaining R.remaining reader.old) refusal) }
{
    let used = match reader.fill_buf() {
        Ok(bytes) => post_lines(alloc, names, places, bytes, posted, seen)?,
        Err(error) => {
            return if error.kind() == ErrorKind::Interrupted {
                Ok(())
            } else {
                Err(failed(&error))
            };
        }
    };
    reader.consume(used);
    Ok(())
}

// Reads the bytes through the next line feed, and puts them behind one line feed more, which a reader of CSV passes over.
fn read_line<R: Read>(reader: &mut BufReader<R>, line: &mut Vec<u8>) -> Result<(), TextRefusal>
    ensures read { OnOk result (ReadsLine (reader_remaining R.remaining reader.old)
        (reader_remaining R.remaining reader.new) line.new.items) }
    ensures refused { IfErr result (λ refusal. (refusal ≡ TextRefusal.Memory)
        ⊎ (refusal ≡ TextRefusal.Fault TextFault.Read)) }
{
    line.clear();
    if line.push(b'\n').is_err() {
        return Err(TextRefusal::Memory);
    }
    match reader.read_until(b'\n', line) {
        Ok(_) => Ok(()),
        Err(error) => Err(failed(&error)),
    }
}

// Posts what the plain lines have, up to one that is none. Answers that line behind a line feed, or a line feed alone where the text
// ends.
pub(crate) fn read_lines<R: Read>(
    alloc: Global,
    reader: &mut BufReader<R>,
    names: &[&str],
    places: &HashMap<&str, usize>,
    posted: &mut Vec<Posted>,
    seen: &mut Seen,
) -> Result<Vec<u8>, TextRefusal>
    requires differ { AllDiffer (texts_of names.now) }
    requires places { FindsInputs places.now (texts_of names.now) }
    requires endings { posted_endings posted.old.items ≡ replicate (length names.now) Ending.Complete }
    ensures left { IfOk result (λ line. LeavesLine (texts_of names.now) seen.old.number
        (posted_values posted.old.items) seen.new.number (posted_values posted.new.items)
        (reader_remaining R.remaining reader.old) (reader_remaining R.remaining reader.new) line.items) }
    ensures endings { OnOk result (posted_endings posted.new.items ≡ posted_endings posted.old.items) }
    ensures of_records { IfErr result IsOfRecords }
    ensures refused { IfErr result (λ refusal. StopsFrom (texts_of names.now) seen.old.number
        (posted_values posted.old.items) (reader_remaining R.remaining reader.old) refusal) }
{
    let mut line = Vec::new(alloc);
    'reading: loop {
        take_lines(alloc, reader, names, places, posted, seen)?;
        read_line(reader, &mut line)?;
        let is_whole = post_line(alloc, names, places, &line[1..], posted, seen)?;
        if !is_whole {
            return Ok(line);
        }
    }
}
