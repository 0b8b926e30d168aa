//! Records of a key, an input and a value, read and numbered.
use crate::deal::part_of_key;
use crate::entry::Entry;
use crate::fault::PieceFault;
use crate::records::{Records, fault_of};
use csv::{Writer, WriterBuilder};
use std::alloc::{AllocError, Global};
use std::collections::HashMap;

/// Records of a key, an input and a value, by their numbers, and what each is without its key.
#[derive(Drop)]
pub struct Keyed {
    /// The records, in order.
    pub entries: Vec<Entry>,
    /// How many keys each part has.
    pub keys: Vec<usize>,
    /// The first record of each input.
    pub inputs: Vec<usize>,
    /// The input and the value of each record, one after another, and where each ends.
    lines: Vec<u8>,
    ends: Vec<usize>,
}

impl Keyed {
    /// The records of this text, whose keys go to so many parts.
    ///
    /// A record that hasn't three fields is refused.
    pub fn read(alloc: Global, records: &[u8], parts: usize) -> Result<Keyed, PieceFault> {
        let mut reading = Reading::new(alloc, parts)?;
        let mut walk = Records::new(alloc, records);
        'records: for _ in 0..u64::MAX {
            if !walk.advance()? {
                break;
            }
            reading.add(alloc, &walk)?;
        }
        reading.finish()
    }

    /// These records without their keys.
    pub fn text_of(&self, alloc: Global, entries: &[Entry]) -> Result<Vec<u8>, AllocError> {
        let mut text = Vec::new(alloc);
        for entry in entries {
            text.extend_from_slice(self.line(entry.record))?;
        }
        Ok(text)
    }

    /// A record without its key.
    fn line(&self, record: usize) -> &[u8] {
        let start = match record.checked_sub(1) {
            Some(before) => self.ends.get(before).copied().unwrap_or(0),
            None => 0,
        };
        let end = self.ends.get(record).copied().unwrap_or(start);
        self.lines.get(start..end).unwrap_or(&[])
    }
}

/// Records that are being read, and the numbers of the keys and inputs so far.
#[derive(Drop)]
struct Reading {
    keyed: Keyed,
    known_keys: HashMap<Vec<u8>, usize>,
    known_inputs: HashMap<Vec<u8>, usize>,
    writer: Writer<Vec<u8>>,
}

impl Reading {
    fn new(alloc: Global, parts: usize) -> Result<Reading, AllocError> {
        let keyed = Keyed {
            entries: Vec::new(alloc),
            keys: vec![in alloc; 0usize; parts]?,
            inputs: Vec::new(alloc),
            lines: Vec::new(alloc),
            ends: Vec::new(alloc),
        };
        Ok(Reading {
            keyed,
            known_keys: HashMap::new(alloc),
            known_inputs: HashMap::new(alloc),
            writer: WriterBuilder::new().from_writer(Vec::new(alloc)),
        })
    }

    /// Adds the record that the walk has come to.
    fn add(&mut self, alloc: Global, walk: &Records<'_>) -> Result<(), PieceFault> {
        let row = walk.row();
        let (3, Some(key), Some(input), Some(value)) = (
            row.len(),
            row.get(0),
            row.get(1),
            row.get(2),
        ) else {
            return Err(PieceFault::Fields(walk.number()));
        };
        let part = part_of_key(key, self.keyed.keys.len());
        let key = self.key_number(alloc, part, key)?;
        let record = self.keyed.entries.len();
        let name = input;
        let input = self.input_number(alloc, name, record)?;
        self.keyed.entries.push(Entry {
            part,
            key,
            input,
            record,
        })?;
        self.write_line(name, value)
    }

    /// The number of a key of this part.
    fn key_number(&mut self, alloc: Global, part: usize, key: &[u8]) -> Result<usize, AllocError> {
        let next = self.keyed.keys.get(part).copied().unwrap_or(0);
        let number = number_of(alloc, &mut self.known_keys, key, next)?;
        if number == next {
            if let Some(count) = self.keyed.keys.get_mut(part) {
                *count = next.saturating_add(1);
            }
        }
        Ok(number)
    }

    /// The number of the input of this record.
    fn input_number(
        &mut self,
        alloc: Global,
        name: &[u8],
        record: usize,
    ) -> Result<usize, AllocError> {
        let next = self.keyed.inputs.len();
        let number = number_of(alloc, &mut self.known_inputs, name, next)?;
        if number == next {
            self.keyed.inputs.push(record)?;
        }
        Ok(number)
    }

    /// Writes an input and a value behind those before.
    fn write_line(&mut self, input: &[u8], value: &[u8]) -> Result<(), PieceFault> {
        let written = match self.writer.write_fields(&[input, value]) {
            Ok(()) => self.writer.flush(),
            Err(error) => Err(error),
        };
        if let Err(error) = written {
            return Err(fault_of(&error));
        }
        self.keyed.ends.push(self.writer.get_ref().len())?;
        Ok(())
    }

    fn finish(self) -> Result<Keyed, PieceFault> {
        let Reading {
            mut keyed,
            writer,
            ..
        } = self;
        match writer.into_inner() {
            Ok(lines) => {
                keyed.lines = lines;
                Ok(keyed)
            }
            Err(_) => Err(PieceFault::Memory),
        }
    }
}

/// The number of a name: that which it was given, or the next one, which is its number from now on.
fn number_of(
    alloc: Global,
    known: &mut HashMap<Vec<u8>, usize>,
    name: &[u8],
    next: usize,
) -> Result<usize, AllocError> {
    if let Some(number) = known.get(name) {
        return Ok(*number);
    }
    known.insert(Vec::from_slice(alloc, name)?, next)?;
    Ok(next)
}
