//! The texts of records, so many records at a time, cut out of a reader by the rules that a run reads records by.
ghost use Rattle.std.specs.Prelude.{◌≡◌, ◌≤◌, length, min, take};

use crate::fault::{ChunkFault, unread};
use flow_feed::{Stand, after};
use flow_text::TextFault;
use std::alloc::Global;
use std::io::{BufRead, BufReader, ErrorKind, Read};

/// U+FEFF in UTF-8, which is no part of a text that begins with it.
const BYTE_ORDER_MARK: [u8; 3] = [0xef, 0xbb, 0xbf];

/// The records of a reader. The text of some of them is held at a time.
#[derive(Drop)]
pub(crate) struct Texts<R> {
    reader: BufReader<R>,
    /// Where a reader of CSV stands behind what was taken of the reader.
    stand: Stand,
    /// Whether anything was asked for: before that the reader may begin with a byte order mark.
    has_begun: bool,
    /// How many records were taken.
    number: u64,
    /// The text of those that were taken last.
    text: Vec<u8>,
}

impl<R: Read + Drop> Texts<R> {
    /// The records of this reader, before its first.
    pub fn new(alloc: Global, reader: BufReader<R>) -> Texts<R> {
        Texts {
            reader,
            stand: Stand::StartRecord,
            has_begun: false,
            number: 0,
            text: Vec::new(alloc),
        }
    }

    /// How many records were taken.
    pub fn number(&self) -> u64 {
        self.number
    }

    /// The text of those that were taken last.
    ///
    /// Where a byte order mark may begin it, it has a line end in front, so that the mark is part of a record, as it is in the whole. But
    /// that of the first of all has none.
    pub fn text(&self) -> &[u8]
        ensures { result.now ≡ self.now.text.items }
    {
        &self.text
    }

    /// Goes past the next records, so many where there are as many.
    pub fn skip(&mut self, count: u64) -> Result<(), ChunkFault> {
        for _ in 0..count {
            if self.advance(1)? == 0 {
                break;
            }
        }
        Ok(())
    }

    /// Takes the next records, so many where there are as many, and tells how many these are.
    pub fn advance(&mut self, most: u64) -> Result<u64, ChunkFault> {
        self.begin()?;
        let mut taken = 0u64;
        'filling: for _ in 0..u64::MAX {
            if taken >= most {
                break;
            }
            self.fill()?;
            if self.reader.buffer().is_empty() {
                taken = taken.saturating_add(self.end_record());
                break;
            }
            taken = taken.saturating_add(self.take_held(most - taken)?);
        }
        Ok(taken)
    }

    /// Begins the next text. Without need it gets no line end in front: a run reads the plain lines that a text begins with sooner.
    fn begin(&mut self) -> Result<(), ChunkFault> {
        self.text.clear();
        if !self.has_begun {
            self.has_begun = true;
            return self.take_mark();
        }
        self.fill()?;
        if self.reader.buffer().first().copied() == Some(BYTE_ORDER_MARK[0]) {
            self.text.push(b'\n')?;
        }
        Ok(())
    }

    /// Takes the byte order mark that the reader begins with, or what there is of one.
    fn take_mark(&mut self) -> Result<(), ChunkFault> {
        for due in BYTE_ORDER_MARK {
            self.fill()?;
            if self.reader.buffer().first().copied() != Some(due) {
                return Ok(());
            }
            self.text.push(due)?;
            self.reader.consume(1);
            self.stand = Stand::InField;
        }
        self.stand = Stand::StartRecord;
        Ok(())
    }

    /// Sees to it that bytes are held, unless the reader has ended.
    fn fill(&mut self) -> Result<(), ChunkFault> {
        for _ in 0..u64::MAX {
            match self.reader.fill_buf() {
                Ok(_) => return Ok(()),
                Err(error) => {
                    if error.kind() != ErrorKind::Interrupted {
                        return Err(unread(&error));
                    }
                }
            }
        }
        Err(ChunkFault::Text(TextFault::Read))
    }

    /// Takes what is held of the next records, so many at most, and tells how many of them end there.
    fn take_held(&mut self, most: u64) -> Result<u64, ChunkFault> {
        let part = part_of(self.stand, self.reader.buffer(), most);
        self.text
            .extend_from_slice(front(self.reader.buffer(), part.length))?;
        self.reader.consume(part.length);
        self.stand = part.stand;
        self.number = self.number.saturating_add(part.ended);
        Ok(part.ended)
    }

    /// Ends the record that has begun, where there is one, and tells how many these are.
    fn end_record(&mut self) -> u64 {
        if self.stand.is_between() {
            return 0;
        }
        self.stand = Stand::StartRecord;
        self.number = self.number.saturating_add(1);
        1
    }
}

/// A part of bytes at their front: its length, how many records end in it, and where a reader of CSV stands behind it.
#[derive(Clone, Copy)]
struct Part {
    length: usize,
    ended: u64,
    stand: Stand,
}

/// What of these bytes is of the next records, so many at most, where a reader stands so in front of them.
fn part_of(stand: Stand, bytes: &[u8], most: u64) -> Part
    ensures { result.length ≤ length bytes.now }
{
    let mut behind = stand;
    let mut ended = 0u64;
    for (offset, byte) in bytes.iter().enumerate() {
        let before = behind;
        behind = behind_byte(before, *byte);
        if behind.is_between() && !before.is_between() {
            ended = ended.saturating_add(1);
            if ended >= most {
                return Part {
                    length: offset + 1,
                    ended,
                    stand: behind,
                };
            }
        }
    }
    Part {
        length: bytes.len(),
        ended,
        stand: behind,
    }
}

/// Where a reader that stands so stands behind one more byte. Most bytes are of a field without quotes, and are told by one look.
#[inline(always)]
fn behind_byte(stand: Stand, byte: u8) -> Stand {
    if stand == Stand::InField && byte > b',' {
        stand
    } else {
        after(stand, byte)
    }
}

/// The first bytes, so many at most.
fn front(bytes: &[u8], count: usize) -> &[u8]
    ensures { result.now ≡ take (min count (length bytes.now)) bytes.now }
{
    &bytes[..count.min(bytes.len())]
}
