//! A reader that gives a row at a time, and keeps it as it stands.
ghost use Rattle.std.specs.Prelude.{◌≡◌, ◌≤◌, ◌<◌, false, length, min, take};
ghost use Rattle.std.specs.Io.{ReadsAtMost};
ghost use Rattle.csv.specs.Machine.{ends_at_end};
ghost use Rattle.flow_feed.specs.Stands.{state_of};

use crate::place::line_ends;
use crate::stand::{Stand, after, is_line_end};
use std::alloc::Global;
use std::io;
use std::io::{BufRead, BufReader, ErrorKind, Read};

/// U+FEFF in UTF-8, which is no part of a text that begins with it.
pub(crate) const BYTE_ORDER_MARK: [u8; 3] = [0xef, 0xbb, 0xbf];

/// A reader of which one read gives bytes of one row, or line ends between rows. It keeps the row that it gave last.
#[derive(Drop)]
pub(crate) struct OneRow<R> {
    reader: BufReader<R>,
    stand: Stand,
    /// How many bytes of a byte order mark the text has begun with; all of them where it is known to be none.
    mark: usize,
    /// The row, as far as it was given, with its line end.
    row: Vec<u8>,
    /// The line that the row begins on.
    row_line: u64,
    /// The line that the next byte stands on, and the byte in front of it.
    line: u64,
    last: u8,
}

impl<R: Read + Drop> OneRow<R> {
    /// A reader before the first byte of the text.
    pub(crate) fn new(alloc: Global, reader: R) -> io::Result<OneRow<R>> {
        Ok(OneRow {
            reader: BufReader::new(alloc, reader)?,
            stand: Stand::StartRecord,
            mark: 0,
            row: Vec::new(alloc),
            row_line: 1,
            line: 1,
            last: 0,
        })
    }

    /// The row, as far as it was given, with its line end.
    pub(crate) fn row(&self) -> &[u8]
        ensures { result.now ≡ self.now.row.items }
    {
        &self.row
    }

    /// The line that the row begins on, from 1.
    pub(crate) fn line(&self) -> u64 {
        self.row_line
    }

    /// Whether the text has ended in quotes.
    pub(crate) fn is_unclosed(&self) -> bool {
        self.stand == Stand::InQuoted
    }

    /// Sees to it that bytes are held, unless the text has ended.
    fn fill(&mut self) -> io::Result<()> {
        for _ in 0..u64::MAX {
            match self.reader.fill_buf() {
                Ok(_) => return Ok(()),
                Err(error) => {
                    if error.kind() != ErrorKind::Interrupted {
                        return Err(error);
                    }
                }
            }
        }
        Err(io::Error::from(ErrorKind::TimedOut))
    }

    /// Gives a byte of the mark that the text begins with, if it is one.
    fn give_mark(&mut self, buf: &mut [u8]) -> io::Result<usize>
        ensures { ReadsAtMost result buf.new }
    {
        let due = BYTE_ORDER_MARK.get(self.mark).copied();
        let byte = self.reader.buffer().first().copied();
        if due.is_none() || byte != due || buf.is_empty() {
            self.mark = BYTE_ORDER_MARK.len();
            return Ok(0);
        }
        self.mark = self.mark.saturating_add(1);
        self.stand = Stand::InField;
        let count = self.give_to_row(buf, 1)?;
        if self.mark == BYTE_ORDER_MARK.len() {
            self.stand = Stand::StartRecord;
            self.row.clear();
        }
        Ok(count)
    }

    /// Gives line ends between rows, if there are any here.
    fn give_between(&mut self, buf: &mut [u8]) -> usize
        ensures { result ≤ length buf.new }
    {
        let count = ends_in_front(front(self.reader.buffer(), buf.len()));
        if count > 0 {
            self.stand = Stand::StartRecord;
        }
        self.give(buf, count)
    }

    /// Gives bytes of a row up to its end.
    fn give_row(&mut self, buf: &mut [u8]) -> io::Result<usize>
        ensures { ReadsAtMost result buf.new }
    {
        if self.stand.is_between() && !self.reader.buffer().is_empty() {
            self.row.clear();
            self.row_line = self.line;
        }
        let (count, stand) = part_of_row(self.stand, front(self.reader.buffer(), buf.len()));
        self.stand = stand;
        let count = self.give_to_row(buf, count)?;
        if stand == Stand::AfterCr {
            self.add_line_feed()?;
        }
        Ok(count)
    }

    /// Gives so many bytes, and keeps them.
    fn give_to_row(&mut self, buf: &mut [u8], count: usize) -> io::Result<usize>
        ensures { ReadsAtMost result buf.new }
    {
        self.row
            .extend_from_slice(front(self.reader.buffer(), count))?;
        Ok(self.give(buf, count))
    }

    /// Adds the line feed that follows a carriage return to the row. It is given with what is between rows.
    fn add_line_feed(&mut self) -> io::Result<()> {
        self.fill()?;
        if self.reader.buffer().starts_with(b"\n") {
            self.row.push(b'\n')?;
        }
        Ok(())
    }

    /// Gives so many bytes, as far as there is room for them.
    fn give(&mut self, buf: &mut [u8], count: usize) -> usize
        ensures { result ≤ length buf.new }
    {
        let bytes = front(front(self.reader.buffer(), count), buf.len());
        let count = bytes.len();
        buf[..count].copy_from_slice(bytes);
        self.line = self.line.saturating_add(line_ends(bytes, self.last));
        self.last = bytes.last().copied().unwrap_or(self.last);
        self.reader.consume(count);
        count
    }
}

impl<R: Read + Drop> Read for OneRow<R> {
    fn read(&mut self, buf: &mut [u8]) -> io::Result<usize> {
        self.fill()?;
        if self.mark < BYTE_ORDER_MARK.len() {
            let count = self.give_mark(buf)?;
            if count > 0 {
                return Ok(count);
            }
        }
        if self.stand.is_between() {
            let count = self.give_between(buf);
            if count > 0 {
                return Ok(count);
            }
        }
        self.give_row(buf)
    }
}

/// The first bytes, so many at most.
fn front(bytes: &[u8], count: usize) -> &[u8]
    ensures { result.now ≡ take (min count (length bytes.now)) bytes.now }
{
    &bytes[..count.min(bytes.len())]
}

/// How many line ends these bytes begin with.
fn ends_in_front(bytes: &[u8]) -> usize
    ensures { result ≤ length bytes.now }
{
    for (count, byte) in bytes.iter().enumerate() {
        if !is_line_end(*byte) {
            return count;
        }
    }
    bytes.len()
}

/// How many of these bytes are of the row in which a reader stands here, and where it stands behind them.
fn part_of_row(stand: Stand, bytes: &[u8]) -> (usize, Stand)
    ensures within { result.0 ≤ length bytes.now }
    ensures ended { result.0 < length bytes.now → ends_at_end (state_of result.1) ≡ false }
{
    let mut stand = stand;
    for (offset, byte) in bytes.iter().enumerate() {
        stand = after(stand, *byte);
        if stand.is_between() {
            return (offset + 1, stand);
        }
    }
    (bytes.len(), stand)
}
