//! A writer of a text that may begin with a byte order mark.
use crate::one_row::BYTE_ORDER_MARK;
use std::io;
use std::io::Write;

/// A writer of a text of which a reader takes a byte order mark off. Where the text begins with one, it gets one more in front,
/// so that it is read as it is.
#[derive(Drop)]
pub(crate) struct Marked<W> {
    writer: W,
    has_begun: bool,
}

impl<W: Write> Marked<W> {
    /// A writer before its first byte.
    pub(crate) fn new(writer: W) -> Marked<W> {
        Marked {
            writer,
            has_begun: false,
        }
    }
}

impl<W: Write> Write for Marked<W> {
    fn write(&mut self, bytes: &[u8]) -> io::Result<usize> {
        if !self.has_begun && bytes.starts_with(&BYTE_ORDER_MARK) {
            self.writer.write_all(&BYTE_ORDER_MARK)?;
        }
        self.has_begun = true;
        self.writer.write(bytes)
    }

    fn flush(&mut self) -> io::Result<()> {
        self.writer.flush()
    }
}
