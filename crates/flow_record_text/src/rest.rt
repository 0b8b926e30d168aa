//! What is left of a text: some bytes that were read before, and then those of a reader.
ghost use Rattle.std.specs.Prelude.{◌≡◌};
ghost use Rattle.flow_record_text.specs.Rest.{rest_remaining};

use std::io;
use std::io::Read;

/// The bytes from a place on, and then those of the reader.
#[derive(Drop)]
pub(crate) struct Rest<R> {
    pub(crate) front: Vec<u8>,
    pub(crate) at: usize,
    pub(crate) reader: R,
}

impl<R: Read> Read for Rest<R> {
    ghost remaining = { rest_remaining R.remaining };

    fn read(&mut self, buf: &mut [u8]) -> io::Result<usize> {
        if self.at >= self.front.len() {
            return self.reader.read(buf);
        }
        let mut front = &self.front[self.at..];
        let count = front.read(buf)?;
        self.at += count;
        Ok(count)
    }
}
