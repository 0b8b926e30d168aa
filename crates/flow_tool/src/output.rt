//! Standard output, which a command writes through a buffer.
use crate::stop::Stop;
use std::io;
use std::io::{BufWriter, ErrorKind, Printer, Write};

/// A stream to which nothing goes any more once a write failed: a buffer that is let go would write once more what it holds.
#[derive(Drop)]
pub struct UntilFailed<W> {
    writer: W,
    has_failed: bool,
}

impl<W: Write> Write for UntilFailed<W> {
    fn write(&mut self, bytes: &[u8]) -> io::Result<usize> {
        if self.has_failed {
            return Err(io::Error::from(ErrorKind::BrokenPipe));
        }
        let written = self.writer.write(bytes);
        // A write that was interrupted is made again.
        if let Err(error) = &written {
            self.has_failed = error.kind() != ErrorKind::Interrupted;
        }
        written
    }

    fn flush(&mut self) -> io::Result<()> {
        self.writer.flush()
    }
}

/// Prints a line.
pub fn print_line<R: Print>(rt: &R, line: &str) -> Result<(), Stop> {
    match rt.println(line) {
        Ok(()) => Ok(()),
        Err(error) => Err(Stop::unprinted(&error)),
    }
}

/// A buffer in front of standard output.
pub fn output<R: Print + AllocGlobal>(
    rt: &R,
) -> Result<BufWriter<UntilFailed<Printer<'_, R>>>, Stop> {
    let output = UntilFailed {
        writer: io::writer(rt),
        has_failed: false,
    };
    Ok(BufWriter::new(rt.alloc(), output)?)
}

/// Sends what the buffer holds, and answers the status.
pub fn finish<W: Write + Drop>(buffer: BufWriter<W>, status: u8) -> Result<u8, Stop> {
    match buffer.into_inner() {
        Ok(_) => Ok(status),
        Err(_) => Err(Stop::no_output()),
    }
}
