//! A reader of which a read is tried again where a signal interrupted it.
ghost use Rattle.std.specs.Prelude.{◌≡◌, ◌≢◌, true, false, OnOk, IfErr};
ghost use Rattle.std.specs.Io.{ReadsAtMost};
ghost use Rattle.std.specs.IoError.{error_kind};

use std::io;
use std::io::{ErrorKind, Read};

/// A reader whose reads no signal ends. It knows whether memory was out, where the one in front of it tells each failure alike.
#[derive(Drop)]
pub struct Steady<R> {
    pub reader: R,
    /// Whether the last read that failed did so for want of memory.
    pub lacks_memory: bool,
}

impl<R: Read> Steady<R> {
    /// One read, and a note of why it failed.
    fn read_and_note(&mut self, buf: &mut [u8]) -> io::Result<usize>
        ensures bound { ReadsAtMost result buf.new }
        ensures retried { IfErr result (λ error. error_kind error ≢ ErrorKind.Interrupted) }
        ensures kept { OnOk result (self.new.lacks_memory ≡ self.old.lacks_memory) }
        ensures memory { IfErr result (λ error. error_kind error ≡ ErrorKind.OutOfMemory → self.new.lacks_memory ≡ true) }
        ensures other { IfErr result (λ error. error_kind error ≢ ErrorKind.OutOfMemory → self.new.lacks_memory ≡ false) }
    {
        match read_retrying(&mut self.reader, buf) {
            Ok(count) => Ok(count),
            Err(error) => {
                self.lacks_memory = error.kind() == ErrorKind::OutOfMemory;
                Err(error)
            }
        }
    }
}

impl<R: Read> Read for Steady<R> {
    fn read(&mut self, buf: &mut [u8]) -> io::Result<usize> {
        self.read_and_note(buf)
    }
}

/// One read, tried again for as long as signals interrupt it.
fn read_retrying<R: Read>(reader: &mut R, buf: &mut [u8]) -> io::Result<usize>
    ensures bound { ReadsAtMost result buf.new }
    ensures retried { IfErr result (λ error. error_kind error ≢ ErrorKind.Interrupted) }
{
    for _ in 0..u64::MAX {
        match reader.read(buf) {
            Ok(count) => return Ok(count),
            Err(error) => {
                if error.kind() != ErrorKind::Interrupted {
                    return Err(error);
                }
            }
        }
    }
    Err(io::Error::from(ErrorKind::TimedOut))
}
