//! Writes bytes so that what the writer held stays in front, also where it fails.
ghost use Rattle.std.specs.Prelude.{OnOk};
ghost use Rattle.std.specs.Io.KnownBytes.{Appends};
ghost use Rattle.flow_report.specs.Written.{StaysInFront};

use std::io;
use std::io::{Error, ErrorKind, Write};

/// Writes all of the bytes, again where a write was interrupted.
///
/// A writer may do anything in `write_all`. Here it is asked for one `write` after another, each of which adds to what
/// it holds. Most writers take all of the bytes at once.
#[inline]
pub fn write_bytes<W: Write>(writer: &mut W, bytes: &[u8]) -> io::Result<()>
    ensures written { OnOk result (Appends (W.contents writer.old) (W.contents writer.new) bytes.now) }
    ensures kept { StaysInFront (W.contents writer.old) (W.contents writer.new) }
{
    match writer.write(bytes) {
        Ok(count) => {
            if count == bytes.len() {
                return Ok(());
            }
            write_rest(writer, &bytes[count..])
        }
        Err(error) => {
            if error.kind() != ErrorKind::Interrupted {
                return Err(error);
            }
            write_rest(writer, bytes)
        }
    }
}

// Writes what the first write left.
#[cold]
fn write_rest<W: Write>(writer: &mut W, bytes: &[u8]) -> io::Result<()>
    ensures written { OnOk result (Appends (W.contents writer.old) (W.contents writer.new) bytes.now) }
    ensures kept { StaysInFront (W.contents writer.old) (W.contents writer.new) }
{
    let mut rest = bytes;
    'writes: for _ in 0..u64::MAX {
        if rest.is_empty() {
            return Ok(());
        }
        match writer.write(rest) {
            Ok(0) => return Err(Error::from(ErrorKind::WriteZero)),
            Ok(count) => rest = &rest[count..],
            Err(error) => {
                if error.kind() != ErrorKind::Interrupted {
                    return Err(error);
                }
            }
        }
    }
    Err(Error::from(ErrorKind::Interrupted))
}
