//! Print on its way to a writer: it is gathered on a page, so that many items go there at once.
ghost use Rattle.std.specs.Prelude.{◌≡◌, ◌∷◌, [], OnOk};
ghost use Rattle.std.specs.Io.KnownBytes.{Appends, append_known};
ghost use Rattle.flow_report.specs.Written.{StaysInFront};

use crate::piece::write_bytes;
use arrayvec::ArrayVec;
use std::io::{Error, ErrorKind, Write};

/// How many bytes a page has room for.
const PAGE: usize = 1024;

/// Bytes that a writer will get next.
pub(crate) type Page = ArrayVec<u8, PAGE>;

/// What was gathered could not be written. It is told for each item, so it is small, and does not say why.
#[derive(Clone, Copy)]
pub(crate) struct Unwritten;

impl From<Error> for Unwritten {
    ghost use Rattle.std.specs.Prelude.{⊤};

    ghost from_gives = { λ _ _. ⊤ };

    fn from(_error: Error) -> Unwritten {
        Unwritten
    }
}

impl From<Unwritten> for Error {
    ghost use Rattle.std.specs.Prelude.{⊤};

    ghost from_gives = { λ _ _. ⊤ };

    fn from(_unwritten: Unwritten) -> Error {
        Error::from(ErrorKind::Other)
    }
}

/// Writes what is on the page, which is empty then.
pub(crate) fn write_page<W: Write>(writer: &mut W, page: &mut Page) -> Result<(), Unwritten>
    ensures written { OnOk result (Appends (W.contents writer.old) (W.contents writer.new) page.old.items) }
    ensures empty { OnOk result (page.new.items ≡ []) }
    ensures kept { StaysInFront (W.contents writer.old) (W.contents writer.new) }
{
    write_bytes(writer, page.as_slice())?;
    page.clear();
    Ok(())
}

/// Puts bytes behind those on the page; where it has no room for them, all are written.
pub(crate) fn gather_bytes<W: Write>(
    writer: &mut W,
    page: &mut Page,
    bytes: &[u8],
) -> Result<(), Unwritten>
    ensures written { OnOk result (Appends (append_known (W.contents writer.old) page.old.items)
        (append_known (W.contents writer.new) page.new.items) bytes.now) }
    ensures kept { StaysInFront (W.contents writer.old) (W.contents writer.new) }
{
    if page.try_extend_from_slice(bytes).is_ok() {
        return Ok(());
    }
    write_page(writer, page)?;
    write_bytes(writer, bytes)?;
    Ok(())
}

/// Puts one byte behind those on the page.
#[inline(always)]
pub(crate) fn gather_byte<W: Write>(
    writer: &mut W,
    page: &mut Page,
    byte: u8,
) -> Result<(), Unwritten>
    ensures written { OnOk result (Appends (append_known (W.contents writer.old) page.old.items)
        (append_known (W.contents writer.new) page.new.items) (byte ∷ [])) }
    ensures kept { StaysInFront (W.contents writer.old) (W.contents writer.new) }
{
    if page.is_full() {
        return gather_bytes(writer, page, &[byte]);
    }
    page.push(byte);
    Ok(())
}
