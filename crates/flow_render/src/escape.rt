//! Texts as HTML and SVG show them.
use flow_spans::turns;
use std::io;
use std::io::Write;

/// What stands for the rest of a text that is cut.
const LEFT_OUT: &str = "...";

/// What stands for bytes that are no UTF-8.
const REPLACEMENT: &str = "\u{fffd}";

/// Writes a text: what is markup in HTML as references, a control character as a space, and one that turns the direction of
/// others as its escape. Line feeds stay.
pub(crate) fn write_escaped<W: Write>(writer: &mut W, text: &str) -> io::Result<()> {
    for character in text.chars() {
        write_character(writer, character)?;
    }
    Ok(())
}

fn write_character<W: Write>(writer: &mut W, character: char) -> io::Result<()> {
    match character {
        '&' => writer.write_all(b"&amp;"),
        '<' => writer.write_all(b"&lt;"),
        '>' => writer.write_all(b"&gt;"),
        '"' => writer.write_all(b"&quot;"),
        '\'' => writer.write_all(b"&#39;"),
        '\n' => writer.write_all(b"\n"),
        _ if turns(character) => {
            let escape = character.escape_unicode();
            write!(writer, "{escape}")
        }
        _ if character.is_control() => writer.write_all(b" "),
        _ => write!(writer, "{character}"),
    }
}

/// Writes so many characters of a text, or where it has more its first ones and dots.
pub(crate) fn write_head<W: Write>(writer: &mut W, text: &str, most: usize) -> io::Result<()> {
    if text.chars().count() <= most {
        return write_escaped(writer, text);
    }
    for character in text.chars().take(most.saturating_sub(LEFT_OUT.len())) {
        write_character(writer, character)?;
    }
    writer.write_all(LEFT_OUT.as_bytes())
}

/// Writes a text that a report has.
pub(crate) fn write_bytes<W: Write>(writer: &mut W, bytes: &[u8]) -> io::Result<()> {
    write_escaped(writer, str::from_utf8(bytes).unwrap_or(REPLACEMENT))
}

/// A writer of texts, which come out as HTML shows them.
#[derive(Drop)]
pub(crate) struct Escaping<W> {
    writer: W,
}

impl<W> Escaping<W> {
    pub(crate) fn new(writer: W) -> Escaping<W> {
        Escaping { writer }
    }
}

impl<W: Write> Write for Escaping<W> {
    fn write(&mut self, bytes: &[u8]) -> io::Result<usize> {
        write_bytes(&mut self.writer, bytes)?;
        Ok(bytes.len())
    }

    fn flush(&mut self) -> io::Result<()> {
        self.writer.flush()
    }
}
