//! Prints values: numbers in decimal, texts between double quotes, rows and lists between brackets.
ghost use Rattle.std.specs.Prelude.{◌≡◌, ◌<◌, ◌↔◌, true, false, [], ◌∷◌, ◌++◌, IsTrue, OnOk};
ghost use Rattle.std.specs.Fmt.{signed_decimal};
ghost use Rattle.std.specs.Io.KnownBytes.{Appends, append_known};
ghost use Rattle.flow_value.specs.Seen.{value_of_ref};
ghost use Rattle.flow_report.specs.Written.{StaysInFront};
ghost use Rattle.flow_report.specs.Printed.{hex_digit, escaped, escapes, quoted, value_text, list_text, comma_unless};

use crate::page::{Page, Unwritten, gather_byte, gather_bytes};
use flow_value::{Seen, Value, ValueRef, is_plain_byte};
use itoa::Buffer;
use std::io::Write;

// Whether the byte stands for itself in a printed text.
#[inline]
fn is_plain(byte: u8) -> bool
    ensures { IsTrue result ↔ (escaped byte ≡ byte ∷ []) }
{
    is_plain_byte(byte)
}

fn hex_digit_of(number: u8) -> u8
    requires { number < 16 }
    ensures { result ≡ hex_digit number }
{
    if number < 10 {
        b'0' + number
    } else {
        b'a' - 10 + number
    }
}

fn gather_escaped<W: Write>(writer: &mut W, page: &mut Page, byte: u8) -> Result<(), Unwritten>
    ensures written { OnOk result (Appends (append_known (W.contents writer.old) page.old.items)
        (append_known (W.contents writer.new) page.new.items) (escaped byte)) }
    ensures kept { StaysInFront (W.contents writer.old) (W.contents writer.new) }
{
    match byte {
        b'"' | b'\\' => gather_bytes(writer, page, &[b'\\', byte]),
        0..=31 | 127 => {
            gather_bytes(
                writer,
                page,
                &[
                    b'\\',
                    b'x',
                    hex_digit_of(byte / 16),
                    hex_digit_of(byte % 16),
                ],
            )
        }
        _ => gather_byte(writer, page, byte),
    }
}

fn gather_escapes<W: Write>(writer: &mut W, page: &mut Page, text: &[u8]) -> Result<(), Unwritten>
    ensures written { OnOk result (Appends (append_known (W.contents writer.old) page.old.items)
        (append_known (W.contents writer.new) page.new.items) (escapes text.now)) }
    ensures kept { StaysInFront (W.contents writer.old) (W.contents writer.new) }
{
    // what stands before this place is gathered
    let mut start = 0;
    for (at, byte) in text.iter().enumerate() {
        if !is_plain(*byte) {
            gather_bytes(writer, page, &text[start..at])?;
            gather_escaped(writer, page, *byte)?;
            start = at + 1;
        }
    }
    gather_bytes(writer, page, &text[start..])
}

// Gathers a text between double quotes.
fn gather_quoted<W: Write>(writer: &mut W, page: &mut Page, text: &str) -> Result<(), Unwritten>
    ensures written { OnOk result (Appends (append_known (W.contents writer.old) page.old.items)
        (append_known (W.contents writer.new) page.new.items) (quoted text.now)) }
    ensures kept { StaysInFront (W.contents writer.old) (W.contents writer.new) }
{
    gather_byte(writer, page, b'"')?;
    gather_escapes(writer, page, text.as_bytes())?;
    gather_byte(writer, page, b'"')
}

// Gathers the comma before an item that is not the first.
#[inline(always)]
fn gather_comma<W: Write>(writer: &mut W, page: &mut Page, is_first: bool) -> Result<(), Unwritten>
    ensures written { OnOk result (Appends (append_known (W.contents writer.old) page.old.items)
        (append_known (W.contents writer.new) page.new.items) (comma_unless is_first)) }
    ensures kept { StaysInFront (W.contents writer.old) (W.contents writer.new) }
{
    if is_first {
        return Ok(());
    }
    gather_byte(writer, page, b',')
}

// Puts the digits of a number on the page as an item, if there is room for them; else false.
fn put_digits(page: &mut Page, is_first: bool, digits: &[u8]) -> bool
    ensures put { result ≡ true → page.new.items ≡ page.old.items ++ (comma_unless is_first ++ digits.now) }
    ensures kept { result ≡ false → page.new ≡ page.old }
{
    if page.remaining_capacity() <= digits.len() {
        return false;
    }
    if !is_first {
        page.push(b',');
    }
    let _fits = page.try_extend_from_slice(digits);
    true
}

// Puts a text that is printed as it is on the page as an item, if there is room for it; else false.
#[inline(always)]
fn put_text(page: &mut Page, is_first: bool, text: &[u8]) -> bool
    requires { escapes text.now ≡ text.now }
    ensures put { result ≡ true → page.new.items ≡ page.old.items ++ (comma_unless is_first ++ quoted text.now) }
    ensures kept { result ≡ false → page.new ≡ page.old }
{
    if page.remaining_capacity().saturating_sub(2) <= text.len() {
        return false;
    }
    if !is_first {
        page.push(b',');
    }
    page.push(b'"');
    let _fits = page.try_extend_from_slice(text);
    page.push(b'"');
    true
}

// Puts a number on the page as an item, if there is room for it; else false.
#[inline(never)]
fn put_number(page: &mut Page, is_first: bool, number: i64) -> bool
    ensures put { result ≡ true → page.new.items ≡ page.old.items ++ (comma_unless is_first ++ signed_decimal number) }
    ensures kept { result ≡ false → page.new ≡ page.old }
{
    put_digits(page, is_first, Buffer::new().format(number).as_bytes())
}

// Puts a number or a plain text on the page as an item, if there is room for it; else false.
#[inline(always)]
#[tactic(auto, using(crate::proofs::PlainText::plain_text))]
fn put_item(page: &mut Page, is_first: bool, seen: Seen<'_>) -> bool
    ensures put { result ≡ true → page.new.items ≡ page.old.items ++ (comma_unless is_first ++
        value_text (value_of_ref seen.entry.value)) }
    ensures kept { result ≡ false → page.new ≡ page.old }
{
    match seen.value {
        ValueRef::Int(number) => put_number(page, is_first, number),
        ValueRef::Text(text) => {
            seen.is_plain_text() && put_text(page, is_first, text.as_bytes())
        }
        ValueRef::Row(_) => false,
    }
}

/// Gathers the value as an item of a list: with a comma before it, unless it is the first.
#[inline(always)]
#[cycle(printing)]
pub(crate) fn gather_item<W: Write>(
    writer: &mut W,
    page: &mut Page,
    is_first: bool,
    seen: Seen<'_>,
) -> Result<(), Unwritten>
    ensures written { OnOk result (Appends (append_known (W.contents writer.old) page.old.items)
        (append_known (W.contents writer.new) page.new.items) (comma_unless is_first ++
        value_text (value_of_ref seen.entry.value))) }
    ensures kept { StaysInFront (W.contents writer.old) (W.contents writer.new) }
{
    if put_item(page, is_first, seen) {
        return Ok(());
    }
    gather_parts(writer, page, is_first, seen.value)
}

// Gathers the value as an item, part by part.
#[inline(never)]
#[cycle(printing)]
fn gather_parts<W: Write>(
    writer: &mut W,
    page: &mut Page,
    is_first: bool,
    value: ValueRef<'_>,
) -> Result<(), Unwritten>
    ensures written { OnOk result (Appends (append_known (W.contents writer.old) page.old.items)
        (append_known (W.contents writer.new) page.new.items) (comma_unless is_first ++
        value_text (value_of_ref value.entry))) }
    ensures kept { StaysInFront (W.contents writer.old) (W.contents writer.new) }
{
    gather_comma(writer, page, is_first)?;
    match value {
        ValueRef::Int(number) => {
            gather_bytes(writer, page, Buffer::new().format(number).as_bytes())
        }
        ValueRef::Text(text) => gather_quoted(writer, page, text),
        ValueRef::Row(values) => gather_values(writer, page, values),
    }
}

// Gathers the list of these values.
#[cycle(printing)]
fn gather_values<W: Write>(
    writer: &mut W,
    page: &mut Page,
    values: &[Value],
) -> Result<(), Unwritten>
    ensures written { OnOk result (Appends (append_known (W.contents writer.old) page.old.items)
        (append_known (W.contents writer.new) page.new.items) (list_text values.now)) }
    ensures kept { StaysInFront (W.contents writer.old) (W.contents writer.new) }
{
    gather_byte(writer, page, b'[')?;
    for (at, value) in values.iter().enumerate() {
        gather_item(writer, page, at == 0, value.seen())?;
    }
    gather_byte(writer, page, b']')
}
