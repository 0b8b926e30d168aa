//! The lines of a report that end with a list of values.
ghost use Rattle.std.specs.Prelude.{◌≡◌, ◌∷◌, ◌++◌, [], List, OnOk, option_map};
ghost use Rattle.std.specs.Fmt.{decimal};
ghost use Rattle.std.specs.Iterator.{IsFinite, AlwaysYields};
ghost use Rattle.std.specs.Option.{option_to_list};
ghost use Rattle.std.specs.Io.KnownBytes.{Appends};
ghost use Rattle.flow_value.specs.declared.value.Value.{Value};
ghost use Rattle.flow_link.specs.Trace.{took_at, gave_over};
ghost use Rattle.flow_report.specs.Given.{values_of, seen_value};
ghost use Rattle.flow_report.specs.Printed.{list_text};
ghost use Rattle.flow_report.specs.Report.{labelled, label_text};
ghost use Rattle.flow_report.specs.Written.{StaysInFront};

use crate::page::{Page, gather_bytes, write_page};
use crate::piece::write_bytes;
use crate::value_text::gather_item;
use flow_link::{LinkId, Mark};
use flow_value::{Kept, Seen, Value};
use itoa::Buffer;
use std::io;
use std::io::Write;

// The value that this mark took at this port.
#[inline]
fn taken_at(mark: &Mark, port: u32) -> Option<Seen<'_>>
    ensures { option_to_list (option_map seen_value result) ≡ took_at port (mark.now ∷ []) }
{
    match mark {
        Mark::Took(at, _, value) if u32::from(*at) == port => Some(value.seen()),
        _ => None,
    }
}

// The value that this mark gave over this link.
#[inline]
fn given_over(mark: &Mark, link: LinkId) -> Option<Seen<'_>>
    ensures { option_to_list (option_map seen_value result) ≡ gave_over link (mark.now ∷ []) }
{
    match mark {
        Mark::Gave(over, value) if *over == link => Some(value.seen()),
        _ => None,
    }
}

// Writes the list of the values to which an iterator comes.
fn write_list<'a, W: Write, I: Iterator<Item = Seen<'a>> + Drop>(
    writer: &mut W,
    values: I,
) -> io::Result<()>
    requires can { I.can_next values }
    requires ends { IsFinite (I.remaining values) }
    ensures written { (all : List Value) → AlwaysYields I.next_gives seen_value values all → OnOk result
        (Appends (W.contents writer.old) (W.contents writer.new) (list_text all)) }
    ensures kept { StaysInFront (W.contents writer.old) (W.contents writer.new) }
{
    let mut page = Page::new();
    gather_bytes(writer, &mut page, b"[")?;
    let mut is_first = true;
    for value in values {
        gather_item(writer, &mut page, is_first, value)?;
        is_first = false;
    }
    gather_bytes(writer, &mut page, b"]")?;
    write_page(writer, &mut page)?;
    Ok(())
}

/// Writes a number in decimal.
pub(crate) fn write_number<W: Write>(writer: &mut W, number: u64) -> io::Result<()>
    ensures written { OnOk result (Appends (W.contents writer.old) (W.contents writer.new) (decimal number)) }
    ensures kept { StaysInFront (W.contents writer.old) (W.contents writer.new) }
{
    write_bytes(writer, Buffer::new().format(number).as_bytes())
}

fn write_label<W: Write>(writer: &mut W, label: &[u8], number: Option<u64>) -> io::Result<()>
    ensures written { OnOk result (Appends (W.contents writer.old) (W.contents writer.new)
        (label_text label.now number)) }
    ensures kept { StaysInFront (W.contents writer.old) (W.contents writer.new) }
{
    match number {
        Some(number) => {
            write_bytes(writer, label)?;
            write_number(writer, number)
        }
        None => write_bytes(writer, label),
    }
}

fn begin_line<W: Write>(writer: &mut W, label: &[u8], number: Option<u64>) -> io::Result<()>
    ensures written { OnOk result (Appends (W.contents writer.old) (W.contents writer.new)
        (label_text label.now number ++ (32 ∷ []))) }
    ensures kept { StaysInFront (W.contents writer.old) (W.contents writer.new) }
{
    write_label(writer, label, number)?;
    write_bytes(writer, b" ")
}

// Writes a line that ends with the list of the values to which an iterator comes.
fn write_line<'a, W: Write, I: Iterator<Item = Seen<'a>> + Drop>(
    writer: &mut W,
    label: &[u8],
    number: Option<u64>,
    values: I,
) -> io::Result<()>
    requires can { I.can_next values }
    requires ends { IsFinite (I.remaining values) }
    ensures written { (all : List Value) → AlwaysYields I.next_gives seen_value values all → OnOk result
        (Appends (W.contents writer.old) (W.contents writer.new) (labelled (label_text label.now number) all)) }
    ensures kept { StaysInFront (W.contents writer.old) (W.contents writer.new) }
{
    begin_line(writer, label, number)?;
    write_list(writer, values)?;
    write_bytes(writer, b"\n")
}

/// Writes the line of a list that is printed already.
pub(crate) fn write_printed_line<W: Write>(
    writer: &mut W,
    label: &[u8],
    number: Option<u64>,
    text: &[u8],
) -> io::Result<()>
    ensures written { (values : List Value) → text.now ≡ list_text values → OnOk result
        (Appends (W.contents writer.old) (W.contents writer.new) (labelled (label_text label.now number) values)) }
    ensures kept { StaysInFront (W.contents writer.old) (W.contents writer.new) }
{
    begin_line(writer, label, number)?;
    write_bytes(writer, text)?;
    write_bytes(writer, b"\n")
}

/// Writes the list of what a journal took at a port.
pub(crate) fn write_taken<W: Write>(writer: &mut W, journal: &[Mark], port: u32) -> io::Result<()>
    ensures written { OnOk result (Appends (W.contents writer.old) (W.contents writer.new)
        (list_text (took_at port journal.now))) }
    ensures kept { StaysInFront (W.contents writer.old) (W.contents writer.new) }
{
    write_list(
        writer,
        journal.iter().filter_map(|mark| taken_at(mark, port)),
    )
}

/// Writes the line of what a journal took at a port.
pub(crate) fn write_taken_line<W: Write>(
    writer: &mut W,
    label: &[u8],
    number: Option<u64>,
    journal: &[Mark],
    port: u32,
) -> io::Result<()>
    ensures written { OnOk result (Appends (W.contents writer.old) (W.contents writer.new)
        (labelled (label_text label.now number) (took_at port journal.now))) }
    ensures kept { StaysInFront (W.contents writer.old) (W.contents writer.new) }
{
    begin_line(writer, label, number)?;
    write_taken(writer, journal, port)?;
    write_bytes(writer, b"\n")
}

/// Writes the list of what a journal gave over a link.
pub(crate) fn write_given<W: Write>(
    writer: &mut W,
    journal: &[Mark],
    link: LinkId,
) -> io::Result<()>
    ensures written { OnOk result (Appends (W.contents writer.old) (W.contents writer.new)
        (list_text (gave_over link journal.now))) }
    ensures kept { StaysInFront (W.contents writer.old) (W.contents writer.new) }
{
    write_list(
        writer,
        journal.iter().filter_map(|mark| given_over(mark, link)),
    )
}

/// Writes the line of what a journal gave over a link.
pub(crate) fn write_given_line<W: Write>(
    writer: &mut W,
    label: &[u8],
    number: Option<u64>,
    journal: &[Mark],
    link: LinkId,
) -> io::Result<()>
    ensures written { OnOk result (Appends (W.contents writer.old) (W.contents writer.new)
        (labelled (label_text label.now number) (gave_over link journal.now))) }
    ensures kept { StaysInFront (W.contents writer.old) (W.contents writer.new) }
{
    begin_line(writer, label, number)?;
    write_given(writer, journal, link)?;
    write_bytes(writer, b"\n")
}

/// Writes the line of values that were sorted out.
pub(crate) fn write_sorted_line<W: Write>(
    writer: &mut W,
    label: &[u8],
    number: Option<u64>,
    values: &[&Kept],
) -> io::Result<()>
    ensures written { OnOk result (Appends (W.contents writer.old) (W.contents writer.new)
        (labelled (label_text label.now number) (values_of values.now))) }
    ensures kept { StaysInFront (W.contents writer.old) (W.contents writer.new) }
{
    write_line(
        writer,
        label,
        number,
        values.iter().map(|value| value.seen()),
    )
}

/// Writes the line of the values of two parts, as one list.
pub(crate) fn write_parts_line<W: Write>(
    writer: &mut W,
    label: &[u8],
    number: Option<u64>,
    front: &[Value],
    back: &[Value],
) -> io::Result<()>
    ensures written { OnOk result (Appends (W.contents writer.old) (W.contents writer.new)
        (labelled (label_text label.now number) (front.now ++ back.now))) }
    ensures kept { StaysInFront (W.contents writer.old) (W.contents writer.new) }
{
    write_line(
        writer,
        label,
        number,
        front.iter().chain(back.iter()).map(|value| value.seen()),
    )
}
