//! The likely cause for which a record is refused.
use crate::encoding::{BadByte, bad_byte, ends_network, is_utf_16};
use crate::hint::{Hint, near_or};
use crate::rows::{Row, Rows, opens_quote};
use flow_fault_text::TextFault;
use flow_hints::quoted;
use flow_link::Plan;
use flow_spans::Span;
use flow_value::Steps;
use std::alloc::{AllocError, Global};

/// The likely cause of this fault of the records of a text, and where.
pub(crate) fn cause_of(
    alloc: Global,
    plan: &Plan<Steps>,
    text: &[u8],
    fault: TextFault,
) -> Result<(Span, String), AllocError> {
    if is_utf_16(text) {
        let message = String::from_str(alloc, "the records are UTF-16; store them as UTF-8.")?;
        return Ok((Span::new(0, 0), message));
    }
    let Some((number, trouble)) = trouble_of(fault) else {
        let message = String::from_str(alloc, "the records are not read.")?;
        return Ok((Span::new(0, 0), message));
    };
    let mut rows = Rows::new(alloc, text);
    let row = rows.read_to(number)?;
    let record = Record::new(alloc, text, number, row);
    record.cause(trouble, plan, &rows)
}

// What is wrong with a record.
#[derive(Clone, Copy)]
enum Trouble {
    /// It has not two fields.
    Fields,
    /// It is no UTF-8.
    Encoding,
    /// It names no input.
    Input,
}

// The record at which a fault stands, from 1, and what is wrong with it.
fn trouble_of(fault: TextFault) -> Option<(u64, Trouble)> {
    match fault {
        TextFault::Csv(number) => Some((number, Trouble::Fields)),
        TextFault::NotUtf8(number) => Some((number, Trouble::Encoding)),
        TextFault::UnknownInput(number) => Some((number, Trouble::Input)),
        TextFault::Syntax
        | TextFault::UnknownKey(_)
        | TextFault::MissingKey(_)
        | TextFault::WrongType(_)
        | TextFault::BadWork(_)
        | TextFault::BadWhen(_)
        | TextFault::BadFormat
        | TextFault::Plan(_)
        | TextFault::Read
        | TextFault::Write => None,
    }
}

// A record that is refused.
#[derive(Clone, Copy)]
struct Record<'t> {
    alloc: Global,
    text: &'t [u8],
    number: u64,
    span: Span,
}

impl<'t> Record<'t> {
    // The record with this number, which was read from here, if it is there.
    fn new(alloc: Global, text: &'t [u8], number: u64, row: Option<Row>) -> Record<'t> {
        let span = match row {
            Some(row) => row.span,
            None => Span::new(0, 0),
        };
        Record {
            alloc,
            text,
            number,
            span,
        }
    }

    // What is said of it, and where.
    fn cause(
        &self,
        trouble: Trouble,
        plan: &Plan<Steps>,
        rows: &Rows<'_>,
    ) -> Result<(Span, String), AllocError> {
        let message = match trouble {
            Trouble::Encoding => return self.encoding(),
            Trouble::Fields => self.fields(plan, rows)?,
            Trouble::Input => self.input(plan, rows)?,
        };
        Ok((self.span, message))
    }

    fn bytes(&self) -> &'t [u8] {
        let text = self.text;
        text.get(self.span.start..self.span.end).unwrap_or(&[])
    }

    fn has(&self, wanted: u8) -> bool {
        self.bytes().contains(&wanted)
    }

    // Why it has not two fields.
    fn fields(&self, plan: &Plan<Steps>, rows: &Rows<'_>) -> Result<String, AllocError> {
        let number = self.number;
        if opens_quote(self.text, self.span) {
            return format!(in self.alloc;
                "record {number} reaches to the end of the text, since a double quote in it is never closed."
            );
        }
        if ends_network(rows.field(0).unwrap_or(&[])) {
            return format!(in self.alloc;
                "record {number} is a line %%. Such a line parts a network from its records, in one text with both and with no carriage return behind it."
            );
        }
        let count = rows.field_count();
        let header = self.header_hint(plan)?;
        if count < 2 {
            let parted = self.other_comma();
            return format!(in self.alloc;
                "record {number} has one field; the name of an input, a comma and a value are wanted.{parted}{header}"
            );
        }
        format!(in self.alloc;
            "record {number} has {count} fields, and 2 are wanted. A value with a comma in it stands in double quotes.{header}"
        )
    }

    // What parts the fields in place of a comma.
    fn other_comma(&self) -> &'static str {
        if self.has(b';') {
            " Its fields are parted by \";\"."
        } else if self.has(b'\t') {
            " Its fields are parted by a tab."
        } else {
            ""
        }
    }

    // That the first line may be a header, where the second record names an input.
    fn header_hint(&self, plan: &Plan<Steps>) -> Result<&'static str, AllocError> {
        if self.number != 1 {
            return Ok("");
        }
        let mut rows = Rows::new(self.alloc, self.text);
        let second = rows.read_to(2)?;
        if second.is_some() && names_input(plan, &rows) {
            Ok(" It may be a header, but the first line is a record too.")
        } else {
            Ok("")
        }
    }

    // Where it is no UTF-8, and what it may be.
    fn encoding(&self) -> Result<(Span, String), AllocError> {
        let (before, byte) = bad_byte(self.bytes()).unwrap_or((0, 0));
        let number = self.number;
        let words = BadByte(byte);
        let message = format!(in self.alloc; "record {number} is {words}.")?;
        let at = self.span.start.saturating_add(before);
        Ok((Span::new(at, at.saturating_add(1)), message))
    }

    // Why it names no input.
    fn input(&self, plan: &Plan<Steps>, rows: &Rows<'_>) -> Result<String, AllocError> {
        let number = self.number;
        let bytes = rows.field(0).unwrap_or(&[]);
        let name = str::from_utf8(bytes).unwrap_or("");
        let names = input_names(self.alloc, plan)?;
        let hint = self.input_hint(plan, name, names.as_slice())?;
        let shown = quoted(self.alloc, name)?;
        format!(in self.alloc; "record {number} is for {shown}, and no input has that name.{hint}")
    }

    // Which of these inputs may have been meant by a name that none of them has.
    fn input_hint<'n>(
        &self,
        plan: &Plan<Steps>,
        name: &str,
        names: &'n [&'n str],
    ) -> Result<Hint<'n>, AllocError> {
        if is_input(plan, name.trim().as_bytes()) {
            return Ok(Hint::Words(" A blank beside a name is part of it."));
        }
        if plan.find(name).is_some() {
            return Ok(Hint::Words(" The block has that name, and lacks \"input = true\"."));
        }
        let header = self.header_hint(plan)?;
        if !header.is_empty() {
            return Ok(Hint::Words(header));
        }
        let all = match names {
            [] => Hint::Words(" The network has no input."),
            [name] => Hint::OnlyInput(name),
            _ => Hint::OneOf(" The inputs are", names),
        };
        near_or(self.alloc, name, names, all)
    }
}

// Whether the record that was read last has two fields, of which the first names an input.
fn names_input(plan: &Plan<Steps>, rows: &Rows<'_>) -> bool {
    match rows.field(0) {
        Some(name) => rows.field_count() == 2 && is_input(plan, name),
        None => false,
    }
}

fn is_input(plan: &Plan<Steps>, name: &[u8]) -> bool {
    for number in 0..plan.block_count() {
        let block = plan.block(number);
        if block.input && block.name.as_str().as_bytes() == name {
            return true;
        }
    }
    false
}

fn input_names<'p>(alloc: Global, plan: &'p Plan<Steps>) -> Result<Vec<&'p str>, AllocError> {
    let mut names = Vec::new(alloc);
    for number in 0..plan.block_count() {
        let block = plan.block(number);
        if block.input {
            names.push(block.name.as_str())?;
        }
    }
    Ok(names)
}
