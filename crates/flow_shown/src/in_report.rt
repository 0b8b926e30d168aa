//! A value as a report prints it.

use flow_value::Value;
use std::fmt;
use std::fmt::{Display, Formatter, Write};

/// Shows a value as a report prints it.
#[derive(Clone, Copy)]
pub struct InReport<'a> {
    value: &'a Value,
}

/// This value, shown as a report prints it. What is printed is not part of its contract.
pub fn shown(value: &Value) -> InReport<'_> {
    InReport { value }
}

impl Display for InReport<'_> {
    fn fmt<W: Write>(&self, f: &mut Formatter<W>) -> fmt::Result {
        show(self.value, f)
    }
}

#[cycle(showing)]
fn show<W: Write>(value: &Value, f: &mut Formatter<W>) -> fmt::Result {
    match value {
        Value::Int(number) => write!(f, "{number}"),
        Value::Text(text) => show_text(text.as_str(), f),
        Value::Row(row) => show_row(row.items(), f),
    }
}

#[cycle(showing)]
fn show_row<W: Write>(values: &[Value], f: &mut Formatter<W>) -> fmt::Result {
    f.write_str("[")?;
    for (at, value) in values.iter().enumerate() {
        if at > 0 {
            f.write_str(",")?;
        }
        show(value, f)?;
    }
    f.write_str("]")
}

/// A text between double quotes, with escapes.
fn show_text<W: Write>(text: &str, f: &mut Formatter<W>) -> fmt::Result {
    f.write_str("\"")?;
    for c in text.chars() {
        match c {
            '"' => f.write_str("\\\"")?,
            '\\' => f.write_str("\\\\")?,
            '\0'..='\x1f' | '\x7f' => write!(f, "\\x{:02x}", c as u32)?,
            _ => f.write_char(c)?,
        }
    }
    f.write_str("\"")
}
