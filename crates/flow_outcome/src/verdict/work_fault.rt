//! The faults of work by their names.
use std::io;
use std::io::Write;

/// The name of a fault of work; none for other numbers, which callers give to work of their own.
fn name_of(number: u32) -> Option<&'static str> {
    match number {
        1 => Some("NotInt"),
        2 => Some("NotText"),
        3 => Some("NotRow"),
        4 => Some("NoField"),
        5 => Some("Range"),
        6 => Some("Rejected"),
        7 => Some("NotOne"),
        _ => None,
    }
}

/// Writes the number of a fault, and its name.
pub(crate) fn write_fault<W: Write>(writer: &mut W, number: u32) -> io::Result<()> {
    match name_of(number) {
        Some(name) => write!(writer, "faulted with {number} ({name})"),
        None => write!(writer, "faulted with {number}"),
    }
}
