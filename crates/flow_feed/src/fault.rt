//! Why rows are not made into records.
use std::alloc::{AllocError, AllocFailed};
use std::{fmt, io};

/// What is wrong with a row.
#[derive(Clone, Copy)]
pub enum RowFault {
    /// It has so many fields, and not as many as the first row.
    Fields { has: usize, due: usize },
    /// It is not UTF-8.
    NotUtf8,
    /// A quote begins a field and is never closed, so that the row goes on to the end of the file.
    Unclosed,
}

/// A row that no records are made of, and where its fault is: the line and the column, both from 1. A column counts
/// characters.
#[derive(Clone, Copy)]
pub struct BadRow {
    pub line: u64,
    pub column: u64,
    pub fault: RowFault,
}

/// Why there is no column that is told so.
#[derive(Clone, Copy)]
pub enum ColumnFault<'a> {
    /// The header does not have this name.
    NoName(&'a str),
    /// The header has this name more than once.
    Twice(&'a str),
    /// There is no header, and this is no number.
    NoNumber(&'a str),
    /// There is no header, and the first row has but so many fields.
    NoPlace(&'a str, usize),
}

/// Why rows are not fed.
#[derive(Drop)]
pub enum FeedFault<'a> {
    /// There is to be a header, and there is no row at all.
    NoHeader,
    /// A column that is asked for is not there.
    Column(ColumnFault<'a>),
    /// This row is bad.
    Row(BadRow),
    /// The rows could not be read.
    Read(io::Error),
    /// The records could not be written.
    Write,
    /// The bad rows could not be written.
    Aside(io::Error),
    /// There was no memory for it.
    Memory,
}

impl fmt::Display for RowFault {
    fn fmt<W: fmt::Write>(&self, f: &mut fmt::Formatter<W>) -> fmt::Result {
        match *self {
            RowFault::Fields { has: 1, due } => write!(f, "1 field, and not {due}"),
            RowFault::Fields { has, due } => write!(f, "{has} fields, and not {due}"),
            RowFault::NotUtf8 => f.write_str("the row is not UTF-8 here"),
            RowFault::Unclosed => f.write_str("the quote here is never closed"),
        }
    }
}

impl fmt::Display for BadRow {
    fn fmt<W: fmt::Write>(&self, f: &mut fmt::Formatter<W>) -> fmt::Result {
        let (line, column, fault) = (self.line, self.column, self.fault);
        write!(f, "line {line}, column {column}: {fault}")
    }
}

impl fmt::Display for ColumnFault<'_> {
    fn fmt<W: fmt::Write>(&self, f: &mut fmt::Formatter<W>) -> fmt::Result {
        match *self {
            ColumnFault::NoName(name) => write!(f, "the header has no column {name:?}"),
            ColumnFault::Twice(name) => {
                write!(f, "the header has more than one column {name:?}")
            }
            ColumnFault::NoNumber(told) => {
                write!(
                    f,
                    "{told:?} is no number of a column, and there is no --header"
                )
            }
            ColumnFault::NoPlace(told, 1) => {
                write!(f, "there is no column {told}: the first row has 1 field")
            }
            ColumnFault::NoPlace(told, width) => {
                write!(
                    f,
                    "there is no column {told}: the first row has {width} fields"
                )
            }
        }
    }
}

impl fmt::Display for FeedFault<'_> {
    fn fmt<W: fmt::Write>(&self, f: &mut fmt::Formatter<W>) -> fmt::Result {
        match self {
            FeedFault::NoHeader => f.write_str("there is no header"),
            FeedFault::Column(fault) => write!(f, "{fault}"),
            FeedFault::Row(row) => write!(f, "{row}"),
            FeedFault::Read(error) => write!(f, "{error}"),
            FeedFault::Aside(error) => write!(f, "{error}"),
            FeedFault::Write => f.write_str("the records can't be written"),
            FeedFault::Memory => f.write_str("memory"),
        }
    }
}

impl<'a> From<ColumnFault<'a>> for FeedFault<'a> {
    fn from(fault: ColumnFault<'a>) -> FeedFault<'a> {
        FeedFault::Column(fault)
    }
}

impl From<AllocError> for FeedFault<'_> {
    fn from(_error: AllocError) -> Self {
        FeedFault::Memory
    }
}

impl<T: Drop> From<AllocFailed<T>> for FeedFault<'_> {
    fn from(_error: AllocFailed<T>) -> Self {
        FeedFault::Memory
    }
}
