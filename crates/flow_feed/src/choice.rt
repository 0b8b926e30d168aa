//! What is asked for, by the places of the columns in a row.
use crate::asked::Asked;
use crate::fault::{ColumnFault, FeedFault};
use csv::ByteRecord;
use std::alloc::Global;

/// The word for the number of the row in the place of a column.
const NUMBER: &str = "#";

/// A column of rows.
#[derive(Clone, Copy)]
pub(crate) enum Column {
    /// The number of the row, from 1.
    Number,
    /// The field at this place, from 0.
    Field(usize),
}

/// A column that goes to an input.
#[derive(Clone, Copy)]
pub(crate) struct Way<'a> {
    pub(crate) column: Column,
    pub(crate) input: &'a str,
}

/// A column that must have a text.
#[derive(Clone, Copy)]
pub(crate) struct Test<'a> {
    pub(crate) column: Column,
    pub(crate) text: &'a str,
}

/// What is asked for of rows of so many fields.
#[derive(Drop)]
pub(crate) struct Choice<'a> {
    pub(crate) width: usize,
    pub(crate) ways: Vec<Way<'a>>,
    pub(crate) tests: Vec<Test<'a>>,
    pub(crate) key: Option<Column>,
}

impl<'a> Choice<'a> {
    /// Finds the columns by the first row.
    pub(crate) fn new(
        alloc: Global,
        asked: &Asked<'a>,
        first: &ByteRecord,
    ) -> Result<Choice<'a>, FeedFault<'a>> {
        let key = match asked.key {
            Some(name) => Some(find(asked.header, first, name)?),
            None => None,
        };
        Ok(Choice {
            width: first.len(),
            ways: find_ways(alloc, asked, first)?,
            tests: find_tests(alloc, asked, first)?,
            key,
        })
    }
}

fn find_ways<'a>(
    alloc: Global,
    asked: &Asked<'a>,
    first: &ByteRecord,
) -> Result<Vec<Way<'a>>, FeedFault<'a>> {
    let mut ways = Vec::with_capacity(alloc, asked.sent.len())?;
    for sent in &asked.sent {
        let column = find(asked.header, first, sent.column)?;
        let input = sent.input;
        ways.push(Way { column, input })?;
    }
    Ok(ways)
}

fn find_tests<'a>(
    alloc: Global,
    asked: &Asked<'a>,
    first: &ByteRecord,
) -> Result<Vec<Test<'a>>, FeedFault<'a>> {
    let mut tests = Vec::with_capacity(alloc, asked.wanted.len())?;
    for wanted in &asked.wanted {
        let column = find(asked.header, first, wanted.column)?;
        let text = wanted.text;
        tests.push(Test { column, text })?;
    }
    Ok(tests)
}

/// The column that is told so, by the first row, which may be a header.
fn find<'a>(header: bool, first: &ByteRecord, told: &'a str) -> Result<Column, ColumnFault<'a>> {
    if told == NUMBER {
        Ok(Column::Number)
    } else if header {
        find_name(first, told)
    } else {
        find_number(first.len(), told)
    }
}

/// The column that has this name in a header.
fn find_name<'a>(header: &ByteRecord, name: &'a str) -> Result<Column, ColumnFault<'a>> {
    let mut found = None;
    for place in 0..header.len() {
        if has_field(header, place, name) {
            if found.is_some() {
                return Err(ColumnFault::Twice(name));
            }
            found = Some(place);
        }
    }
    match found {
        Some(place) => Ok(Column::Field(place)),
        None => Err(ColumnFault::NoName(name)),
    }
}

fn has_field(row: &ByteRecord, place: usize, text: &str) -> bool {
    match row.get(place) {
        Some(field) => field == text.as_bytes(),
        None => false,
    }
}

/// The column with this number, of so many.
fn find_number(width: usize, told: &str) -> Result<Column, ColumnFault<'_>> {
    match told.parse::<usize>() {
        Ok(number) if number >= 1 && number <= width => Ok(Column::Field(number - 1)),
        Ok(_) => Err(ColumnFault::NoPlace(told, width)),
        Err(_) => Err(ColumnFault::NoNumber(told)),
    }
}
