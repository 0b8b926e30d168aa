//! Values that are written as words, and rows of tables.
use flow_value::{Row, Text, Value};
use std::alloc::{AllocError, Global};

/// The three cells of a row of a table.
pub fn cells(row: &str) -> Option<(&str, &str, &str)> {
    let (first, others) = row.split_once(" | ")?;
    let (second, third) = others.split_once(" | ")?;
    Some((first, second, third))
}

/// The integer or the text that a word is: an integer where it reads as one, and else a text, as `'7` is.
pub fn atom(alloc: Global, word: &str) -> Result<Value, AllocError> {
    match word.parse::<i64>() {
        Ok(number) => Ok(Value::Int(number)),
        Err(_) => {
            let text = Text::from_str(alloc, word.strip_prefix("'").unwrap_or(word))?;
            Ok(Value::Text(text))
        }
    }
}

pub fn row_of(alloc: Global, items: Vec<Value>) -> Result<Value, AllocError> {
    match Row::new(alloc, items) {
        Ok(row) => Ok(Value::Row(row)),
        Err(_) => Err(AllocError),
    }
}

/// The value that a word is: a row where it is in brackets, as `(7,a)`.
fn value_of(alloc: Global, word: &str) -> Result<Value, AllocError> {
    let Some(inner) = word.strip_prefix("(") else {
        return atom(alloc, word);
    };
    let mut items = Vec::new(alloc);
    for item in inner.strip_suffix(")").unwrap_or(inner).split(",") {
        items.push(atom(alloc, item)?)?;
    }
    row_of(alloc, items)
}

/// The values that these words are; `none` is no value.
pub fn values_of(alloc: Global, words: &str) -> Result<Vec<Value>, AllocError> {
    let mut values = Vec::new(alloc);
    for word in words.split(" ") {
        if word != "none" {
            values.push(value_of(alloc, word)?)?;
        }
    }
    Ok(values)
}
