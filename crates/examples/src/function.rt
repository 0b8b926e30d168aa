//! Shows a function as a network names it: read from its steps, and applied to values.

use anyhow::{Result, anyhow};
use bevelrose::{Row, Steps, Text, Value, Work};
use std::alloc::{AllocError, Global};

pub(crate) fn main(rt: HostRuntime) -> Result<()> {
    let alloc = rt.alloc();
    let steps = Steps::read(alloc, &["spread", "int", "mul 2"])?;
    for texts in [["20", "1"], ["3", "four"]] {
        let row = row_of(alloc, &texts)?;
        match steps.run(alloc, &row) {
            Ok(results) => println!(rt; "{texts:?} gives {:?}", numbers_in(alloc, &results)?)?,
            Err(fault) => println!(rt; "{texts:?} faults: {fault}")?,
        }
    }
    match Steps::read(alloc, &["int", "addd 1"]) {
        Ok(_) => Err(anyhow!("addd is no step")),
        Err(error) => Ok(println!(rt; "refused: {error}")?),
    }
}

fn row_of(alloc: Global, texts: &[&str]) -> Result<Value, AllocError> {
    let mut items = Vec::new(alloc);
    for text in texts {
        items.push(Value::Text(Text::from_str(alloc, text)?))?;
    }
    let row = Row::new(alloc, items).map_err(|_| AllocError)?;
    Ok(Value::Row(row))
}

fn numbers_in(alloc: Global, values: &[Value]) -> Result<Vec<i64>, AllocError> {
    let mut numbers = Vec::new(alloc);
    for value in values {
        if let Some(number) = value.as_int() {
            numbers.push(number)?;
        }
    }
    Ok(numbers)
}
