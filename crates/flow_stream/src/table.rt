//! Values as rows of CSV.
use crate::fault::ChunkFault;
use crate::json::write_json;
use csv::Writer;
use flow_value::Value;
use itoa::Buffer;
use std::alloc::Global;

/// Writes a row for each value: the block's name and the value, or the name and the items of a row.
pub(crate) fn write_rows(
    alloc: Global,
    table: &mut Writer<Vec<u8>>,
    name: &str,
    values: &[Value],
) -> Result<(), ChunkFault> {
    for value in values {
        table.write_field(name.as_bytes())?;
        write_cells(alloc, table, value)?;
        table.end_record()?;
    }
    Ok(())
}

/// Writes a cell for a value, or one for each item of a row.
fn write_cells(
    alloc: Global,
    table: &mut Writer<Vec<u8>>,
    value: &Value,
) -> Result<(), ChunkFault> {
    match value {
        Value::Int(_) | Value::Text(_) => write_cell(alloc, table, value),
        Value::Row(row) => write_items(alloc, table, row.items()),
    }
}

/// Writes a cell for each item of a row.
fn write_items(
    alloc: Global,
    table: &mut Writer<Vec<u8>>,
    items: &[Value],
) -> Result<(), ChunkFault> {
    for item in items {
        write_cell(alloc, table, item)?;
    }
    Ok(())
}

/// Writes a cell: the digits of a number, a text as it is, and a row as JSON.
fn write_cell(alloc: Global, table: &mut Writer<Vec<u8>>, value: &Value) -> Result<(), ChunkFault> {
    match value {
        Value::Int(number) => table.write_field(Buffer::new().format(*number).as_bytes())?,
        Value::Text(text) => table.write_field(text.as_str().as_bytes())?,
        Value::Row(_) => {
            let mut cell = Vec::new(alloc);
            write_json(value, &mut cell)?;
            table.write_field(&cell)?;
        }
    }
    Ok(())
}
