//! Values as JSON.
use flow_value::Value;
use itoa::Buffer;
use std::alloc::AllocError;

/// Adds a line for each value: an object with the block's name and the value.
pub(crate) fn write_lines(
    name: &str,
    values: &[Value],
    page: &mut Vec<u8>,
) -> Result<(), AllocError> {
    for value in values {
        page.extend_from_slice(b"{\"block\":\"")?;
        page.extend_from_slice(name.as_bytes())?;
        page.extend_from_slice(b"\",\"value\":")?;
        write_json(value, page)?;
        page.extend_from_slice(b"}\n")?;
    }
    Ok(())
}

/// Adds a value as JSON.
#[cycle(json)]
pub(crate) fn write_json(value: &Value, page: &mut Vec<u8>) -> Result<(), AllocError> {
    match value {
        Value::Int(number) => page.extend_from_slice(Buffer::new().format(*number).as_bytes()),
        Value::Text(text) => write_text(text.as_str(), page),
        Value::Row(row) => write_array(row.items(), page),
    }
}

/// Adds values as a JSON array.
#[cycle(json)]
fn write_array(values: &[Value], page: &mut Vec<u8>) -> Result<(), AllocError> {
    page.push(b'[')?;
    for (at, value) in values.iter().enumerate() {
        if at > 0 {
            page.push(b',')?;
        }
        write_json(value, page)?;
    }
    page.push(b']')?;
    Ok(())
}

/// Adds a text between double quotes, with the escapes that JSON asks for.
fn write_text(text: &str, page: &mut Vec<u8>) -> Result<(), AllocError> {
    page.push(b'"')?;
    for byte in text.as_bytes() {
        match *byte {
            b'"' | b'\\' => page.extend_from_slice(&[b'\\', *byte])?,
            0..=31 | 127 => page.extend_from_slice(&[
                b'\\',
                b'u',
                b'0',
                b'0',
                hex_digit(*byte / 16),
                hex_digit(*byte % 16),
            ])?,
            plain => page.push(plain)?,
        }
    }
    page.push(b'"')?;
    Ok(())
}

/// The hexadecimal digit of a number below 16.
fn hex_digit(number: u8) -> u8 {
    match number {
        0..=9 => b'0' + number,
        10..=15 => b'a' + (number - 10),
        _ => b'0',
    }
}
