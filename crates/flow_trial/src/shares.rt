//! Rows that the records of several actions share.
use std::alloc::{AllocError, Global};

/// What the records of a report hold, each behind its first bracket.
fn records(alloc: Global, report: &str) -> Result<Vec<&str>, AllocError> {
    let mut records = Vec::new(alloc);
    for line in report.lines() {
        if let Some(rows) = line.strip_prefix("record [") {
            records.push(rows)?;
        }
    }
    Ok(records)
}

/// Whether the records of a report hold these rows, between which blanks stand: each of them once, in whichever record,
/// in every record in this order, and nothing else. It is so, too, where no rows are named.
pub fn share(alloc: Global, report: &[u8], rows: &str) -> Result<bool, AllocError> {
    let Ok(report) = str::from_utf8(report) else {
        return Ok(false);
    };
    if rows.is_empty() {
        return Ok(true);
    }
    let mut records = records(alloc, report)?;
    for row in rows.split(" ") {
        let Some(place) = records.iter().position(|rest| rest.starts_with(row)) else {
            return Ok(false);
        };
        let rest = records[place].strip_prefix(row).unwrap_or("");
        records[place] = rest.strip_prefix(",").unwrap_or(rest);
    }
    Ok(records.iter().all(|rest| *rest == "]"))
}
