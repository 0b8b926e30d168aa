//! Lines of reports and refusals, as tables have them.

/// Whether these lines, between which ' ; ' stands, are lines of a report, in this order.
pub fn has_lines(report: &[u8], lines: &str) -> bool {
    let Ok(report) = str::from_utf8(report) else {
        return false;
    };
    let mut lines = lines.split(" ; ");
    let mut next = lines.next();
    for line in report.lines() {
        if next == Some(line) {
            next = lines.next();
        }
    }
    next.is_none()
}

/// Whether a report is these lines, between which ' ; ' or the end of a row stands.
pub fn is_report(report: &[u8], rows: &[&str]) -> bool {
    let Ok(report) = str::from_utf8(report) else {
        return false;
    };
    let mut lines = report.split("\n");
    for row in rows {
        for line in row.split(" ; ") {
            if lines.next() != Some(line) {
                return false;
            }
        }
    }
    lines.next() == Some("") && lines.next().is_none()
}

/// Whether a text is the line of this refusal.
pub fn is_refusal(text: &[u8], refusal: &str) -> bool {
    let Ok(text) = str::from_utf8(text) else {
        return false;
    };
    let refused = text.strip_prefix("flow_run: ").unwrap_or("");
    refused.strip_suffix("\n") == Some(refusal)
}
