//! The whole page.
use crate::block_lists::write_blocks;
use crate::escape::{Escaping, write_escaped};
use crate::fault::PageFault;
use crate::layout::layout_of;
use crate::picture::write_picture;
use crate::style::STYLE;
use crate::tone::tone_of_run;
use flow_outcome::{Outline, TellFault, check_fit, write_verdict};
use flow_reading::Report;
use std::alloc::Global;
use std::io;
use std::io::Write;

/// What stands before the title. Nothing is asked for from elsewhere, and no script may run.
const HEAD: &[u8] = b"<!DOCTYPE html>
<html lang=\"en\">
<head>
<meta charset=\"utf-8\">
<meta http-equiv=\"Content-Security-Policy\" content=\"default-src 'none'; style-src 'unsafe-inline'\">
<meta name=\"viewport\" content=\"width=device-width, initial-scale=1\">
<title>";

/// What the colours of blocks mean, and the strokes of links.
const STATES: &[u8] =
    b"<p class=\"key\"><span class=\"done\">done</span> <span class=\"waiting\">waiting</span> \
<span class=\"faulted\">faulted</span> The number at a link is how many messages crossed it. ";

const STROKES: &[u8] = b"A dashed link hands no end on.</p>\n";

/// What the picture is in. It may be larger than that, so arrow keys move it too.
const PICTURE: &[u8] =
    b"<div class=\"picture\" role=\"region\" aria-label=\"The network\" tabindex=\"0\">\n";

/// Writes a page with this title: a network as a picture, and each of its blocks. With a report of it the page tells first why
/// the run ended so; each block has its state in colour, how many messages it took, holds, recorded and left, and the
/// first hundred of them; and each link has how many crossed it.
///
/// Nothing is written where the report is of another network, or where there is no memory for the picture. The writer gets many
/// small pieces, and should gather them.
pub fn write_page<W: Write>(
    alloc: Global,
    title: &str,
    outline: &Outline,
    report: Option<&Report>,
    writer: &mut W,
) -> Result<(), PageFault> {
    if let Some(report) = report {
        check_fit(outline, report)?;
    }
    let mut line = Vec::new(alloc);
    let layout = layout_of(alloc, outline, report, &mut line)?;
    write_top(writer, title)?;
    if let Some(report) = report {
        write_why(writer, outline, report)?;
    }
    write_key(writer, report.is_some())?;
    writer.write_all(PICTURE)?;
    write_picture(writer, outline, report, &layout, &mut line)?;
    writer.write_all(b"</div>\n<h2>Blocks</h2>\n")?;
    write_blocks(writer, outline, report)?;
    writer.write_all(b"</body>\n</html>\n")?;
    Ok(())
}

/// Writes the head of the page, and its title.
fn write_top<W: Write>(writer: &mut W, title: &str) -> io::Result<()> {
    writer.write_all(HEAD)?;
    write_escaped(writer, title)?;
    writer.write_all(b"</title>\n<style>\n")?;
    writer.write_all(STYLE)?;
    writer.write_all(b"</style>\n</head>\n<body>\n<h1>")?;
    write_escaped(writer, title)?;
    writer.write_all(b"</h1>\n")
}

/// Writes why the run ended with its status.
fn write_why<W: Write>(
    writer: &mut W,
    outline: &Outline,
    report: &Report,
) -> Result<(), PageFault> {
    let class = tone_of_run(outline, report).class();
    write!(writer, "<pre class=\"why {class}\">")?;
    write_lines(writer, outline, report)?;
    writer.write_all(b"</pre>\n")?;
    Ok(())
}

/// Writes the lines of `flow why`.
fn write_lines<W: Write>(
    writer: &mut W,
    outline: &Outline,
    report: &Report,
) -> Result<(), TellFault> {
    let mut escaping = Escaping::new(&mut *writer);
    write_verdict(outline, report, &mut escaping)?;
    Ok(())
}

/// Writes what colours and strokes mean.
fn write_key<W: Write>(writer: &mut W, has_report: bool) -> io::Result<()> {
    if has_report {
        writer.write_all(STATES)?;
    } else {
        writer.write_all(b"<p class=\"key\">")?;
    }
    writer.write_all(STROKES)
}
