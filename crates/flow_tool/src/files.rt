//! What commands read.
use crate::stop::Stop;
use flow_link::Plan;
use flow_reading::{ReadError, Report, read_report};
use flow_text::read_plan;
use flow_value::Steps;
use std::alloc::{AllocError, Global};
use std::fs;
use std::fs::Files;
use std::io::{BufReader, Input, Read};

/// The word for standard input in the place of a file.
pub const STANDARD_INPUT: &str = "-";

/// Where the system shows the file that standard input is.
const STANDARD_INPUT_FILE: &str = "/dev/stdin";

/// The file that is read where this one is named.
pub fn file_of(path: &str) -> &str {
    if path == STANDARD_INPUT {
        STANDARD_INPUT_FILE
    } else {
        path
    }
}

/// The bytes of a file, or of standard input.
pub fn read_file<R: Files + Input + AllocGlobal>(rt: &R, path: &str) -> Result<Vec<u8>, Stop> {
    if path == STANDARD_INPUT {
        return read_input(rt);
    }
    match fs::read(rt, path) {
        Ok(text) => Ok(text),
        Err(error) => Err(Stop::refused(path, &error).unless_memory(&error)),
    }
}

/// All of standard input.
pub fn read_input<R: Input + AllocGlobal>(rt: &R) -> Result<Vec<u8>, Stop> {
    let mut text = Vec::new(rt.alloc());
    let mut reader = BufReader::new(rt.alloc(), rt.reader())?;
    match reader.read_to_end(&mut text) {
        Ok(_) => Ok(text),
        Err(error) => Err(Stop::refused("standard input", &error).unless_memory(&error)),
    }
}

/// The network in a file.
pub fn read_network<R: Files + Input + AllocGlobal>(
    rt: &R,
    path: &str,
) -> Result<Plan<Steps>, Stop> {
    let text = read_file(rt, path)?;
    plan_in(rt.alloc(), path, &text)
}

/// The network that the text of this file is.
pub fn plan_in(alloc: Global, path: &str, text: &[u8]) -> Result<Plan<Steps>, Stop> {
    match read_plan(alloc, text) {
        Ok(plan) => Ok(plan),
        Err(refusal) => Err(Stop::of_text(path, refusal)),
    }
}

/// The report that the text of this file is.
pub fn read_text_report<'t>(alloc: Global, path: &str, text: &'t [u8]) -> Result<Report<'t>, Stop> {
    match read_report(alloc, text) {
        Ok(report) => Ok(report),
        Err(ReadError::Memory) => Err(Stop::from(AllocError)),
        Err(fault) => Err(Stop::refused(path, &fault)),
    }
}
