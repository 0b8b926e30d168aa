//! The files that parts are written to.
use crate::output::print_line;
use crate::stop::Stop;
use crate::whole_files::{Rules, write_whole};
use std::alloc::{AllocError, Global};
use std::fs::Files;

/// Where parts are written to.
#[derive(Clone, Copy)]
pub struct PartFiles<'a> {
    /// The name of each, without the dot and the part's number.
    pub name: &'a str,
    /// Which files parts may be written to.
    pub rules: Rules<'a>,
    /// The file for records that are in no part, if there is to be one.
    pub unmatched: Option<&'a str>,
}

impl PartFiles<'_> {
    /// Writes each part to its file, and prints the name of the file; what is in no part goes to the file for that. Nothing is
    /// written where one of the files may not be.
    pub fn write<R: Files + Print + AllocGlobal>(
        &self,
        rt: &R,
        pieces: &[&[u8]],
        alone: &[u8],
    ) -> Result<(), Stop> {
        let paths = self.free_paths(rt, pieces.len())?;
        if let Some(path) = self.unmatched {
            self.check_apart(rt, path, &paths)?;
            write_whole(rt, path, alone)?;
        }
        for (path, piece) in paths.iter().zip(pieces) {
            write_whole(rt, path.as_str(), piece)?;
            print_line(rt, path.as_str())?;
        }
        Ok(())
    }

    /// Refuses a file for what is in no part that may not be written, or that has the name of a part, in any folder.
    fn check_apart<R: Files>(&self, rt: &R, path: &str, parts: &[String]) -> Result<(), Stop> {
        for part in parts {
            if file_name(path) == file_name(part.as_str()) {
                return Err(Stop::refused(path, &"a part has this name"));
            }
        }
        self.rules.check(rt, path)
    }

    /// The files of so many parts, in order, each of which may be written.
    fn free_paths<R: Files + AllocGlobal>(
        &self,
        rt: &R,
        count: usize,
    ) -> Result<Vec<String>, Stop> {
        let mut paths = Vec::with_capacity(rt.alloc(), count)?;
        for place in 0..count {
            let path = self.path_of(rt.alloc(), place + 1, count)?;
            self.rules.check(rt, path.as_str())?;
            paths.push(path)?;
        }
        Ok(paths)
    }

    /// The file of the part with this number. The numbers have as many digits as the greatest, so that names in the order of
    /// the alphabet are in the order of the parts.
    fn path_of(&self, alloc: Global, number: usize, count: usize) -> Result<String, AllocError> {
        let name = self.name;
        let digits = format!(in alloc; "{number}")?;
        let width = format!(in alloc; "{count}")?.len();
        let mut path = format!(in alloc; "{name}.")?;
        for _ in digits.len()..width {
            path.push_str("0")?;
        }
        path.push_str(digits.as_str())?;
        Ok(path)
    }
}

/// The last name of a path.
fn file_name(path: &str) -> &str {
    match path.rsplit_once("/") {
        Some((_, name)) => name,
        None => path,
    }
}
