//! Files that are written beside their places, and put there once they are whole.
use crate::stop::Stop;
use std::alloc::{AllocError, Global};
use std::fs::{File, Files, Metadata};
use std::io::{ErrorKind, Write};
use std::os::unix::fs::MetadataExt;
use std::{fs, io};

/// Which files may be written to.
#[derive(Clone, Copy)]
pub struct Rules<'a> {
    /// The file that is read, of which none takes the place.
    pub source: &'a str,
    /// What is told of that file where it would be written.
    pub read: &'static str,
    /// Whether one may take the place of another file.
    pub may_replace: bool,
}

impl Rules<'_> {
    /// Refuses the file that is read, and one that is there already, unless it may be replaced. Links to other files are not
    /// followed.
    pub fn check<R: Files>(&self, rt: &R, path: &str) -> Result<(), Stop> {
        let found = match fs::symlink_metadata(rt, path) {
            Ok(found) => found,
            Err(error) if error.kind() == ErrorKind::NotFound => return Ok(()),
            Err(error) => return Err(Stop::unwritten(path, &error)),
        };
        let source = self.source;
        let why = if is_same(&found, &fs::metadata(rt, source))
            || is_same(&found, &fs::symlink_metadata(rt, source))
        {
            self.read
        } else if !self.may_replace {
            "it is there already; --force replaces it"
        } else if !found.is_file() {
            "it is there already, and is no file of its own"
        } else {
            return Ok(());
        };
        Err(Stop::refused(path, &why))
    }
}

/// Whether that is what was found here.
fn is_same(found: &Metadata, other: &io::Result<Metadata>) -> bool {
    match other {
        Ok(other) => found.dev() == other.dev() && found.ino() == other.ino(),
        Err(_) => false,
    }
}

/// Writes a text beside its file, and puts it there once it is whole. Where that fails, nothing of it stays.
pub fn write_whole<R: Files + AllocGlobal>(rt: &R, path: &str, text: &[u8]) -> Result<(), Stop> {
    let beside = beside_of(rt.alloc(), path)?;
    let mut file = create(rt, beside.as_str())?;
    let written = file.write_all(text);
    put_in_place(rt, beside.as_str(), path, written)
}

/// The file beside this one, in which it is made.
pub fn beside_of(alloc: Global, path: &str) -> Result<String, AllocError> {
    format!(in alloc; "{path}.new")
}

/// Makes a file that is not there yet.
pub fn create<R: Files>(rt: &R, path: &str) -> Result<R::File, Stop> {
    match File::create_new(rt, path) {
        Ok(file) => Ok(file),
        Err(error) => Err(Stop::unwritten(path, &error)),
    }
}

/// Puts what was written beside a file in its place, or takes it away where that failed.
pub fn put_in_place<R: Files>(
    rt: &R,
    beside: &str,
    path: &str,
    written: io::Result<()>,
) -> Result<(), Stop> {
    let placed = match written {
        Ok(()) => fs::rename(rt, beside, path),
        Err(error) => Err(error),
    };
    if let Err(error) = placed {
        take_away(rt, beside);
        return Err(Stop::unwritten(path, &error));
    }
    Ok(())
}

/// Takes away a file that is not whole. What failed first is told, and not that this fails too.
pub fn take_away<R: Files>(rt: &R, path: &str) {
    let _ = fs::remove_file(rt, path);
}
