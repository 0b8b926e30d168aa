//! The files that results are written to, one for each action.
use crate::output::print_line;
use crate::stop::Stop;
use crate::whole_files::{Rules, write_whole};
use flow_outcome::{ActionResults, ResultsForm};
use std::alloc::{AllocError, Global};
use std::fs::Files;

/// Where results are written to.
#[derive(Clone, Copy)]
pub struct ResultFiles<'a> {
    pub folder: &'a str,
    /// Which files they may be written to.
    pub rules: Rules<'a>,
    pub form: ResultsForm,
}

impl ResultFiles<'_> {
    /// Writes what each action recorded to its file, and prints the name of the file. Nothing is written where two actions would
    /// have one file, or where one may not be written.
    pub fn write<R: Files + Print + AllocGlobal>(
        &self,
        rt: &R,
        results: &[ActionResults<'_>],
    ) -> Result<(), Stop> {
        let paths = self.free_paths(rt, results)?;
        for (path, action) in paths.iter().zip(results) {
            write_whole(rt, path.as_str(), &action.text)?;
            print_line(rt, path.as_str())?;
        }
        Ok(())
    }

    /// The files of these actions, in order, each of which may be written.
    fn free_paths<R: Files + AllocGlobal>(
        &self,
        rt: &R,
        results: &[ActionResults<'_>],
    ) -> Result<Vec<String>, Stop> {
        let mut paths = Vec::with_capacity(rt.alloc(), results.len())?;
        for action in results {
            let path = self.path_of(rt.alloc(), action.name)?;
            check_apart(path.as_str(), &paths)?;
            self.rules.check(rt, path.as_str())?;
            paths.push(path)?;
        }
        Ok(paths)
    }

    /// The file of the action with this name. None is hidden, and none looks like an option.
    fn path_of(&self, alloc: Global, name: &str) -> Result<String, AllocError> {
        let folder = self.folder;
        let mark = if name.starts_with(".") || name.starts_with("-") {
            "_"
        } else {
            ""
        };
        let ending = match self.form {
            ResultsForm::Csv | ResultsForm::NamedCsv => "csv",
            ResultsForm::JsonLines => "jsonl",
            ResultsForm::Json => "json",
        };
        format!(in alloc; "{folder}/{mark}{name}.{ending}")
    }
}

/// Refuses a file that would have the name of another, also where only the case of letters differs, which some file systems
/// do not see.
fn check_apart(path: &str, others: &[String]) -> Result<(), Stop> {
    for other in others {
        if other.as_str().eq_ignore_ascii_case(path) {
            return Err(Stop::refused(path, &"two actions would have this file"));
        }
    }
    Ok(())
}
