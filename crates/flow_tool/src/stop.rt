//! Why a command ends before its work is done: a line for standard error, and a status. Names of files have escapes there.
ghost use Rattle.std.specs.Prelude.{◌≡◌, ◌≢◌};
ghost use Rattle.std.specs.IoError.{error_kind};

use anyhow::anyhow;
use flow_spans::Escaped;
use flow_text::{TextFault, TextRefusal};
use std::alloc::{AllocError, AllocFailed, Global};
use std::fmt::Display;
use std::io;
use std::io::{ErrorKind, Write};

/// Why a command ends before its work is done.
#[derive(Drop)]
pub struct Stop {
    status: u8,
    why: anyhow::Error,
}

impl Stop {
    /// The arguments are not those of a command.
    pub fn usage(why: &str) -> Stop {
        Stop {
            status: 2,
            why: anyhow!("{why}"),
        }
    }

    /// Something that was read is refused: this is wrong with the file of this name.
    pub fn refused(path: &str, why: &impl Display) -> Stop {
        let path = Escaped(path);
        Stop {
            status: 2,
            why: anyhow!("{path}: {why}"),
        }
    }

    /// The file of this name could not be written.
    pub fn unwritten(path: &str, error: &io::Error) -> Stop {
        let path = Escaped(path);
        let failed = Stop {
            status: 5,
            why: anyhow!("{path}: {error}"),
        };
        failed.unless_memory(error)
    }

    /// Standard output failed.
    pub fn no_output() -> Stop {
        Stop {
            status: 5,
            why: anyhow!("standard output failed"),
        }
    }

    /// Standard output failed with this error.
    pub fn unprinted(error: &io::Error) -> Stop {
        Stop::no_output().unless_memory(error)
    }

    /// What was asked for can't be done, and the program ends with this status.
    pub fn with_status(status: u8, why: &impl Display) -> Stop
        ensures { result.status ≡ status }
    {
        Stop {
            status,
            why: anyhow!("{why}"),
        }
    }

    /// A network or its records were refused, with the status that a run has then.
    pub fn of_text(path: &str, refusal: TextRefusal) -> Stop {
        let status = match refusal {
            TextRefusal::Fault(TextFault::Read | TextFault::Write) => 5,
            TextRefusal::Fault(_) => 2,
            TextRefusal::Memory => return Stop::from(AllocError),
        };
        let path = Escaped(path);
        Stop {
            status,
            why: anyhow!("{path}: {refusal}"),
        }
    }

    /// This end, or that there was no memory where a call failed for that.
    pub fn unless_memory(self, error: &io::Error) -> Stop
        ensures memory { error_kind error.now ≡ ErrorKind.OutOfMemory → result.status ≡ 4 }
        ensures other { error_kind error.now ≢ ErrorKind.OutOfMemory → result ≡ self }
    {
        if error.kind() == ErrorKind::OutOfMemory {
            Stop::from(AllocError)
        } else {
            self
        }
    }

    /// The first lines of what clap says of arguments, as one line.
    pub fn of_arguments(alloc: Global, error: &clap::Error) -> Result<Stop, AllocError> {
        let text = error.to_string(alloc)?;
        let text = text.as_str();
        let text = text.strip_prefix("error: ").unwrap_or(text);
        let mut line = String::new(alloc);
        for part in text.lines() {
            if part.is_empty() {
                break;
            }
            if !line.is_empty() {
                line.push_str(" ")?;
            }
            line.push_str(part.trim())?;
        }
        Ok(Stop::usage(line.as_str()))
    }

    /// The status that the program ends with.
    pub fn status(&self) -> u8 {
        self.status
    }

    /// Writes the line that standard error gets.
    pub fn tell<W: Write>(&self, writer: &mut W) -> io::Result<()> {
        let why = &self.why;
        writeln!(writer, "flow: {why}")
    }
}

impl From<AllocError> for Stop {
    ghost from_gives = { λ _ stop. stop.status ≡ 4 };

    fn from(_error: AllocError) -> Stop {
        Stop::with_status(4, &"memory")
    }
}

impl<T: Drop> From<AllocFailed<T>> for Stop {
    ghost from_gives = { λ _ stop. stop.status ≡ 4 };

    fn from(_error: AllocFailed<T>) -> Stop {
        Stop::with_status(4, &"memory")
    }
}

impl From<io::Error> for Stop {
    fn from(error: io::Error) -> Stop {
        Stop::with_status(5, &error).unless_memory(&error)
    }
}
