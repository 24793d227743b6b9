// Why a program that reads site logs stops before it is done.
ghost use Rattle.std.specs.Prelude.{IfErr};
ghost use Rattle.sitelog.specs.Stops.{TellsOf, IsIo};

use crate::fault::Fault;
use std::alloc::AllocError;
use std::fs::File;
use std::{fmt, fs, io};

#[derive(Drop)]
pub enum Stop {
    // The arguments are wrong.
    Usage,
    // The configuration is refused: the line that says so.
    Refused(String),
    // A file could not be read.
    File(String, io::Error),
    // A line of a log is at fault, by the log's name where there is more than one. Lines count from 1.
    Line {
        log: Option<String>,
        number: u64,
        fault: Fault,
    },
    // Something else could not be read, or what there is to tell could not be printed.
    Io(io::Error),
}

impl From<io::Error> for Stop {
    fn from(error: io::Error) -> Stop {
        Stop::Io(error)
    }
}

impl From<AllocError> for Stop {
    ghost from_gives = { λ _ stop. IsIo stop };

    fn from(error: AllocError) -> Stop {
        Stop::Io(io::Error::from(error))
    }
}

impl fmt::Display for Stop {
    fn fmt<W: fmt::Write>(&self, f: &mut fmt::Formatter<W>) -> fmt::Result {
        match self {
            Stop::Usage => f.write_str("wrong arguments"),
            Stop::Refused(line) => write!(f, "{line}"),
            Stop::File(path, error) => write!(f, "{path}: {error}"),
            Stop::Line { log, number, fault } => {
                if let Some(log) = log {
                    write!(f, "{log} ")?;
                }
                write!(f, "line {number}: {fault}")
            }
            Stop::Io(error) => write!(f, "{error}"),
        }
    }
}

// Opens a file to be read. What the file has is the system's; a fault tells which file it is.
// (The closure of a `try_map_err` would have to say again whose path it tells.)
pub fn open(rt: &HostRuntime, path: &str) -> Result<File, Stop>
    ensures { IfErr result (TellsOf path.now) }
{
    match fs::open(rt, path) {
        Ok(file) => Ok(file),
        Err(error) => Err(Stop::File(String::from_str(rt.alloc(), path)?, error)),
    }
}
