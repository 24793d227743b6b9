// What stops a run.
use crate::options::{Named, UsageFault};
use adapter::answer::Refusal;
use std::alloc::AllocError;
use std::io;
use thiserror::Error;

// What is wrong with a file.
#[derive(Debug, Drop, Error)]
pub(crate) enum FileFault {
    #[error(transparent)]
    Unusable(#[from] io::Error),
    #[error("empty")]
    Empty,
    #[error("neither 188-byte nor 192-byte packets")]
    NeitherKind,
    #[error("ends in the middle of the packet at byte {0}")]
    Cut(u64),
    // No sync byte stands where a packet begins.
    #[error("sync lost at byte {0}")]
    SyncLost(u64),
}

impl FileFault {
    // As the fault of a file that has this name.
    pub(crate) fn of(self, name: &String) -> Fault {
        // Both arms make a fault: `map_or_else` would need the result of `clone` bound with its type first.
        match name.clone() {
            Ok(name) => Fault::File(name, self),
            Err(error) => Fault::Memory(error),
        }
    }
}

#[derive(Debug, Drop, Error)]
pub(crate) enum Fault {
    #[error(transparent)]
    Usage(#[from] UsageFault),
    #[error("words of the call: {0}")]
    Words(io::Error),
    // The configuration's file, and the line that tells the refusal.
    #[error("{0}: {1}")]
    Config(String, String),
    #[error("{0} files for {1} parents")]
    Files(usize, usize),
    #[error("{0}: the configuration lists no parent {1}")]
    Unlisted(Named, usize),
    #[error("a frame cannot have {0} slots")]
    Slots(u64),
    #[error("{0} entries are too few")]
    Entries(u64),
    #[error("{0} is input and output")]
    Overwrites(String),
    #[error("{0}: {1}")]
    File(String, FileFault),
    // The adapter refused a record or a frame that it should take.
    #[error(transparent)]
    Refused(Refusal),
    // What is printed could not be printed.
    #[error("standard output: {0}")]
    Printing(#[from] io::Error),
    #[error("out of memory")]
    Memory(#[from(alloc)] AllocError),
}
