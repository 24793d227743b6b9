// The file that the multiplex goes to, written in large blocks.
use crate::fault::{Fault, FileFault};
use std::fs::File;
use std::io::Write;
use std::{fs, io};

const BLOCK: usize = 262_144;

// A `BufWriter` in its place would keep a frame that does not fit until the next one comes, try again what could not be
// written, and be made only once the file is there.
#[derive(Drop)]
pub(crate) struct Sink {
    name: String,
    file: File,
    // What is still to be written, never more than a block.
    block: Vec<u8>,
}

impl Sink {
    // A new file, in the place of one that has this name.
    pub(crate) fn create(rt: &HostRuntime, name: String) -> Result<Sink, Fault> {
        let block = Vec::with_capacity(rt.alloc(), BLOCK)?;
        match fs::create(rt, name.as_str()) {
            Ok(file) => Ok(Sink { name, file, block }),
            Err(error) => Err(Fault::File(name, FileFault::from(error))),
        }
    }

    // Puts bytes behind all that were put before: into the block, or where it has no room for them into the file.
    pub(crate) fn put(&mut self, bytes: &[u8]) -> Result<(), Fault> {
        if bytes.len() > BLOCK.saturating_sub(self.block.len()) {
            self.flush()?;
            let written = self.file.write_all(bytes);
            return self.told(written);
        }
        self.block.extend_from_slice(bytes)?;
        Ok(())
    }

    // Writes all that was put. What could not be written is gone.
    pub(crate) fn flush(&mut self) -> Result<(), Fault> {
        let written = self.file.write_all(self.block.as_slice());
        self.block.clear();
        self.told(written)
    }

    // A write's error as a fault of this file.
    fn told(&self, written: io::Result<()>) -> Result<(), Fault> {
        written.map_err(|error| FileFault::from(error).of(&self.name))
    }
}
