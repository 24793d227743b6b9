// A parent's file, read block by block and handed piece by piece.
use crate::fault::FileFault;
use feed::file::FileKind;
use std::alloc::AllocError;
use std::fs::File;
use std::io::{ErrorKind, Read};
use std::{fs, io};

// Whole pieces of either kind: a multiple of 188 and of 192.
const BLOCK: usize = 9_024 * 32;

#[derive(Drop)]
pub(crate) struct Source {
    file: File,
    kind: FileKind,
    // Filled to its end where the file has not ended, so that no piece reaches over it. A `BufReader` does not promise
    // that, and `read_to_end` would write zeros over the block before each reading, which costs a fifth more instructions.
    block: Vec<u8>,
    // How many bytes of the block are the file's, and where the next piece begins.
    filled: usize,
    at: usize,
    // How many pieces were passed.
    passed: u64,
}

impl Source {
    // Opens a file and sees of which kind it is.
    pub(crate) fn open(rt: &HostRuntime, path: &str) -> Result<Source, FileFault> {
        let mut file = fs::open(rt, path)?;
        let block: Result<Vec<u8>, AllocError> = vec![in rt.alloc(); 0u8; BLOCK];
        let mut block = block.map_err(io::Error::from)?;
        let filled = fill(&mut file, block.as_mut_slice())?;
        if filled == 0 {
            return Err(FileFault::Empty);
        }
        let head = block.as_slice().get(..filled).unwrap_or(&[]);
        let kind = FileKind::of(head).ok_or(FileFault::NeitherKind)?;
        Ok(Source {
            file,
            kind,
            block,
            filled,
            at: 0,
            passed: 0,
        })
    }

    pub(crate) fn kind(&self) -> FileKind {
        self.kind
    }

    // How many pieces were passed: the index of the next one.
    pub(crate) fn passed(&self) -> u64 {
        self.passed
    }

    // How many bytes of the block were not passed.
    fn left(&self) -> usize {
        self.filled.saturating_sub(self.at)
    }

    // Whether another piece is there; it reads on where it has to.
    pub(crate) fn has_next(&mut self) -> io::Result<bool> {
        if self.left() == 0 {
            self.filled = fill(&mut self.file, self.block.as_mut_slice())?;
            self.at = 0;
        }
        Ok(self.left() >= self.kind.length())
    }

    // The next piece, where one is there.
    pub(crate) fn piece(&self) -> &[u8] {
        self.part(self.at)
    }

    // The packet at its end.
    pub(crate) fn packet(&self) -> &[u8] {
        self.part(self.at.saturating_add(self.kind.lead()))
    }

    // The next piece from a place on; nothing where none is there.
    fn part(&self, from: usize) -> &[u8] {
        let end = self.at.saturating_add(self.kind.length());
        self.block.as_slice().get(from..end).unwrap_or(&[])
    }

    pub(crate) fn pass(&mut self) {
        self.at = self.at.saturating_add(self.kind.length());
        self.passed = self.passed.saturating_add(1);
    }

    // Where the next piece begins in the file.
    fn offset(&self) -> u64 {
        self.passed.saturating_mul(self.kind.length() as u64)
    }

    // Where the packet in it begins.
    pub(crate) fn packet_offset(&self) -> u64 {
        self.offset().saturating_add(self.kind.lead() as u64)
    }

    // Where the packet begins in whose middle the file ends, once all before it was passed.
    pub(crate) fn cut(&self) -> Option<u64> {
        (1..self.kind.length())
            .contains(&self.left())
            .then(|| self.offset())
    }
}

// Reads until the block is full or the file ends.
fn fill(file: &mut File, block: &mut [u8]) -> io::Result<usize> {
    let mut filled = 0;
    // A count of turns, since the check does not know that a file ends.
    for _ in 0..u64::MAX {
        if filled >= block.len() {
            break;
        }
        match file.read(&mut block[filled..]) {
            Ok(0) => break,
            Ok(count) => filled += count,
            Err(error) if error.kind() == ErrorKind::Interrupted => {}
            Err(error) => return Err(error),
        }
    }
    Ok(filled)
}
