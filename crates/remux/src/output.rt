// Where a frame's packets go: into a carrier, and its bytes into a file.
ghost use Rattle.std.specs.Prelude.{◌≤◌, ◌<◌};

use crate::fault::Fault;
use crate::sink::Sink;
use carrier::{Carrier, Folded, Strip};
use psi::packet::{Head, LENGTH};
use std::alloc::{AllocError, Global};

// Stuffing is the only packet of this PID that an adapter puts: the map lets none out under it.
const STUFFING_PID: u16 = 8191;

// Carriers whose bytes go to a file.
pub(crate) trait Emits: Carrier + Drop {
    // How many bytes stand behind each packet among those written.
    const BEHIND: u8;

    // An empty carrier over this memory.
    fn over(memory: Vec<u8>) -> Self;

    // The used bytes.
    fn written(&self) -> &[u8];
}

impl Emits for Strip {
    const BEHIND: u8 = 0;

    fn over(memory: Vec<u8>) -> Strip {
        Strip::new(memory)
    }

    fn written(&self) -> &[u8] {
        self.bytes()
    }
}

impl Emits for Folded {
    const BEHIND: u8 = 1;

    fn over(memory: Vec<u8>) -> Folded {
        Folded::new(memory)
    }

    fn written(&self) -> &[u8] {
        self.bytes()
    }
}

#[derive(Drop)]
pub(crate) struct Output<C: Emits> {
    pub(crate) carrier: C,
    sink: Sink,
}

impl<C: Emits> Output<C> {
    // With room for frames of so many slots.
    pub(crate) fn new(heap: Global, slots: u32, sink: Sink) -> Result<Output<C>, AllocError> {
        let memory = vec![in heap; 0u8; slots as usize * Output::<C>::piece()]?;
        Ok(Output {
            carrier: C::over(memory),
            sink,
        })
    }

    // How many bytes a packet takes that is not left out: its own, and at most 255 behind it.
    fn piece() -> usize
        ensures least { 188 ≤ result }
        ensures most { result < 444 }
    {
        LENGTH + usize::from(C::BEHIND)
    }

    // How many packets are in the carrier.
    pub(crate) fn held(&self) -> usize {
        self.carrier.held()
    }

    // How many of them are stuffing: those that are left out, and those among the bytes.
    pub(crate) fn stuffing(&self) -> usize {
        let pieces = self.carrier.written().chunks_exact(Output::<C>::piece());
        let left_out = self.carrier.held().saturating_sub(pieces.len());
        left_out.saturating_add(pieces.filter(|piece| is_stuffing(piece)).count())
    }

    // Puts the carrier's bytes into the file, and empties the carrier.
    pub(crate) fn emit(&mut self) -> Result<(), Fault> {
        self.sink.put(self.carrier.written())?;
        self.carrier.empty();
        Ok(())
    }

    // Writes all that was put into the file.
    pub(crate) fn flush(&mut self) -> Result<(), Fault> {
        self.sink.flush()
    }
}

// Whether stuffing is at the beginning of these bytes.
fn is_stuffing(piece: &[u8]) -> bool {
    let head = piece.get(..LENGTH).and_then(Head::of);
    head.is_some_and(|head| head.pid == STUFFING_PID)
}
