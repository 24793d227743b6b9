// A carrier of either kind.
ghost use Rattle.std.specs.Prelude.{◌≡◌, ◌/◌, IfOk};
ghost use Rattle.std.specs.Result.{result_ok};
ghost use Rattle.carrier.specs.Meaning.{vacant};
ghost use Rattle.sitelog.specs.Lines.{kind_in};
ghost use Rattle.sitelog.specs.Mounting.{mounted_meaning, place_bytes, mounted_bytes};

use crate::fault::LineFault;
use carrier::{Carrier, Folded, PutFault, Strip};
use std::alloc::{AllocError, Global};

#[derive(Clone, Copy)]
pub enum Kind {
    Strip,
    Folded,
}

impl<'a> TryFrom<&'a [u8]> for Kind {
    type Error = LineFault;

    ghost try_from_gives = { λ word kind. result_ok kind ≡ kind_in word.now };

    fn try_from(word: &'a [u8]) -> Result<Kind, LineFault> {
        match word {
            b"strip" => Ok(Kind::Strip),
            b"folded" => Ok(Kind::Folded),
            _ => Err(LineFault::NoKind),
        }
    }
}

// (Not a `dyn Carrier`: a site lends its carriers, and a boxed one can't be lent out of it.)
#[derive(Drop)]
pub enum Mounted {
    Strip(Strip),
    Folded(Folded),
}

impl Mounted {
    // An empty carrier of so many bytes.
    pub fn new(heap: Global, kind: Kind, bytes: usize) -> Result<Mounted, AllocError>
        ensures { IfOk result (λ m. mounted_meaning m ≡ vacant (bytes / place_bytes kind)) }
    {
        let bytes = vec![in heap; 0; bytes]?;
        Ok(match kind {
            Kind::Strip => Mounted::Strip(Strip::new(bytes)),
            Kind::Folded => Mounted::Folded(Folded::new(bytes)),
        })
    }

    // The used bytes.
    pub fn bytes(&self) -> &[u8]
        ensures { result.now ≡ mounted_bytes self.now }
    {
        match self {
            Mounted::Strip(strip) => strip.bytes(),
            Mounted::Folded(folded) => folded.bytes(),
        }
    }
}

impl Carrier for Mounted {
    ghost meaning = { mounted_meaning };

    fn put(&mut self, packet: &[u8]) -> Result<(), PutFault> {
        match self {
            Mounted::Strip(strip) => strip.put(packet),
            Mounted::Folded(folded) => folded.put(packet),
        }
    }

    fn empty(&mut self) {
        match self {
            Mounted::Strip(strip) => strip.empty(),
            Mounted::Folded(folded) => folded.empty(),
        }
    }

    fn read(&self, i: usize, place: &mut [u8; 188]) -> Option<()> {
        match self {
            Mounted::Strip(strip) => strip.read(i, place),
            Mounted::Folded(folded) => folded.read(i, place),
        }
    }

    fn free(&self) -> usize {
        match self {
            Mounted::Strip(strip) => strip.free(),
            Mounted::Folded(folded) => folded.free(),
        }
    }

    fn capacity(&self) -> usize {
        match self {
            Mounted::Strip(strip) => strip.capacity(),
            Mounted::Folded(folded) => folded.capacity(),
        }
    }

    fn held(&self) -> usize {
        match self {
            Mounted::Strip(strip) => strip.held(),
            Mounted::Folded(folded) => folded.held(),
        }
    }
}
