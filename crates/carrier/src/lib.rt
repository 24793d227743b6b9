// Carriers of transport packets: what every carrier does, and two of them.
#![tactic(auto)]

ghost use Rattle.std.specs.Prelude.{◌≡◌, [], ◌∷◌, length, is_some, OnErr, OnOk, nat_lt, slice_index_or};
ghost use Rattle.psi.specs.Packet.{Framed};
ghost use Rattle.carrier.specs.Meaning.{Meaning, Carried, vacant, number_of, refusal, refusal_in};

use psi::packet::LENGTH;
use std::fmt;

mod folded;
mod store;
mod strip;

pub use folded::Folded;
pub use strip::Strip;

// Why a put is refused.
#[derive(Clone, Copy, PartialEq, Eq, Debug)]
pub enum PutFault {
    // Not 188 bytes with the sync byte first.
    NoPacket = 15,
    // No place is free.
    NoPlace = 16,
}

impl PutFault {
    // The number of the refusal. A method and no `From`: `fault.number()` says which number it is, and `u8::from(fault)` does not.
    pub fn number(self) -> u8
        ensures { result ≡ number_of self }
    {
        self as u8
    }
}

impl fmt::Display for PutFault {
    ghost use Rattle.std.specs.Prelude.{◌++◌, Some, codes};
    ghost use Rattle.std.specs.Fmt.{decimal};
    ghost use Rattle.carrier.specs.Meaning.{number_of};

    ghost output = { λ fault. Some (codes "refused " ++ decimal (number_of fault)) };

    fn fmt<W: fmt::Write>(&self, f: &mut fmt::Formatter<W>) -> fmt::Result {
        write!(f, "refused {}", self.number())
    }
}

impl std::error::Error for PutFault {}

// Takes packets as long as it has a free place, and holds them in their order.
pub trait Carrier {
    // The packets that it holds, its free places and its capacity.
    ghost meaning: { Self → Meaning };

    // Holds one packet more. What is refused changes nothing.
    fn put(&mut self, packet: &[u8]) -> Result<(), PutFault>
        ensures answer { refusal_in result ≡ refusal packet.now (meaning self.old).free }
        ensures same { OnErr result (self.new ≡ self.old) }
        ensures taken { OnOk result (Carried (packet.now ∷ []) (meaning self.old) (meaning self.new)) };

    // Lets go of all packets: it is as it was when it was made.
    fn empty(&mut self)
        ensures { meaning self.new ≡ vacant (meaning self.old).capacity };

    // Copies packet `i`, counted from 0, into a place. Past the end it answers `None`, and the place stays as it is.
    // The place is the caller's: one equation says what stands in it, also past the end.
    fn read(&self, i: usize, place: &mut [u8; LENGTH]) -> Option<()>
        ensures test { is_some result ≡ nat_lt i (length (meaning self.now).packets) }
        ensures after { place.new ≡ slice_index_or (meaning self.now).packets i place.old };

    // How many places are free.
    fn free(&self) -> usize
        ensures { result ≡ (meaning self.now).free };

    // How many places an empty carrier has.
    fn capacity(&self) -> usize
        ensures { result ≡ (meaning self.now).capacity };

    // How many packets are held.
    fn held(&self) -> usize
        ensures { result ≡ length (meaning self.now).packets };
}

// Whether a carrier with so many free places takes these bytes.
pub(crate) fn admit(packet: &[u8], free: usize) -> Result<(), PutFault>
    ensures answer { refusal_in result ≡ refusal packet.now free }
    ensures framed { OnOk result (Framed packet.now) }
{
    if packet.len() != LENGTH || packet[0] != 0x47 {
        return Err(PutFault::NoPacket);
    }
    if free == 0 {
        return Err(PutFault::NoPlace);
    }
    Ok(())
}
