// Writing a packet.
ghost use Rattle.std.specs.Prelude.{◌≡◌, ◌+◌, ◌≤◌, [], ◌++◌, length, take, drop};
ghost use Rattle.psi.specs.Packet.{filled};
ghost use Rattle.psi.specs.Places.{written};
ghost use Rattle.psi.specs.Sections.{closed, with_length};

use crate::crc::crc32;
use crate::field::{ABOVE_LENGTH, with_number};
use crate::packet::LENGTH;
use crate::place::Place;

impl Place {
    pub(crate) fn new() -> Place
        ensures written { written result ≡ [] }
        ensures len { result.len ≡ 0 }
    {
        Place {
            bytes: [0xff; LENGTH],
            len: 0,
        }
    }

    // Writes some bytes more.
    pub(crate) fn put_all(&mut self, more: &[u8])
        requires { self.old.len + length more.now ≤ 188 }
        ensures written { written self.new ≡ written self.old ++ more.now }
        ensures len { self.new.len ≡ self.old.len + length more.now }
    {
        let start = self.len;
        let end = start + more.len();
        self.bytes[start..end].copy_from_slice(more);
        self.len = end;
    }

    // Closes the section from byte 5 on: sets its section_length, and writes its CRC.
    pub(crate) fn close(&mut self)
        requires { (8 ≤ self.old.len) × (self.old.len ≤ 184) }
        ensures { written self.new ≡ closed (written self.old) }
    {
        self.set_length();
        let crc = crc32(&self.bytes[5..self.len]);
        self.put_all(&crc.to_be_bytes());
    }

    // Sets the section_length of the section from byte 5 on, for what is written and a CRC.
    #[tactic(auto, using(crate::proofs::Placing::length_written))]
    fn set_length(&mut self)
        requires { (8 ≤ self.old.len) × (self.old.len ≤ 184) }
        ensures written { written self.new ≡ take 5 (written self.old) ++ with_length (drop 5 (written self.old)) }
        ensures len { self.new.len ≡ self.old.len }
    {
        let length = (self.len - 4) as u16;
        [self.bytes[6], self.bytes[7]] = with_number::<ABOVE_LENGTH>(self.bytes[6], length);
    }

    // The packet, with 0xFF behind what is written.
    pub(crate) fn finish(self) -> [u8; LENGTH]
        ensures { result ≡ filled (written self) }
    {
        self.bytes
    }
}
