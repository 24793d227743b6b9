// PMT packets, and patching them.
ghost use Rattle.std.specs.Prelude.{◌≡◌, true, false, length, drop, IfSome, MatchOption};
ghost use Rattle.psi.specs.Packet.{Framed};
ghost use Rattle.psi.specs.Patchable.{Patches, PatchedAgain};
ghost use Rattle.psi.specs.Pmt.{patched, opens};

use crate::field::{ABOVE_PID, with_number};
use crate::packet::{Adaptation, Head, LENGTH};
use crate::place::Place;
use config::row::Row;

mod section;
mod streams;

use section::{put_section, whole_section};

// A packet under a `pmt` row as it leaves: patched; or `None` for one that is not patchable. Under a row and a table that keep its PIDs a patched
// packet is patchable again, and stays as it is.
#[tactic(auto, using(crate::proofs::Again::told, crate::proofs::Shapes::unopened, crate::proofs::Shapes::unsound, crate::proofs::Shapes::unfilled))]
pub fn patch(rows: &[Row], row: &Row, packet: &[u8]) -> Option<[u8; LENGTH]>
    ensures value { result ≡ patched rows.now row.now packet.now }
    ensures framed { IfSome result Framed }
    ensures shape { Patches rows.now row.now packet.now result }
    ensures again { IfSome result (PatchedAgain rows.now row.now) }
{
    let section = whole_section(opened(packet)?)?;
    let [out_high, out_low] = with_number::<ABOVE_PID>(packet[1], row.out);
    let mut place = Place::new();
    place.put_all(&[0x47, out_high, out_low, packet[3], 0x00]);
    put_section(&mut place, rows, row, section)?;
    place.close();
    Some(place.finish())
}

// What follows the pointer of a packet in which a section starts there: payload start, unscrambled, payload only, pointer 0.
#[tactic(auto, using(crate::proofs::Packets::head_bad, crate::proofs::Shapes::opens_not, crate::proofs::Packets::good_parts))]
fn opened(packet: &[u8]) -> Option<&[u8]>
    ensures { MatchOption result (opens packet.now ≡ false) (λ bytes. (opens packet.now ≡ true) × (bytes.now ≡ drop 5 packet.now) × (length packet.now ≡ 188)) }
{
    let head = Head::of(packet)?;
    let [_, _, _, _, 0x00, bytes @ ..] = packet else {
        return None;
    };
    if !head.start || head.scrambling != 0 || head.adaptation != Adaptation::Payload {
        return None;
    }
    Some(bytes)
}
