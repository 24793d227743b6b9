// The elementary streams of a PMT section, as a part of the section.
ghost use Rattle.std.specs.Prelude.{◌≡◌, ◌+◌, ◌<◌, ◌≤◌, ◌++◌, length, take, drop, MatchOption};
ghost use Rattle.psi.specs.Packet.{with_pid};
ghost use Rattle.psi.specs.Places.{written};
ghost use Rattle.psi.specs.Pmt.{stream_length, streams_of, StreamsWritten};

use crate::field::{ABOVE_LENGTH, ABOVE_PID, number_in, with_number};
use crate::lookup::out_of;
use crate::place::Place;
use config::row::Row;

// Writes each stream under the PID that it leaves with, and none that has no row. `None` where no streams fill the bytes exactly.
pub(crate) fn put_streams(place: &mut Place, rows: &[Row], parent: u8, bytes: &[u8]) -> Option<()>
    requires { place.old.len + length bytes.now ≤ 184 }
    ensures written { StreamsWritten rows.now parent (written place.old) (streams_of bytes.now) (written place.new) result }
    ensures len { (place.old.len ≤ place.new.len) × (place.new.len ≤ place.old.len + length bytes.now) }
{
    // How far a stream reaches is written in it, so no iterator cuts the bytes beforehand.
    let mut rest = bytes;
    while !rest.is_empty() {
        let (stream, after) = split_stream(rest)?;
        let pid = number_in::<ABOVE_PID>(stream[1], stream[2]);
        if let Some(out) = out_of(rows, parent, pid) {
            put_stream(place, stream, out);
        }
        rest = after;
    }
    Some(())
}

// The stream at the front of some bytes, and what is behind it.
fn split_stream(bytes: &[u8]) -> Option<(&[u8], &[u8])>
    ensures { MatchOption result (length bytes.now < stream_length bytes.now) (λ parts. (stream_length bytes.now ≤ length bytes.now) × (parts.0.now ≡ take (stream_length bytes.now) bytes.now) × (parts.1.now ≡ drop (stream_length bytes.now) bytes.now)) }
{
    let [_, _, _, high, low, ..] = bytes else {
        return None;
    };
    bytes.split_at_checked(5 + usize::from(number_in::<ABOVE_LENGTH>(*high, *low)))
}

// Writes a stream with another PID.
fn put_stream(place: &mut Place, stream: &[u8], pid: u16)
    requires { (5 ≤ length stream.now) × (place.old.len + length stream.now ≤ 188) }
    ensures written { written place.new ≡ written place.old ++ with_pid pid stream.now }
    ensures len { place.new.len ≡ place.old.len + length stream.now }
{
    let [high, low] = with_number::<ABOVE_PID>(stream[1], pid);
    place.put_all(&[stream[0], high, low]);
    place.put_all(&stream[3..]);
}
