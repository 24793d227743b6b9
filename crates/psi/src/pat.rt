// The PAT of the multiplex: one packet that lists the services of the map.
ghost use Rattle.std.specs.Prelude.{◌≡◌, ◌+◌, ◌*◌, ◌%◌, ◌≤◌, ◌++◌, if◌then◌else◌, Some, None, nat_le};
ghost use Rattle.config.specs.Rows.{pmts};
ghost use Rattle.config.specs.Setup.{setup};
ghost use Rattle.psi.specs.Packet.{Framed};
ghost use Rattle.psi.specs.Pat.{program_entry, programs, pat_packet, pat_copy, pairs_of, services};
ghost use Rattle.psi.specs.Places.{written};

use crate::field::{ABOVE_PID, with_number};
use crate::packet::LENGTH;
use crate::place::Place;
use config::row::{Kind, Row};
use config::table::Config;

// How many services one PAT packet has room for.
const MOST: usize = 42;

// PAT copy `copy` of frame `frame`. It reads back as the `pmt` rows' services and outs.
pub fn pat_copy(config: &Config, frame: u32, copy: u32) -> [u8; LENGTH]
    ensures value { result ≡ pat_copy (setup config.now) frame copy }
    ensures framed { Framed result }
    ensures reads { pairs_of result ≡ services (setup config.now).rows }
{
    let counter = (u64::from(frame) * u64::from(config.copies()) + u64::from(copy)) % 16;
    pat(counter as u8, config.tsid(), config.rows()).unwrap()
}

// A PAT packet with a continuity counter (of which the low 4 bits are taken), or `None` where the `pmt` rows are more than 42.
pub fn pat(counter: u8, tsid: u16, rows: &[Row]) -> Option<[u8; LENGTH]>
    ensures { result ≡ (if nat_le (pmts rows.now) 42 then Some (pat_packet (counter % 16) tsid rows.now) else None) }
{
    if services_in(rows) > MOST {
        return None;
    }
    let [tsid_high, tsid_low] = tsid.to_be_bytes();
    let mut place = Place::new();
    place.put_all(&[0x47, 0x40, 0x00, 0x10 + counter % 16, 0x00]);
    place.put_all(&[0x00, 0xb0, 0x00, tsid_high, tsid_low, 0xc1, 0x00, 0x00]);
    put_programs(&mut place, rows);
    place.close();
    Some(place.finish())
}

// How many of the rows are `pmt` rows.
#[tactic(auto, using(crate::proofs::Pats::pmts_counted))]
fn services_in(rows: &[Row]) -> usize
    ensures { result ≡ pmts rows.now }
{
    rows.iter().filter(|row| row.kind == Kind::Pmt).count()
}

// Writes the entry of each `pmt` row.
fn put_programs(place: &mut Place, rows: &[Row])
    requires { place.old.len + 4 * pmts rows.now ≤ 184 }
    ensures written { written place.new ≡ written place.old ++ programs rows.now }
    ensures len { place.new.len ≡ place.old.len + 4 * pmts rows.now }
{
    for row in rows {
        if row.kind == Kind::Pmt {
            place.put_all(&entry_of(row));
        }
    }
}

// The entry of a `pmt` row: program_number, three reserved ones, program_map_PID.
fn entry_of(row: &Row) -> [u8; 4]
    ensures { result ≡ program_entry row.now }
{
    let [service_high, service_low] = row.service.to_be_bytes();
    let [out_high, out_low] = with_number::<ABOVE_PID>(0xe0, row.out);
    [service_high, service_low, out_high, out_low]
}
