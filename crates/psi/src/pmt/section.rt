// The section of a PMT packet, as a part of the packet.
ghost use Rattle.std.specs.Prelude.{◌≡◌, ◌+◌, ◌-◌, ◌≤◌, true, false, ◌&&◌, length, MatchOption};
ghost use Rattle.psi.specs.Places.{written};
ghost use Rattle.psi.specs.Pmt.{fixed_part, right_crc, before_crc, info_length, SectionWritten};
ghost use Rattle.psi.specs.Sections.{section_length};

use crate::crc::crc32;
use crate::field::{ABOVE_LENGTH, ABOVE_PID, number_in, with_number};
use crate::lookup::out_of;
use crate::place::Place;
use crate::pmt::streams::put_streams;
use config::row::Row;

// PCR_PID of a service whose PCR has no row.
const NO_PCR: u16 = 8_191;

// The section that some bytes begin with, but for its CRC, if it is whole, its fixed part is as it has to be and its CRC is right.
pub(crate) fn whole_section(bytes: &[u8]) -> Option<&[u8]>
    ensures { MatchOption result ((fixed_part bytes.now && right_crc bytes.now) ≡ false) (λ s. ((fixed_part bytes.now && right_crc bytes.now) ≡ true) × (s.now ≡ before_crc bytes.now) × (12 + info_length s.now ≤ length s.now) × (length s.now ≤ 179)) }
{
    let (section, rest) = bytes.split_at(crc_place(bytes)?);
    let crc = u32::from_be_bytes(*rest.first_chunk()?);
    (crc32(section) == crc).then_some(section)
}

// Where the CRC of the section stands that some bytes begin with, if it is whole and its fixed part is as it has to be.
fn crc_place(bytes: &[u8]) -> Option<usize>
    ensures { MatchOption result (fixed_part bytes.now ≡ false) (λ place. (fixed_part bytes.now ≡ true) × (place ≡ section_length bytes.now - 1) × (place + 4 ≤ length bytes.now)) }
{
    let [
        0x02,
        high,
        low,
        _,
        _,
        _,
        0x00,
        0x00,
        _,
        _,
        info_high,
        info_low,
        ..
    ] = bytes
    else {
        return None;
    };
    let length = usize::from(number_in::<ABOVE_LENGTH>(*high, *low));
    if *high < 0x80 || length < 13 || length > 180 || length + 3 > bytes.len() {
        return None;
    }
    if usize::from(number_in::<ABOVE_LENGTH>(*info_high, *info_low)) + 13 > length {
        return None;
    }
    Some(length - 1)
}

// Writes a section as it leaves under a row, but for its section_length and its CRC. `None` where no streams fill its end exactly.
pub(crate) fn put_section(place: &mut Place, rows: &[Row], row: &Row, section: &[u8]) -> Option<()>
    requires { (12 + info_length section.now ≤ length section.now) × (place.old.len + length section.now ≤ 184) }
    ensures written { SectionWritten rows.now row.now (written place.old) section.now (written place.new) result }
    ensures len { (place.old.len + 12 ≤ place.new.len) × (place.new.len ≤ place.old.len + length section.now) }
{
    // The bytes are read by their places, since a pattern of all twelve would be longer.
    let pcr = number_in::<ABOVE_PID>(section[8], section[9]);
    let pcr_out = out_of(rows, row.parent, pcr).unwrap_or(NO_PCR);
    let [pcr_high, pcr_low] = with_number::<ABOVE_PID>(section[8], pcr_out);
    let [service_high, service_low] = row.service.to_be_bytes();
    place.put_all(&[
        0x02,
        section[1],
        section[2],
        service_high,
        service_low,
        section[5],
        0x00,
        0x00,
    ]);
    place.put_all(&[pcr_high, pcr_low, section[10], section[11]]);
    let info_length = number_in::<ABOVE_LENGTH>(section[10], section[11]);
    let (info, streams) = section[12..].split_at(usize::from(info_length));
    place.put_all(info);
    put_streams(place, rows, row.parent, streams)
}
