// A place for one packet: it is written from the front on, and holds 0xFF behind what is written.
// An array with a length, since the array is the packet once it is written.
ghost use Rattle.std.specs.Prelude.{◌≡◌, ◌-◌, ◌≤◌, length, drop, replicate};

use crate::packet::LENGTH;

pub(crate) mod writes;

#[derive(Drop)]
pub(crate) struct Place {
    bytes: [u8; LENGTH],
    len: usize,
    ghost within: { len ≤ 188 },
    ghost long: { length bytes ≡ 188 },
    ghost blank: { drop len bytes ≡ replicate (188 - len) 0xFF },
}
