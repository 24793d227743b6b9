// A site: an adapter and its carriers.
ghost use Rattle.std.specs.Prelude.{◌<◌};

use crate::mounted::Mounted;
use adapter::Adapter;

pub mod calls;

// Carriers have the places 0 to 15.
#[derive(Clone, Copy)]
pub struct Place {
    index: u8,
    ghost within: { index < 16 },
}

#[derive(Drop)]
pub struct Site {
    pub adapter: Adapter,
    carriers: [Option<Mounted>; 16],
}
