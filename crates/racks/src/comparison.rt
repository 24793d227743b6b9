// Frames that both sites added, packet by packet.
use agreement::{Added, differ_at};
use sitelog::hex::Hex;
use std::alloc::{AllocError, Global};
use std::fmt;

// A packet has so many bytes.
const PACKET: usize = 188;
// So many differences are shown.
const SHOWN: usize = 10;

#[derive(Drop)]
pub(crate) struct Difference {
    pub(crate) frame: u32,
    pub(crate) slot: usize,
    pub(crate) one: Vec<u8>,
    pub(crate) other: Vec<u8>,
}

#[derive(Drop)]
pub(crate) struct Differences {
    pub(crate) shown: Vec<Difference>,
    // How many more there are.
    pub(crate) more: usize,
}

impl fmt::Display for Difference {
    fn fmt<W: fmt::Write>(&self, f: &mut fmt::Formatter<W>) -> fmt::Result {
        writeln!(f, "difference frame {} slot {}", self.frame, self.slot)?;
        writeln!(f, "{}", Hex(self.one.as_slice()))?;
        writeln!(f, "{}", Hex(self.other.as_slice()))
    }
}

impl fmt::Display for Differences {
    fn fmt<W: fmt::Write>(&self, f: &mut fmt::Formatter<W>) -> fmt::Result {
        for difference in self.shown.iter() {
            write!(f, "{difference}")?;
        }
        if self.more > 0 {
            writeln!(f, ".. and {} more", self.more)?;
        }
        Ok(())
    }
}

// The packet in a slot; nothing behind the last.
fn packet(packets: &[u8], slot: usize) -> &[u8] {
    let from = slot.saturating_mul(PACKET).min(packets.len());
    let to = from.saturating_add(PACKET).min(packets.len());
    &packets[from..to]
}

impl Differences {
    fn add(
        &mut self,
        heap: Global,
        frame: u32,
        slot: usize,
        one: &[u8],
        other: &[u8],
    ) -> Result<(), AllocError> {
        if self.shown.len() >= SHOWN {
            self.more = self.more.saturating_add(1);
            return Ok(());
        }
        self.shown.push(Difference {
            frame,
            slot,
            one: one.to_vec(heap)?,
            other: other.to_vec(heap)?,
        })?;
        Ok(())
    }

    // Two frames of one number, from the first slot at which they differ on.
    fn add_frames(&mut self, heap: Global, x: &Added, y: &Added) -> Result<(), AllocError> {
        let Some(first) = differ_at(x, y) else {
            return Ok(());
        };
        let slots = x.packets.len().max(y.packets.len()).div_ceil(PACKET);
        for slot in first..slots {
            let one = packet(x.packets.as_slice(), slot);
            let other = packet(y.packets.as_slice(), slot);
            if one != other {
                self.add(heap, x.number, slot, one, other)?;
            }
        }
        Ok(())
    }

    // A frame against those of the other site.
    fn add_against(&mut self, heap: Global, x: &Added, second: &[Added]) -> Result<(), AllocError> {
        for y in second.iter().filter(|y| y.number == x.number) {
            self.add_frames(heap, x, y)?;
        }
        Ok(())
    }

    pub(crate) fn between(
        heap: Global,
        first: &[Added],
        second: &[Added],
    ) -> Result<Differences, AllocError> {
        let mut all = Differences {
            shown: Vec::new(heap),
            more: 0,
        };
        for x in first {
            all.add_against(heap, x, second)?;
        }
        Ok(all)
    }
}
