// Packets taken from a parent: between losses they are to follow one another in one stream, at both sites.
use crate::account::Taken;
use std::alloc::{AllocError, Global};

// A packet among all that were taken.
#[derive(Clone, Copy)]
struct Spot<'a> {
    taken: &'a Taken,
    // Whether it is the last that was taken between two losses. (Of the next packet at the same site, which is not the
    // next here, where those of both sites stand in one order.)
    ends: bool,
}

fn note<'a>(spots: &mut Vec<Spot<'a>>, taken: &'a [Taken]) -> Result<(), AllocError> {
    for (index, packet) in taken.iter().enumerate() {
        let ends = taken.get(index + 1).is_none_or(|next| next.begins);
        spots.push(Spot {
            taken: packet,
            ends,
        })?;
    }
    Ok(())
}

// How many stretches between losses the moments so far have left open.
#[derive(Clone, Copy)]
struct Open {
    count: usize,
    // Of the moment at hand: the stretches with a packet there, and those that end with it.
    present: usize,
    ending: usize,
}

impl Open {
    fn meet(&mut self, spot: &Spot) {
        if spot.taken.begins {
            self.count = self.count.saturating_add(1);
        }
        if spot.ends {
            self.ending = self.ending.saturating_add(1);
        }
        self.present = self.present.saturating_add(1);
    }

    // Whether every stretch that is open at the moment has a packet there; the next moment comes.
    fn pass(&mut self) -> bool {
        let all = self.present == self.count;
        self.count = self.count.saturating_sub(self.ending);
        self.present = 0;
        self.ending = 0;
        all
    }
}

impl Taken {
    // Whether two packets are equal, with the same time or none.
    fn is_same(&self, other: &Taken) -> bool {
        self.time == other.time && self.bytes == other.bytes
    }
}

// The first moment, in order of arrival, at which the packets are not those of one stream. (A loop: `open` and the packet
// before go from each step to the next, and the last moment is looked at behind it.)
fn first_break(spots: &[Spot]) -> Option<u64> {
    let mut open = Open {
        count: 0,
        present: 0,
        ending: 0,
    };
    let mut last: Option<&Taken> = None;
    for spot in spots {
        if let Some(before) = last {
            if before.arrival != spot.taken.arrival {
                if !open.pass() {
                    return Some(before.arrival);
                }
            } else if !before.is_same(spot.taken) {
                return Some(spot.taken.arrival);
            }
        }
        open.meet(spot);
        last = Some(spot.taken);
    }
    match last {
        Some(before) if !open.pass() => Some(before.arrival),
        _ => None,
    }
}

// The first arrival at which the packets that two logs took from a parent do not fit in one stream.
pub(crate) fn broken_at(
    heap: Global,
    first: &[Taken],
    second: &[Taken],
) -> Result<Option<u64>, AllocError> {
    let mut spots = Vec::new(heap);
    note(&mut spots, first)?;
    note(&mut spots, second)?;
    spots.sort_by_key(|spot| spot.taken.arrival)?;
    Ok(first_break(spots.as_slice()))
}
