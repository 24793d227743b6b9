// Packets of the parents.
ghost use Rattle.std.specs.Prelude.{◌≡◌, ◌<◌, slice_set};
ghost use Rattle.psi.specs.Delivery.{meant};
ghost use Rattle.memory.specs.Memory.{lines_in, line_in, room_in, parents_in, OnlyLines};
ghost use Rattle.rules.specs.Calls.{Hears};
ghost use Rattle.adapter.specs.Answers.{hear_answer};
ghost use Rattle.adapter.specs.Keeping.{Keeps};
ghost use Rattle.adapter.specs.Parents.{stamp_of};
ghost use Rattle.adapter.specs.View.{view, setup_of, entries_of, KeptSetup};

use crate::answer::{Heard, Refusal};
use crate::state::Adapter;
use crate::times::Times;
use crate::times::stamp::stamp;
use memory::Memory;
use psi::delivery::{Delivered, deliver};
use rules::entry::Entry;

// What becomes of a packet that was taken: it waits, if it arrives in time and the map delivers it.
fn keep(
    memory: &mut Memory<Entry>,
    parent: usize,
    times: &Times,
    delivered: Delivered,
) -> Result<Heard, Refusal>
    requires { parent < parents_in memory.old }
    ensures rule { Keeps (stamp_of times.now) (meant delivered) (room_in memory.old) (line_in memory.old parent) (hear_answer result) (line_in memory.new parent) }
    ensures lines { lines_in memory.new ≡ slice_set (lines_in memory.old) parent (line_in memory.new parent) }
    ensures rest { OnlyLines memory.old memory.new }
{
    if times.comes_early() {
        return Ok(Heard::PassedOver);
    }
    match delivered {
        Delivered::Unmapped => Ok(Heard::PassedOver),
        Delivered::Unpatchable => Ok(Heard::Dropped),
        Delivered::Deliverable(row, bytes) => {
            let entry = Entry {
                arrival: times.heard_to(),
                row,
                bytes,
            };
            memory
                .hold(parent, entry)
                .map(|_| Heard::Held)
                .map_err(|_| Refusal::FullLine)
        }
    }
}

impl Adapter {
    // A packet of a parent, handed with its time or with none.
    pub fn hear(
        &mut self,
        parent: usize,
        packet: &[u8],
        time: Option<u64>,
    ) -> Result<Heard, Refusal>
        ensures rule { Hears (setup_of self.old) (entries_of self.old) (view self.old) parent packet.now time (hear_answer result) (view self.new) }
        ensures same { KeptSetup self.old self.new }
    {
        self.listed(parent)?;
        let Ok(delivered) = deliver(&self.config, parent as u8, packet) else {
            self.forget(parent);
            return Err(Refusal::BadPacket);
        };
        let rate = self.config.rates()[parent];
        let known = self.heard[parent];
        let Ok(stamped) = stamp(known, time, rate) else {
            self.forget(parent);
            return Err(Refusal::Untimely);
        };
        let Some(times) = stamped else {
            return Ok(Heard::PassedOver);
        };
        let heard = keep(&mut self.memory, parent, &times, delivered)?;
        self.heard[parent] = Some(times);
        Ok(heard)
    }
}
