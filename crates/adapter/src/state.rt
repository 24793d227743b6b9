// What an adapter keeps.
ghost use Rattle.std.specs.Prelude.{◌≡◌, ℕ, min, length, None, vec_len, slice_index_or};
ghost use Rattle.config.specs.Setup.{setup};
ghost use Rattle.memory.specs.Memory.{parents_in, size_in, room_in, entries_in, line_in};
ghost use Rattle.rules.specs.State.{line_room};
ghost use Rattle.adapter.specs.Fields.{state_from, Reached};

use crate::records::Records;
use crate::step::Step;
use crate::times::Times;
use config::table::Config;
use memory::Memory;
use rules::entry::Entry;

mod framed;
mod heard;
pub(crate) mod lines;
mod lost;
mod made;
mod recorded;

// An adapter: made from a checked configuration and its memory, which it keeps.
// That each call keeps them is a clause of each, `KeptSetup`: a ghost field speaks of one moment only.
#[derive(Drop)]
pub struct Adapter {
    config: Config,
    // The backlog and the parents' lines.
    memory: Memory<Entry>,
    // What is known of each parent; nothing of one that has no anchor. A fixed array: no call allocates.
    heard: [Option<Times>; 4],
    records: Records,
    step: Step,
    ghost places: { length heard ≡ 4 },
    // The memory is shared out as the configuration says.
    ghost parents: { parents_in memory ≡ vec_len config.rates },
    ghost size: { size_in memory ≡ min config.settings.backlog (entries_in memory) },
    ghost room: { room_in memory ≡ line_room (setup config) (entries_in memory) },
    // Nothing waits in the line of a parent without anchor.
    ghost quiet: { (p : ℕ) → slice_index_or heard p None ≡ None → length (line_in memory p) ≡ 0 },
    // It is as some complete log leaves it.
    ghost reached: { Reached (setup config) (entries_in memory) (state_from memory heard records step) },
}
