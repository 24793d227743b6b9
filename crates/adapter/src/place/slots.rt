// What each slot of a frame admits, and what it takes.
ghost use Rattle.std.specs.Prelude.{◌≡◌, ◌+◌, ◌^◌, ◌<◌, ◌≤◌, true, List, [], ◌∷◌, length};
ghost use Rattle.config.specs.Setup.{setup};
ghost use Rattle.memory.specs.Memory.{lines_in, line_in, backlog_in, size_in, SameShares, OnlyBacklog};
ghost use Rattle.rules.specs.Entries.{merged};
ghost use Rattle.rules.specs.Slots.{use_of, leaves, choose, or_stuffing};
ghost use Rattle.adapter.specs.Placing.{NextIn, LinesInOrder, AdmittedOne, Admitted, copy_of, Filled, Whole, AllWhole, Goes};

use crate::place::Course;
use carrier::Carrier;
use config::table::Config;
use memory::Memory;
use psi::packet::stuffing;
use psi::pat::pat_copy;
use rules::entry::{Entry, Frame};
use waiting::Full;

// The line whose first entry comes next, if one arrives before the limit: the earliest, and at equal times that of the lower parent.
// A memory's lines are asked by number; a `min` over pairs would have to say of each that its line is no lower than the last.
fn next_line(memory: &Memory<Entry>, limit: u64) -> Option<usize>
    ensures { NextIn limit (lines_in memory.now) result }
{
    let mut bound = limit;
    let mut next = None;
    for p in 0..memory.parents() {
        if let Some(entry) = memory.first(p) {
            if entry.arrival < bound {
                bound = entry.arrival;
                next = Some(p);
            }
        }
    }
    next
}

// The first entry of a line joins the backlog, or is dropped if the backlog is full; the doubt rises, as far as the backlog's size.
// `shared` is asked at each step of placing: memory and configuration are two values here, and only an adapter has them as one.
fn admit_one(config: &Config, memory: &mut Memory<Entry>, p: usize, course: Course) -> Course
    requires shared { size_in memory.old ≡ (setup config.now).backlog }
    requires drops_fit { course.drops + 1 < 2 ^ 32 }
    requires doubt_within { course.doubt ≤ size_in memory.old }
    ensures one { (e : Entry) (rest : List Entry) → line_in memory.old p ≡ e ∷ rest → AdmittedOne p e rest memory.old memory.new course result }
    ensures shares { SameShares memory.old memory.new }
{
    let Some(entry) = memory.take(p) else {
        return course;
    };
    let doubt = (course.doubt + 1).min(config.backlog());
    let drops = match memory.admit(entry) {
        Ok(()) => course.drops,
        Err(Full) => course.drops + 1,
    };
    Course {
        drops,
        doubt,
        ..course
    }
}

// Every entry that arrives before the limit is admitted, in order of arrival.
pub(crate) fn admit_before(
    config: &Config,
    memory: &mut Memory<Entry>,
    limit: u64,
    course: Course,
) -> Course
    requires shared { size_in memory.old ≡ (setup config.now).backlog }
    requires lines_in_order { LinesInOrder (lines_in memory.old) }
    requires drops_fit { course.drops + length (merged (lines_in memory.old)) < 2 ^ 32 }
    requires doubt_within { course.doubt ≤ size_in memory.old }
    ensures { Admitted limit memory.old memory.new course result }
{
    let mut course = course;
    while let Some(p) = next_line(memory, limit) {
        course = admit_one(config, memory, p, course);
    }
    course
}

// Which PAT copy a slot takes, if it takes one. (The closure of a `find` would have to ask again that the product fits and that there is a copy to divide by.)
fn copy_at(config: &Config, frame: &Frame, slot: u32) -> Option<u32>
    ensures { result ≡ copy_of (use_of (setup config.now) frame.now slot) }
{
    let copies = config.copies();
    for i in (0..copies).rev() {
        if u64::from(i) * u64::from(frame.slots) / u64::from(copies) == u64::from(slot) {
            return Some(i);
        }
    }
    None
}

// The packet of a slot, when all was admitted: a PAT copy, the backlog's first, or stuffing. It goes to the carrier, or nowhere.
// It is handed on from where it stands: returned, its 188 bytes would be copied for each slot, also of a frame that is not added.
// That packets which wait are whole is asked at each step: a memory holds entries of any bytes, and only an adapter keeps to it.
pub(crate) fn fill<C: Carrier>(
    config: &Config,
    memory: &mut Memory<Entry>,
    frame: &Frame,
    slot: u32,
    course: Course,
    adding: bool,
    carrier: &mut C,
) -> Course
    requires all_whole { AllWhole (backlog_in memory.old) }
    requires place_free { adding ≡ true → 0 < (C.meaning carrier.old).free }
    ensures filled { Filled (setup config.now) frame.now slot memory.old memory.new course result }
    ensures goes { Goes C.meaning adding (leaves (setup config.now) frame.now.number (use_of (setup config.now) frame.now slot) (backlog_in memory.old) ∷ []) carrier.old carrier.new }
{
    let doubt = match copy_at(config, frame, slot) {
        Some(i) => {
            hand(&pat_copy(config, frame.number, i), adding, carrier);
            course.doubt
        }
        None => {
            hand_front(memory, adding, carrier);
            course.doubt.saturating_sub(1)
        }
    };
    Course {
        doubt,
        zero: course.zero || doubt == 0,
        ..course
    }
}

// The backlog's first packet goes to the carrier or nowhere, or stuffing where none waits.
fn hand_front<C: Carrier>(memory: &mut Memory<Entry>, adding: bool, carrier: &mut C)
    requires all_whole { AllWhole (backlog_in memory.old) }
    requires place_free { adding ≡ true → 0 < (C.meaning carrier.old).free }
    ensures goes { Goes C.meaning adding (or_stuffing (choose (backlog_in memory.old)).0 ∷ []) carrier.old carrier.new }
    ensures backlog { backlog_in memory.new ≡ (choose (backlog_in memory.old)).1 }
    ensures rest { OnlyBacklog memory.old memory.new }
{
    match memory.front() {
        Some(entry) => hand(&entry.bytes, adding, carrier),
        None => hand(&stuffing(), adding, carrier),
    }
    memory.let_front_go();
}

// A packet goes to a carrier that has a place for it, or nowhere.
fn hand<C: Carrier>(packet: &[u8], adding: bool, carrier: &mut C)
    requires whole { Whole packet.now }
    requires place_free { adding ≡ true → 0 < (C.meaning carrier.old).free }
    ensures { Goes C.meaning adding (packet.now ∷ []) carrier.old carrier.new }
{
    if adding {
        let _ = carrier.put(packet);
    }
}
