// A whole frame, slot by slot.
ghost use Rattle.std.specs.Prelude.{◌≡◌, ◌^◌, ◌<◌, ◌≤◌, true, map, length};
ghost use Rattle.config.specs.Setup.{setup};
ghost use Rattle.memory.specs.Memory.{lines_in, backlog_in, size_in, OnlyLines};
ghost use Rattle.rules.specs.Calls.{doubt_at};
ghost use Rattle.rules.specs.Entries.{merged};
ghost use Rattle.rules.specs.Slots.{limit, played};
ghost use Rattle.adapter.specs.Placing.{LinesInOrder, AllWhole, Goes, turns_of_lines, PlacedSo, begun};
ghost use Rattle.adapter.specs.Steps.{step_of};

use crate::place::Course;
use crate::place::slots::{admit_before, fill};
use crate::state::lines::let_go;
use crate::step::Step;
use carrier::Carrier;
use config::table::Config;
use memory::Memory;
use rules::entry::{Entry, Frame};

// A slot admits what arrives before this.
fn limit_of(config: &Config, frame: &Frame, slot: u32) -> u64
    requires slot_of_frame { slot < frame.now.slots }
    requires few_slots { frame.now.slots ≤ 4096 }
    requires start_in_range { frame.now.start ≤ 2 ^ 60 }
    ensures { result ≡ limit (setup config.now) frame.now slot }
{
    frame.start + (u64::from(slot) + 1) * u64::from(config.ticks()) / u64::from(frame.slots)
}

// How placing begins: out of step, packets before the frame's start are let go and the doubt is the backlog's size. Answers the doubt.
pub(crate) fn begin(config: &Config, memory: &mut Memory<Entry>, frame: &Frame, step: Step) -> u32
    ensures lines { lines_in memory.new ≡ map (begun frame.now (step_of step)) (lines_in memory.old) }
    ensures rest { OnlyLines memory.old memory.new }
    ensures doubt { result ≡ doubt_at (setup config.now) (step_of step) }
{
    match step {
        Step::Out => {
            let_go(memory, frame.start);
            config.backlog()
        }
        Step::Following { doubt } => doubt,
        Step::InStep => 0,
    }
}

// Places a frame that begins with this doubt. Its packets go to the carrier, or nowhere.
// The carrier is beside a flag, not in an `Option`: that would have to be lent anew for each slot.
pub(crate) fn place<C: Carrier>(
    config: &Config,
    memory: &mut Memory<Entry>,
    frame: &Frame,
    doubt: u32,
    adding: bool,
    carrier: &mut C,
) -> Course
    requires shared { size_in memory.old ≡ (setup config.now).backlog }
    requires lines_in_order { LinesInOrder (lines_in memory.old) }
    requires few_wait { length (merged (lines_in memory.old)) < 2 ^ 32 }
    requires all_whole { AllWhole (merged (lines_in memory.old)) × AllWhole (backlog_in memory.old) }
    requires frame_in_range { (0 < frame.now.slots) × (frame.now.slots ≤ 4096) × (frame.now.start ≤ 2 ^ 60) }
    requires doubt_within { doubt ≤ (setup config.now).backlog }
    requires places_free { adding ≡ true → frame.now.slots ≤ (C.meaning carrier.old).free }
    ensures placed { PlacedSo (setup config.now) frame.now doubt memory.old memory.new result }
    ensures carried { Goes C.meaning adding (played (setup config.now) frame.now.number (turns_of_lines (setup config.now) frame.now (lines_in memory.old)) (backlog_in memory.old)) carrier.old carrier.new }
{
    let mut course = Course {
        drops: 0,
        doubt,
        zero: false,
    };
    for slot in 0..frame.slots {
        let limit = limit_of(config, frame, slot);
        let admitted = admit_before(config, memory, limit, course);
        course = fill(config, memory, frame, slot, admitted, adding, carrier);
    }
    course
}
