// The framing records that wait, and the last one accepted.
ghost use Rattle.std.specs.Prelude.{◌≡◌, ◌+◌, [], ◌∷◌, ◌++◌, length, drop, is_ok, if◌then◌else◌, Some, None, Decides, nat_lt};
ghost use Rattle.config.specs.Setup.{setup};
ghost use Rattle.rules.specs.Calls.{Follows, InRange, records_from};
ghost use Rattle.waiting.specs.Waiting.{oldest as first_waiting};
ghost use Rattle.adapter.specs.Queue.{waiting_in};

use crate::limits::{LATEST, MOST_SLOTS};
use config::table::Config;
use rules::entry::Frame;
use waiting::{Full, Line};

// So many records may wait.
const PLACES: usize = 8;

// A fixed array and a line over it: no call allocates.
#[derive(Drop)]
pub(crate) struct Records {
    frames: [Frame; PLACES],
    line: Line<Frame>,
    last: Option<Frame>,
}

// Whether a record's slots and start are in range.
pub(crate) fn in_range(config: &Config, frame: &Frame) -> bool
    ensures { Decides result (InRange (setup config.now) frame.now) }
{
    config.copies() <= frame.slots && frame.slots <= MOST_SLOTS && frame.start <= LATEST
}

// Whether number and start are one and one frame length more than in the last record. Differences, since a sum may not fit.
fn follows(last: &Frame, ticks: u32, frame: &Frame) -> bool
    ensures { Decides result ((frame.now.number ≡ last.now.number + 1) × (frame.now.start ≡ last.now.start + ticks)) }
{
    frame.number > last.number
        && frame.number - last.number == 1
        && frame.start >= last.start
        && frame.start - last.start == u64::from(ticks)
}

impl Records {
    // No record waits, and none was accepted.
    pub(crate) fn new() -> Records
        ensures waits { waiting_in result ≡ [] }
        ensures last { result.last ≡ None }
    {
        let nothing = Frame {
            number: 0,
            start: 0,
            slots: 0,
        };
        Records {
            frames: [nothing; PLACES],
            line: Line::new(),
            last: None,
        }
    }

    // Whether a record follows the last accepted one.
    pub(crate) fn precede(&self, config: &Config, frame: &Frame) -> bool
        ensures { Decides result (Follows (setup config.now) self.now.last frame.now) }
    {
        self.last
            .is_some_and(|last| follows(&last, config.ticks(), frame))
    }

    // One more record waits, behind the others; or it is refused where eight wait, and nothing changes.
    pub(crate) fn queue(&mut self, frame: Frame) -> Result<(), Full>
        ensures test { is_ok result ≡ nat_lt (length (waiting_in self.old)) 8 }
        ensures waits { waiting_in self.new ≡ (if is_ok result then waiting_in self.old ++ frame ∷ [] else waiting_in self.old) }
        ensures last { self.new.last ≡ (if is_ok result then Some frame else self.old.last) }
    {
        let joined = self.line.join(&mut self.frames[..], frame);
        if joined.is_ok() {
            self.last = Some(frame);
        }
        joined
    }

    // This record waits in the place of all others.
    pub(crate) fn renew(&mut self, frame: Frame)
        ensures waits { waiting_in self.new ≡ frame ∷ [] }
        ensures last { self.new.last ≡ Some frame }
    {
        self.line.let_all_go();
        let _ = self.line.join(&mut self.frames[..], frame);
        self.last = Some(frame);
    }

    // The record that has waited longest.
    pub(crate) fn oldest(&self) -> Option<Frame>
        ensures { result ≡ first_waiting (waiting_in self.now) }
    {
        self.line.peek(&self.frames[..]).copied()
    }

    // The record that has waited longest goes.
    pub(crate) fn done(&mut self)
        ensures waits { waiting_in self.new ≡ drop 1 (waiting_in self.old) }
        ensures last { self.new.last ≡ self.old.last }
    {
        let _ = self.line.take(&self.frames[..]);
    }

    // Records that start before a moment go.
    pub(crate) fn let_go_before(&mut self, since: u64)
        ensures waits { waiting_in self.new ≡ records_from since (waiting_in self.old) }
        ensures last { self.new.last ≡ self.old.last }
    {
        self.line.let_go_before(&self.frames[..], since);
    }
}
