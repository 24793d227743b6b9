// What is counted in a run. A counter stops at the largest number of 64 bits.
ghost use Rattle.std.specs.Prelude.{◌≡◌, ◌+◌, Some};
ghost use Rattle.feed.specs.Times.{capped};
ghost use Rattle.feed.specs.Counts.{no_hears, no_frames, refused_by, heard_by, framed_by, losses, drops_in, refusals_line, hears_line, frames_line, counters_line};

use adapter::answer::{Framed, Heard, Refusal};
use std::fmt;

// Packets refused: as no good packet (7), for its time (8), for want of room (9).
#[derive(Clone, Copy, Default)]
pub struct Refusals {
    bad: u64,
    untimely: u64,
    full: u64,
}

impl Refusals {
    fn count(&mut self, refusal: Refusal)
        ensures { self.new ≡ refused_by refusal self.old }
    {
        match refusal {
            Refusal::BadPacket => add(&mut self.bad, 1),
            Refusal::Untimely => add(&mut self.untimely, 1),
            Refusal::FullLine => add(&mut self.full, 1),
            _ => {}
        }
    }

    // How often a parent was lost: by each packet refused.
    fn losses(&self) -> u64
        ensures { result ≡ losses self.now }
    {
        self.bad
            .saturating_add(self.untimely)
            .saturating_add(self.full)
    }
}

impl fmt::Display for Refusals {
    ghost output = { λ r. Some (refusals_line r) };

    fn fmt<W: fmt::Write>(&self, f: &mut fmt::Formatter<W>) -> fmt::Result {
        let Refusals {
            bad,
            untimely,
            full,
        } = *self;
        let lost = self.losses();
        write!(f, "refused {bad} {untimely} {full} lost {lost}")
    }
}

// Packets by what became of them.
#[derive(Clone, Copy, Default)]
pub struct Hears {
    heard: u64,
    passed: u64,
    unpatchable: u64,
    held: u64,
    refused: Refusals,
}

impl Hears {
    fn count(&mut self, answer: Result<Heard, Refusal>)
        ensures { self.new ≡ heard_by answer self.old }
    {
        add(&mut self.heard, 1);
        match answer {
            Ok(Heard::PassedOver) => add(&mut self.passed, 1),
            Ok(Heard::Dropped) => add(&mut self.unpatchable, 1),
            Ok(Heard::Held) => add(&mut self.held, 1),
            Err(refusal) => self.refused.count(refusal),
        }
    }
}

impl fmt::Display for Hears {
    ghost output = { λ h. Some (hears_line h) };

    fn fmt<W: fmt::Write>(&self, f: &mut fmt::Formatter<W>) -> fmt::Result {
        let Hears {
            heard,
            passed,
            unpatchable,
            held,
            refused,
        } = *self;
        write!(
            f,
            "heard {heard} passed {passed} unpatchable {unpatchable} held {held} {refused}"
        )
    }
}

// Frames by what became of them, and the packets in them.
#[derive(Clone, Copy, Default)]
pub struct Frames {
    skipped: u64,
    followed: u64,
    added: u64,
    put: u64,
    stuffing: u64,
    dropped: u64,
}

impl Frames {
    fn count(&mut self, answer: Framed, put: u64, stuffing: u64)
        ensures { self.new ≡ framed_by answer put stuffing self.old }
    {
        add(&mut self.put, put);
        add(&mut self.stuffing, stuffing);
        add(&mut self.dropped, drops_in(answer));
        match answer {
            Framed::Skipped(_) => add(&mut self.skipped, 1),
            Framed::Followed(_, _) => add(&mut self.followed, 1),
            Framed::Added(_, _) => add(&mut self.added, 1),
        }
    }
}

impl fmt::Display for Frames {
    ghost output = { λ f. Some (frames_line f) };

    fn fmt<W: fmt::Write>(&self, f: &mut fmt::Formatter<W>) -> fmt::Result {
        let Frames {
            skipped,
            followed,
            added,
            put,
            stuffing,
            dropped,
        } = *self;
        write!(
            f,
            "skipped {skipped} followed {followed} added {added} put {put} stuffing {stuffing} dropped {dropped}"
        )
    }
}

// All that is counted.
#[derive(Clone, Copy, Default)]
pub struct Counters {
    hears: Hears,
    frames: Frames,
}

impl Counters {
    // Nothing was done yet.
    pub fn new() -> Counters
        ensures { result ≡ record { hears = no_hears; frames = no_frames } }
    {
        Counters::default()
    }

    // One packet more, and what the adapter answered to it.
    pub fn count_hear(&mut self, answer: Result<Heard, Refusal>)
        ensures { self.new ≡ record { hears = heard_by answer self.old.hears; frames = self.old.frames } }
    {
        self.hears.count(answer);
    }

    // One frame more: what the adapter answered, how many packets it put into the carrier and how many of them are stuffing.
    pub fn count_frame(&mut self, answer: Framed, put: u64, stuffing: u64)
        ensures { self.new ≡ record { hears = self.old.hears; frames = framed_by answer put stuffing self.old.frames } }
    {
        self.frames.count(answer, put, stuffing);
    }
}

impl fmt::Display for Counters {
    ghost output = { λ c. Some (counters_line c) };

    fn fmt<W: fmt::Write>(&self, f: &mut fmt::Formatter<W>) -> fmt::Result {
        let hears = self.hears;
        let frames = self.frames;
        write!(f, "{hears} {frames}")
    }
}

// Adds to a counter, which stops at the largest number. With a type of its own for that, as `Saturating<u64>`, the
// definitions would have to take each number out of its counter, so that this is the plainer form.
fn add(counter: &mut u64, more: u64)
    ensures { counter.new ≡ capped (counter.old + more) }
{
    *counter = counter.saturating_add(more);
}

// How many packets were dropped in a frame.
fn drops_in(answer: Framed) -> u64
    ensures { result ≡ drops_in answer }
{
    match answer {
        Framed::Skipped(_) => 0,
        Framed::Followed(_, drops) | Framed::Added(_, drops) => u64::from(drops),
    }
}
