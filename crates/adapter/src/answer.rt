// What the calls answer.
ghost use Rattle.std.specs.Prelude.{◌≡◌, Some};
ghost use Rattle.adapter.specs.Answers.{number_of, heard_words, lost_words, recorded_words, framed_words, refusal_words};

use std::fmt;

// What became of a packet that was taken.
#[derive(Clone, Copy, PartialEq, Eq, Debug)]
pub enum Heard {
    // No map row is for it, it arrived before the from-time, or its parent has no anchor yet.
    PassedOver,
    // Its row is a `pmt` row, and it is not patchable.
    Dropped,
    // It waits in its parent's line.
    Held,
}

impl fmt::Display for Heard {
    ghost output = { λ heard. Some (heard_words heard) };

    fn fmt<W: fmt::Write>(&self, f: &mut fmt::Formatter<W>) -> fmt::Result {
        f.write_str(match self {
            Heard::PassedOver => "passed over",
            Heard::Dropped => "dropped",
            Heard::Held => "held",
        })
    }
}

// Anchor, times and line of the parent are gone.
#[derive(Clone, Copy, PartialEq, Eq, Debug)]
pub struct Lost;

impl fmt::Display for Lost {
    ghost output = { λ _. Some lost_words };

    fn fmt<W: fmt::Write>(&self, f: &mut fmt::Formatter<W>) -> fmt::Result {
        f.write_str("lost")
    }
}

// What became of a record.
#[derive(Clone, Copy, PartialEq, Eq, Debug)]
pub enum Recorded {
    // It replaces all that waited.
    Anew,
    // It follows the last one, and waits behind it.
    Queued,
}

impl fmt::Display for Recorded {
    ghost output = { λ recorded. Some (recorded_words recorded) };

    fn fmt<W: fmt::Write>(&self, f: &mut fmt::Formatter<W>) -> fmt::Result {
        f.write_str(match self {
            Recorded::Anew => "anew",
            Recorded::Queued => "queued",
        })
    }
}

// What became of a frame: its number, and how many packets were dropped in it.
#[derive(Clone, Copy, PartialEq, Eq, Debug)]
pub enum Framed {
    Skipped(u32),
    Followed(u32, u32),
    Added(u32, u32),
}

impl fmt::Display for Framed {
    ghost output = { λ framed. Some (framed_words framed) };

    fn fmt<W: fmt::Write>(&self, f: &mut fmt::Formatter<W>) -> fmt::Result {
        match *self {
            Framed::Skipped(number) => write!(f, "skipped {number}"),
            Framed::Followed(number, drops) => write!(f, "followed {number} dropped {drops}"),
            Framed::Added(number, drops) => write!(f, "added {number} dropped {drops}"),
        }
    }
}

// Why a call is refused.
#[derive(Clone, Copy, PartialEq, Eq, Debug)]
pub enum Refusal {
    TooFewEntries,
    UnknownParent,
    BadPacket,
    Untimely,
    FullLine,
    OutOfRange,
    RecordsFull,
    NoRecord,
    Unheard,
    CarrierFull,
}

impl Refusal {
    // The number of the refusal. Written out and not as discriminants: the numbers are those that users are told.
    pub fn number(self) -> u8
        ensures { result ≡ number_of self }
    {
        match self {
            Refusal::TooFewEntries => 5,
            Refusal::UnknownParent => 6,
            Refusal::BadPacket => 7,
            Refusal::Untimely => 8,
            Refusal::FullLine => 9,
            Refusal::OutOfRange => 10,
            Refusal::RecordsFull => 11,
            Refusal::NoRecord => 12,
            Refusal::Unheard => 13,
            Refusal::CarrierFull => 14,
        }
    }
}

impl fmt::Display for Refusal {
    ghost output = { λ refusal. Some (refusal_words refusal) };

    fn fmt<W: fmt::Write>(&self, f: &mut fmt::Formatter<W>) -> fmt::Result {
        write!(f, "refused {}", self.number())
    }
}
