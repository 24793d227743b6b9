// What waits in an adapter: packets, each with its arrival, and framing records.
use std::marker::Model;
use waiting::Moment;

// A packet that waits: when it arrived, the number of its map row, and its bytes as they will leave.
#[derive(Clone, Copy)]
pub struct Entry {
    pub arrival: u64,
    pub row: usize,
    pub bytes: [u8; 188],
}

// A contract sees an entry as the rules do.
impl Model for Entry {
    ghost use Rattle.rules.specs.Entries.{Entry as Waiting};

    ghost Value = { Waiting };

    ghost view = { λ e. record { arrival = e.arrival; row = e.row; bytes = e.bytes } };

    ghost inverse = { λ e. record { arrival = e.arrival; row = e.row; bytes = e.bytes } };
}

impl Moment for Entry {
    ghost moment = { λ e. e.arrival };

    fn moment(&self) -> u64 {
        self.arrival
    }
}

// A framing record: a frame's number, its start and how many slots it has.
#[derive(Clone, Copy)]
pub struct Frame {
    pub number: u32,
    pub start: u64,
    pub slots: u32,
}

// A contract sees a record as the rules do.
impl Model for Frame {
    ghost use Rattle.rules.specs.Slots.{Frame as Framing};

    ghost Value = { Framing };

    ghost view = { λ f. record { number = f.number; start = f.start; slots = f.slots } };

    ghost inverse = { λ f. record { number = f.number; start = f.start; slots = f.slots } };
}

impl Moment for Frame {
    ghost moment = { λ f. f.start };

    fn moment(&self) -> u64 {
        self.start
    }
}
