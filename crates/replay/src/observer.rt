// The tally of a site log: what the doubt must be, told by calls and answers alone.
ghost use Rattle.std.specs.Prelude.{◌<◌};

use adapter::answer::{Framed, Heard, Lost, Recorded, Refusal};
use config::table::Config;
use rules::entry::Frame;
use std::alloc::{AllocError, Global};
use std::fmt;

mod parent;

use parent::Parent;

// At most eight records wait.
const PLACES: usize = 8;

#[derive(Clone, Copy, PartialEq, Eq)]
pub(crate) enum Tally {
    Blank,
    Count(u32),
    Clear,
}

impl fmt::Display for Tally {
    fn fmt<W: fmt::Write>(&self, f: &mut fmt::Formatter<W>) -> fmt::Result {
        match self {
            Tally::Blank => f.write_str("blank"),
            Tally::Count(doubt) => write!(f, "count {doubt}"),
            Tally::Clear => f.write_str("clear"),
        }
    }
}

#[derive(Drop)]
pub(crate) struct Observer {
    ticks: u32,
    backlog: u32,
    copies: u32,
    parents: Vec<Parent>,
    // The accepted records that may wait. Their numbers follow one another, so each has its own place.
    records: [Option<Frame>; PLACES],
    tally: Tally,
}

// Whether a slot is for a PAT copy.
fn is_for_pat(slot: u32, slots: u32, copies: u32) -> bool {
    (0..copies).any(|copy| u64::from(copy) * u64::from(slots) / u64::from(copies)
        == u64::from(slot))
}

impl Observer {
    pub(crate) fn new(heap: Global, config: &Config) -> Result<Observer, AllocError> {
        let mut parents = Vec::new(heap);
        for rate in config.rates() {
            parents.push(Parent::new(heap, *rate))?;
        }
        Ok(Observer {
            ticks: config.ticks(),
            backlog: config.backlog(),
            copies: config.copies(),
            parents,
            records: [None; PLACES],
            tally: Tally::Blank,
        })
    }

    pub(crate) fn tally(&self) -> Tally {
        self.tally
    }

    pub(crate) fn hear(
        &mut self,
        parent: usize,
        time: Option<u64>,
        answer: Result<Heard, Refusal>,
    ) -> Result<(), AllocError> {
        match answer {
            Ok(heard) => self.take(parent, time, heard),
            Err(Refusal::BadPacket | Refusal::Untimely) => {
                self.lose(parent);
                Ok(())
            }
            Err(_) => Ok(()),
        }
    }

    fn take(&mut self, parent: usize, time: Option<u64>, heard: Heard) -> Result<(), AllocError> {
        let Some(parent) = self.parents.get_mut(parent) else {
            return Ok(());
        };
        let arrival = parent.take(time);
        match (heard, arrival) {
            (Heard::Held, Some(arrival)) => parent.hold(arrival),
            _ => Ok(()),
        }
    }

    pub(crate) fn loss(&mut self, parent: usize, answer: Result<Lost, Refusal>) {
        if answer.is_ok() {
            self.lose(parent);
        }
    }

    fn lose(&mut self, parent: usize) {
        if let Some(parent) = self.parents.get_mut(parent) {
            parent.forget();
        }
        self.tally = Tally::Blank;
    }

    pub(crate) fn record(&mut self, frame: Frame, answer: Result<Recorded, Refusal>) {
        let Ok(recorded) = answer else {
            return;
        };
        self.records[frame.number as usize % PLACES] = Some(frame);
        if recorded == Recorded::Anew {
            self.tally = Tally::Blank;
        }
    }

    pub(crate) fn frame(&mut self, answer: Result<Framed, Refusal>) {
        match answer {
            Ok(Framed::Skipped(_)) => self.tally = Tally::Blank,
            Ok(Framed::Followed(number, _)) => self.follow(number),
            Ok(Framed::Added(number, _)) => self.add(number),
            Err(_) => {}
        }
    }

    // The accepted record of a frame.
    fn record_of(&self, number: u32) -> Option<Frame> {
        self.records[number as usize % PLACES].filter(|frame| frame.number == number)
    }

    // Lets go of what arrives before a moment, and says how much that is.
    fn let_go_before(&mut self, limit: u64) -> u32 {
        let mut gone = 0u32;
        for parent in self.parents.iter_mut() {
            gone = gone.saturating_add(parent.let_go_before(limit));
        }
        gone
    }

    // What arrives before the end of an added frame is of no use to a later one.
    fn add(&mut self, number: u32) {
        if let Some(frame) = self.record_of(number) {
            let end = frame.start.saturating_add(u64::from(self.ticks));
            let _gone = self.let_go_before(end);
        }
    }

    fn follow(&mut self, number: u32) {
        let Some(frame) = self.record_of(number) else {
            return;
        };
        let _gone = self.let_go_before(frame.start);
        let mut doubt = match self.tally {
            Tally::Blank => self.backlog,
            Tally::Count(doubt) => doubt,
            Tally::Clear => 0,
        };
        let mut zero = self.tally == Tally::Clear;
        for slot in 0..frame.slots {
            doubt = self.slot(&frame, slot, doubt);
            zero = zero || doubt == 0;
        }
        self.tally = if zero {
            Tally::Clear
        } else {
            Tally::Count(doubt)
        };
    }

    // What a slot makes of the doubt: a packet that it admits raises it, a data slot lowers it.
    fn slot(&mut self, frame: &Frame, slot: u32, doubt: u32) -> u32
        requires { slot < frame.now.slots }
    {
        let passed = (u64::from(slot) + 1) * u64::from(self.ticks) / u64::from(frame.slots);
        let admitted = self.let_go_before(frame.start.saturating_add(passed));
        let raised = doubt.saturating_add(admitted).min(self.backlog);
        if is_for_pat(slot, frame.slots, self.copies) {
            raised
        } else {
            raised.saturating_sub(1)
        }
    }
}
