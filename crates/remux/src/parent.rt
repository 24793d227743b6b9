// A parent: the stream that its file holds, and what is known of it from the packets that were taken.
use crate::fault::{Fault, FileFault};
use crate::rack::Rack;
use crate::source::Source;
use feed::file::{FileKind, stamp_of};
use feed::known::Known;
use feed::times::{handed_with, unwrap_stamp};

// What tells when a parent's packets arrive.
#[derive(Clone, Copy)]
enum Clock {
    // In a plain file the parent's rate, from the time of packet 0 on.
    Steady { first: u64, rate: u32 },
    // In a timed file their stamps: the last packet's time, and its stamp.
    Stamped { time: u64, stamp: u32 },
}

impl Clock {
    // At packet 0 of a file, which has this time, or else the one of its stamp.
    fn new(source: &Source, rate: u32, time: Option<u64>) -> Clock {
        match source.kind() {
            FileKind::Plain => Clock::Steady {
                first: time.unwrap_or(0),
                rate,
            },
            FileKind::Timed => {
                let stamp = stamp_of(source.piece()).unwrap_or(0);
                Clock::Stamped {
                    time: time.unwrap_or(u64::from(stamp)),
                    stamp,
                }
            }
        }
    }

    // The time of packet 0, as long as the clock stands there.
    fn first(self) -> u64 {
        match self {
            Clock::Steady { first, .. } => first,
            Clock::Stamped { time, .. } => time,
        }
    }

    // The time that the next packet is handed with.
    fn next(&mut self, source: &Source) -> Option<u64> {
        match self {
            Clock::Steady { first, rate } => handed_with(*first, *rate, source.passed()),
            Clock::Stamped { time, stamp } => {
                let next = stamp_of(source.piece()).unwrap_or(*stamp);
                *time = unwrap_stamp(*time, *stamp, next);
                *stamp = next;
                Some(*time)
            }
        }
    }
}

#[derive(Drop)]
pub(crate) struct Parent {
    name: String,
    // Its number in the configuration.
    number: usize,
    rate: u32,
    source: Source,
    // When packet 0 arrives.
    first: u64,
    clock: Clock,
    known: Option<Known>,
    // Whether the last packet had its sync byte.
    in_sync: bool,
}

impl Parent {
    // A parent whose first packet has this time, or else the one of its stamp.
    pub(crate) fn new(
        name: String,
        number: usize,
        rate: u32,
        source: Source,
        time: Option<u64>,
    ) -> Parent {
        let clock = Clock::new(&source, rate, time);
        Parent {
            name,
            number,
            rate,
            source,
            first: clock.first(),
            clock,
            known: None,
            in_sync: true,
        }
    }

    // The fault of this parent's file.
    pub(crate) fn blame(&self, fault: FileFault) -> Fault {
        fault.of(&self.name)
    }

    // Whether its file ends in the middle of a packet, once all before it was heard.
    pub(crate) fn cut(&self) -> Option<Fault> {
        let offset = self.source.cut()?;
        Some(self.blame(FileFault::Cut(offset)))
    }

    // When packet 0 arrives.
    pub(crate) fn first_time(&self) -> u64 {
        self.first
    }

    // What arrives before is no longer wanted.
    pub(crate) fn from_time(&self) -> u64 {
        self.known.map_or(0, |known| known.from)
    }

    // The from-time becomes this moment.
    pub(crate) fn restart(&mut self, since: u64) {
        if let Some(known) = &mut self.known {
            known.from = since;
        }
    }

    // Passes by this many packets at most.
    pub(crate) fn miss(&mut self, count: u64) -> Result<(), FileFault> {
        for _ in 0..count {
            if !self.source.has_next()? {
                break;
            }
            let _ = self.clock.next(&self.source);
            self.source.pass();
        }
        Ok(())
    }

    // Hears packets until one arrives at this moment or later, or the input ends.
    pub(crate) fn hear_until(
        &mut self,
        end: u64,
        rack: &mut Rack,
        rt: &HostRuntime,
    ) -> Result<(), FileFault> {
        // A count of turns, since the check does not know that a file ends.
        for _ in 0..u64::MAX {
            if self.is_heard_to(end) || !self.source.has_next()? {
                break;
            }
            self.watch_sync(rt);
            self.hear_next(rack);
        }
        Ok(())
    }

    fn is_heard_to(&self, end: u64) -> bool {
        self.known.is_some_and(|known| known.heard_to >= end)
    }

    // Hands the next packet to the adapter.
    fn hear_next(&mut self, rack: &mut Rack) {
        let time = self.clock.next(&self.source);
        let heard = rack.hear(self.number, self.source.packet(), time);
        self.source.pass();
        // Both arms stand here, so that what a refusal leaves is in sight.
        self.known = match heard {
            Ok(_) => Known::after(self.known, time, self.rate),
            Err(_) => None,
        };
    }

    // Tells where sync bytes begin to be missing.
    fn watch_sync(&mut self, rt: &HostRuntime) {
        let has_sync = matches!(self.source.packet(), [0x47, ..]);
        if self.in_sync && !has_sync {
            let name = self.name.as_str();
            let fault = FileFault::SyncLost(self.source.packet_offset());
            let _ = eprintln!(rt; "remux: {name}: {fault}");
        }
        self.in_sync = has_sync;
    }
}
