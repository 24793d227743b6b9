// A site in random weather: calls that mostly keep it in step.
ghost use Rattle.std.specs.Prelude.{◌<◌};

use crate::reply::Reply;
use rules::entry::Frame;
use sitelog::call::{Call, Packet, Use};
use sitelog::site::Place;
use std::alloc::{AllocError, Global};

const TICKS: u64 = 10_000;

#[derive(Drop)]
pub(crate) struct Weather {
    seed: u64,
    // Where its carrier stands.
    place: Place,
    // When the next packet arrives, at the least.
    now: u64,
    // The record that was handed last, and the last one accepted.
    handed: Frame,
    accepted: Frame,
}

impl Weather {
    pub(crate) fn new(seed: u64, place: Place) -> Weather {
        let before = Frame {
            number: 0,
            start: 0,
            slots: 0,
        };
        Weather {
            seed,
            place,
            now: 0,
            handed: before,
            accepted: before,
        }
    }

    // A number below this one, by a linear congruential generator.
    fn roll(&mut self, below: u64) -> u64
        requires { 0 < below }
        ensures { result < below }
    {
        self.seed = self
            .seed
            .wrapping_mul(6_364_136_223_846_793_005)
            .wrapping_add(1_442_695_040_888_963_407);
        (self.seed >> 33) % below
    }

    // A packet that its row lets pass, or one without a row; now and then without a time.
    fn packet(&mut self, heap: Global) -> Result<Packet, AllocError> {
        let parent = self.roll(2);
        let passed = 1 + self.roll(1_500);
        self.now = self.now.saturating_add(passed);
        let mut bytes = [0; 188];
        bytes[0] = 0x47;
        bytes[1] = self.roll(2) as u8;
        bytes[2] = parent as u8;
        let is_timed = self.roll(8) > 0;
        Ok(Packet {
            parent: parent as usize,
            time: if is_timed { Some(self.now) } else { None },
            bytes: bytes.to_vec(heap)?,
        })
    }

    // The record of the next frame.
    fn next_record(&mut self) -> Frame {
        let slots = 4 + self.roll(16);
        self.handed = Frame {
            number: self.accepted.number.saturating_add(1),
            start: self.accepted.start.saturating_add(TICKS),
            slots: slots as u32,
        };
        self.handed
    }

    // A record of the present that does not follow.
    fn other_record(&mut self) -> Frame {
        let late = self.roll(TICKS);
        let next = self.next_record();
        self.handed.number = next.number.saturating_add(1);
        self.handed.start = self.now.saturating_add(late);
        self.handed
    }

    pub(crate) fn call(&mut self, heap: Global) -> Result<Call, AllocError> {
        Ok(match self.roll(256) {
            0 => Call::Loss(self.roll(2) as usize),
            1 => {
                let mut packet = self.packet(heap)?;
                packet.bytes.clear();
                Call::Hear(packet)
            }
            2 => Call::Record(self.other_record()),
            3..=9 => Call::Use(self.place, Use::Empty),
            10..=71 => Call::Frame(self.place),
            72..=103 => Call::Record(self.next_record()),
            _ => Call::Hear(self.packet(heap)?),
        })
    }

    // An accepted record is followed by the next.
    pub(crate) fn answered(&mut self, reply: &Reply) {
        if let Reply::Recorded(_) = reply {
            self.accepted = self.handed;
        }
    }
}
