// The rack: an adapter, and what is counted of its answers.
use crate::output::{Emits, Output};
use adapter::Adapter;
use adapter::answer::{Framed, Heard, Recorded, Refusal};
use feed::counters::Counters;
use rules::entry::Frame;

#[derive(Drop)]
pub(crate) struct Rack {
    adapter: Adapter,
    counters: Counters,
}

impl Rack {
    pub(crate) fn new(adapter: Adapter) -> Rack {
        Rack {
            adapter,
            counters: Counters::new(),
        }
    }

    pub(crate) fn counters(&self) -> Counters {
        self.counters
    }

    // Hears a packet. One that found no room is gone: those behind it can no longer be counted, so that its parent is lost.
    pub(crate) fn hear(
        &mut self,
        parent: usize,
        packet: &[u8],
        time: Option<u64>,
    ) -> Result<Heard, Refusal> {
        let heard = self.adapter.hear(parent, packet, time);
        if heard == Err(Refusal::FullLine) {
            let _ = self.adapter.loss(parent);
        }
        self.counters.count_hear(heard);
        heard
    }

    pub(crate) fn record(&mut self, frame: Frame) -> Result<Recorded, Refusal> {
        self.adapter.record(frame.number, frame.start, frame.slots)
    }

    // Places the oldest record's frame.
    pub(crate) fn frame<C: Emits>(&mut self, output: &mut Output<C>) -> Result<Framed, Refusal> {
        let framed = self.adapter.frame(&mut output.carrier)?;
        self.counters
            .count_frame(framed, output.held() as u64, output.stuffing() as u64);
        Ok(framed)
    }
}
