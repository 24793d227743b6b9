// Framing records.
ghost use Rattle.rules.specs.Calls.{Records as RecordsBy};
ghost use Rattle.adapter.specs.Answers.{record_answer};
ghost use Rattle.adapter.specs.View.{view, setup_of, entries_of, KeptSetup};

use crate::answer::{Recorded, Refusal};
use crate::records::in_range;
use crate::state::Adapter;
use crate::step::StepEvent;
use rules::entry::Frame;

impl Adapter {
    // The record of a frame to come: its number, when it starts and how many slots it has.
    pub fn record(&mut self, number: u32, start: u64, slots: u32) -> Result<Recorded, Refusal>
        ensures rule { RecordsBy (setup_of self.old) (entries_of self.old) (view self.old) (record { number = number; start = start; slots = slots }) (record_answer result) (view self.new) }
        ensures same { KeptSetup self.old self.new }
    {
        if !self.is_roomy() {
            return Err(Refusal::TooFewEntries);
        }
        let frame = Frame {
            number,
            start,
            slots,
        };
        if !in_range(&self.config, &frame) {
            return Err(Refusal::OutOfRange);
        }
        if self.records.precede(&self.config, &frame) {
            return self
                .records
                .queue(frame)
                .map(|_| Recorded::Queued)
                .map_err(|_| Refusal::RecordsFull);
        }
        self.records.renew(frame);
        self.memory.empty_backlog();
        self.step = self.step.after(StepEvent::Anew);
        Ok(Recorded::Anew)
    }
}
