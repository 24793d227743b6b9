// Frames.
ghost use Rattle.std.specs.Prelude.{◌≡◌, ◌≤◌, true, false};
ghost use Rattle.rules.specs.Calls.{skipping, Frames};
ghost use Rattle.adapter.specs.Answers.{frame_answer, UnlessAdded};
ghost use Rattle.adapter.specs.Laws.{ClearAfter, EqualAfter};
ghost use Rattle.adapter.specs.Placing.{placed_answer};
ghost use Rattle.adapter.specs.Steps.{adds_in};
ghost use Rattle.adapter.specs.View.{view, setup_of, entries_of, hearings_in, KeptSetup, DueSo, Skippable, PlaceableNow};

use crate::answer::{Framed, Refusal};
use crate::due::Due;
use crate::place::frames::{begin, place};
use crate::state::Adapter;
use crate::state::lines::{heard_until, latest, let_go, restart};
use crate::step::StepEvent;
use carrier::Carrier;
use rules::entry::Frame;

impl Adapter {
    // Whether the oldest record's frame can be placed now, is skipped, or has to wait.
    fn due(&self) -> Result<Due, Refusal>
        ensures { DueSo self.now result }
    {
        if !self.is_roomy() {
            return Err(Refusal::TooFewEntries);
        }
        let frame = self.records.oldest().ok_or(Refusal::NoRecord)?;
        let parents = self.config.rates().len();
        let since = latest(&self.heard[..parents]).ok_or(Refusal::Unheard)?;
        if frame.start < since {
            return Ok(Due::Skips {
                number: frame.number,
                since,
            });
        }
        let end = frame.start + u64::from(self.config.ticks());
        if !heard_until(&self.heard[..parents], end) {
            return Err(Refusal::Unheard);
        }
        Ok(Due::Places(frame))
    }

    // Records and packets before R go, every from-time is R, and the adapter falls out of step.
    fn skip(&mut self, since: u64)
        requires { Skippable self.old since }
        ensures after { view self.new ≡ skipping (view self.old) (hearings_in self.old) }
        ensures same { KeptSetup self.old self.new }
    {
        let_go(&mut self.memory, since);
        restart(&mut self.heard[..], since);
        self.records.let_go_before(since);
        self.memory.empty_backlog();
        self.step = self.step.after(StepEvent::Skip);
    }

    // Places a frame: in step its packets go to the carrier. Answers its number and how many packets were dropped in it.
    fn place_now<C: Carrier>(&mut self, frame: Frame, carrier: &mut C) -> (u32, u32)
        requires placeable_now { PlaceableNow self.old frame }
        requires places_free { adds_in self.old.step ≡ true → frame.slots ≤ (C.meaning carrier.old).free }
        ensures rule { Frames (setup_of self.old) (entries_of self.old) (view self.old) (C.meaning carrier.old) (placed_answer (adds_in self.old.step) result.0 result.1) (view self.new) (C.meaning carrier.new) }
        ensures same { KeptSetup self.old self.new }
        ensures kept { adds_in self.old.step ≡ false → carrier.new ≡ carrier.old }
    {
        let end = frame.start + u64::from(self.config.ticks());
        let adding = self.step.adds();
        let doubt = begin(&self.config, &mut self.memory, &frame, self.step);
        let course = place(
            &self.config,
            &mut self.memory,
            &frame,
            doubt,
            adding,
            carrier,
        );
        restart(&mut self.heard[..], end);
        self.records.done();
        self.step = self.step.after(StepEvent::Placed {
            doubt: course.doubt,
            zero: course.zero,
        });
        (frame.number, course.drops)
    }

    // The oldest record's frame: skipped, or placed; in step its packets go to the carrier.
    pub fn frame<C: Carrier>(&mut self, carrier: &mut C) -> Result<Framed, Refusal>
        ensures rule { Frames (setup_of self.old) (entries_of self.old) (view self.old) (C.meaning carrier.old) (frame_answer result) (view self.new) (C.meaning carrier.new) }
        ensures same { KeptSetup self.old self.new }
        ensures untouched { UnlessAdded (frame_answer result) (carrier.new ≡ carrier.old) }
        ensures clear { ClearAfter (setup_of self.old) (entries_of self.old) (view self.old) (C.meaning carrier.old) (frame_answer result) (C.meaning carrier.new) }
        ensures equal { EqualAfter (setup_of self.old) (entries_of self.old) (view self.old) (C.meaning carrier.old) (frame_answer result) (C.meaning carrier.new) }
    {
        let frame = match self.due()? {
            Due::Skips { number, since } => {
                self.skip(since);
                return Ok(Framed::Skipped(number));
            }
            Due::Places(frame) => frame,
        };
        let adding = self.step.adds();
        if adding && carrier.free() < frame.slots as usize {
            return Err(Refusal::CarrierFull);
        }
        let (number, drops) = self.place_now(frame, carrier);
        if adding {
            Ok(Framed::Added(number, drops))
        } else {
            Ok(Framed::Followed(number, drops))
        }
    }
}
