// The loss of a parent.
ghost use Rattle.std.specs.Prelude.{◌≡◌};
ghost use Rattle.rules.specs.State.{lose};
ghost use Rattle.rules.specs.Calls.{Listed, Loses};
ghost use Rattle.adapter.specs.Answers.{loss_answer};
ghost use Rattle.adapter.specs.View.{view, setup_of, entries_of, KeptSetup};

use crate::answer::{Lost, Refusal};
use crate::state::Adapter;
use crate::step::StepEvent;

impl Adapter {
    // Packets of a parent were lost on the way.
    pub fn loss(&mut self, parent: usize) -> Result<Lost, Refusal>
        ensures rule { Loses (setup_of self.old) (entries_of self.old) (view self.old) parent (loss_answer result) (view self.new) }
        ensures same { KeptSetup self.old self.new }
    {
        self.listed(parent)?;
        self.forget(parent);
        Ok(Lost)
    }

    // Anchor, times and line of a parent go, and the adapter falls out of step.
    pub(crate) fn forget(&mut self, parent: usize)
        requires { Listed (setup_of self.old) (entries_of self.old) parent }
        ensures after { view self.new ≡ lose parent (view self.old) }
        ensures same { KeptSetup self.old self.new }
    {
        self.memory.clear(parent);
        self.memory.empty_backlog();
        self.heard[parent] = None;
        self.step = self.step.after(StepEvent::Loss);
    }
}
