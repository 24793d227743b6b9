// An adapter at power-up, and what its configuration allows.
ghost use Rattle.std.specs.Prelude.{◌≡◌, vec_len, Decides, MatchResult};
ghost use Rattle.config.specs.Setup.{setup};
ghost use Rattle.rules.specs.State.{power_up, Roomy};
ghost use Rattle.rules.specs.Calls.{Listed};
ghost use Rattle.adapter.specs.Answers.{number_of};
ghost use Rattle.adapter.specs.View.{view, setup_of, entries_of, Unlisted};

use crate::answer::Refusal;
use crate::records::Records;
use crate::state::Adapter;
use crate::step::Step;
use config::table::Config;
use memory::Memory;
use rules::entry::Entry;

impl Adapter {
    // An adapter at power-up, whatever its configuration and however many entries it is given.
    pub fn new(config: Config, entries: Vec<Entry>) -> Adapter
        ensures powered { view result ≡ power_up (setup config) }
        ensures configured { setup_of result ≡ setup config }
        ensures sized { entries_of result ≡ vec_len entries }
    {
        let memory = Memory::new(entries, config.backlog() as usize, config.rates().len());
        Adapter {
            config,
            memory,
            heard: [None; 4],
            records: Records::new(),
            step: Step::Out,
        }
    }

    // The configuration that it was made with.
    pub fn config(&self) -> &Config
        ensures { setup result.now ≡ setup_of self.now }
    {
        &self.config
    }

    // Whether the memory has an entry for each place of the backlog and one for each parent at least.
    pub(crate) fn is_roomy(&self) -> bool
        ensures { Decides result (Roomy (setup_of self.now) (entries_of self.now)) }
    {
        self.config.backlog() as usize + self.config.rates().len() <= self.memory.entries()
    }

    // Whether the memory suffices and the parent is one of those listed.
    pub(crate) fn listed(&self, parent: usize) -> Result<(), Refusal>
        ensures { MatchResult result (λ _. Listed (setup_of self.now) (entries_of self.now) parent) (λ refusal. Unlisted (setup_of self.now) (entries_of self.now) parent (number_of refusal)) }
    {
        if !self.is_roomy() {
            return Err(Refusal::TooFewEntries);
        }
        if parent >= self.config.rates().len() {
            return Err(Refusal::UnknownParent);
        }
        Ok(())
    }
}
