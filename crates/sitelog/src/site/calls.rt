// What a site does by its carriers; what its adapter does alone is called there.
ghost use Rattle.std.specs.Prelude.{◌≡◌, ◌<◌, replicate, IfOk, None, MatchOption, MatchResult};
ghost use Rattle.std.specs.Option.{SomeIff, option_map};
ghost use Rattle.config.specs.Setup.{setup};
ghost use Rattle.adapter.specs.Answers.{frame_answer};
ghost use Rattle.sitelog.specs.Sites.{index_of, carrier_at, Powered, Unchanged, Missing, Mounts, FramesAt, Puts-at, EmptiesAt};

use crate::mounted::{Kind, Mounted};
use crate::site::{Place, Site};
use adapter::Adapter;
use adapter::answer::{Framed, Refusal};
use carrier::{Carrier, PutFault};
use config::table::Config;
use rules::entry::Entry;
use std::alloc::{AllocError, Global};
use std::array;

// No adapter has a use for more entries: 1,024 for the backlog, and 4,096 for each of four parents.
const MOST_ENTRIES: usize = 17_408;

impl Place {
    // The place of a number, if it has one. (Not `TryFrom`: it has no error to tell but that there is none.)
    pub fn of(number: u64) -> Option<Place>
        ensures { SomeIff (option_map index_of result) (number < 16) number }
    {
        if number < 16 {
            Some(Place {
                index: number as u8,
            })
        } else {
            None
        }
    }
}

impl Site {
    // A site at power-up: an adapter of this configuration with so many entries, and no carriers.
    pub fn power(heap: Global, config: Config, entries: usize) -> Result<Site, AllocError>
        ensures { IfOk result (Powered (setup config) entries) }
    {
        let unused = Entry {
            arrival: 0,
            row: 0,
            bytes: [0; 188],
        };
        let entries = vec![in heap; unused; entries.min(MOST_ENTRIES)]?;
        Ok(Site {
            adapter: Adapter::new(config, entries),
            carriers: array::from_fn(|_| None),
        })
    }

    // A new carrier of so many bytes at a place: how many places it has.
    pub fn mount(
        &mut self,
        heap: Global,
        place: Place,
        kind: Kind,
        bytes: usize,
    ) -> Result<usize, AllocError>
        ensures { MatchResult result (Mounts self.old (index_of place) kind bytes self.new) (λ _. Unchanged self.old self.new) }
    {
        let mounted = Mounted::new(heap, kind, bytes)?;
        let capacity = mounted.capacity();
        self.carriers[place.index as usize] = Some(mounted);
        Ok(capacity)
    }

    // The carrier at a place.
    pub fn carrier(&self, place: Place) -> Option<&Mounted>
        ensures { option_map (λ x. x.now) result ≡ carrier_at self.now (index_of place) }
    {
        self.carriers[place.index as usize].as_ref()
    }

    // The oldest record's frame, with the carrier at a place.
    pub fn frame(&mut self, place: Place) -> Option<Result<Framed, Refusal>>
        ensures { MatchOption result (Missing self.old (index_of place) self.new) (λ answer. FramesAt self.old (index_of place) (frame_answer answer) self.new) }
    {
        let mounted = self.carriers[place.index as usize].as_mut()?;
        Some(self.adapter.frame(mounted))
    }

    // Puts a packet into the carrier at a place by hand.
    pub fn put(&mut self, place: Place, packet: &[u8]) -> Option<Result<(), PutFault>>
        ensures { MatchOption result (Missing self.old (index_of place) self.new) (λ answer. Puts-at self.old (index_of place) packet.now answer self.new) }
    {
        let mounted = self.carriers[place.index as usize].as_mut()?;
        Some(mounted.put(packet))
    }

    // Empties the carrier at a place.
    pub fn empty(&mut self, place: Place) -> Option<()>
        ensures { MatchOption result (Missing self.old (index_of place) self.new) (λ _. EmptiesAt self.old (index_of place) self.new) }
    {
        let mounted = self.carriers[place.index as usize].as_mut()?;
        Some(mounted.empty())
    }
}
