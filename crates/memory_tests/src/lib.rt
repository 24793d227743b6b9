// What a user of a memory writes: elements with a moment.
#![tactic(auto)]

use waiting::Moment;

// An element of this crate's own, so that these tests stand on no other crate of tests.
#[derive(Clone, Copy, PartialEq, Eq, Debug)]
pub struct Tick(pub u64);

impl Moment for Tick {
    ghost moment = { λ t. t.0 };

    fn moment(&self) -> u64 {
        self.0
    }
}

#[cfg(test)]
mod tests;
