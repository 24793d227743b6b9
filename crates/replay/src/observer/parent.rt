// What a site log tells of a parent: when the packets that were answered held arrive.
use feed::known::Known;
use std::alloc::{AllocError, Global};
use std::collections::VecDeque;

// What a log tells of a parent.
#[derive(Drop)]
pub(crate) struct Parent {
    rate: u32,
    // What the packets taken since the last loss tell, from an anchor on.
    known: Option<Known>,
    // When packets arrive that were answered held since then, and that a frame to come may admit.
    held: VecDeque<u64>,
}

impl Parent {
    pub(crate) fn new(heap: Global, rate: u32) -> Parent {
        Parent {
            rate,
            known: None,
            held: VecDeque::new(heap),
        }
    }

    // When a packet that is taken now arrives; nothing where the parent has no anchor.
    pub(crate) fn take(&mut self, time: Option<u64>) -> Option<u64> {
        self.known = Known::after(self.known, time, self.rate);
        self.known.map(|known| known.heard_to)
    }

    // A packet was answered held.
    pub(crate) fn hold(&mut self, arrival: u64) -> Result<(), AllocError> {
        self.held.push_back(arrival)?;
        Ok(())
    }

    pub(crate) fn forget(&mut self) {
        self.known = None;
        self.held.clear();
    }

    // Lets go of what arrives before a moment, and says how much that is.
    pub(crate) fn let_go_before(&mut self, limit: u64) -> u32 {
        // For most slots nothing goes, and a drain of nothing has its cost.
        let begins = self.held.front().is_some_and(|arrival| *arrival < limit);
        if !begins {
            return 0;
        }
        let gone = self
            .held
            .iter()
            .take_while(|arrival| **arrival < limit)
            .count();
        self.held.drain(..gone);
        u32::try_from(gone).unwrap_or(u32::MAX)
    }
}
