// The frames of a run: one after the other, all of one length.
ghost use Rattle.std.specs.Prelude.{◌≡◌};
ghost use Rattle.feed.specs.Frames.{frame_of};

use adapter::limits::LATEST;
use rules::entry::Frame;

#[derive(Clone, Copy)]
pub struct Plan {
    // When frame 0 starts.
    pub start: u64,
    // How long each lasts.
    pub ticks: u32,
    // How many slots each has.
    pub slots: u32,
}

impl Plan {
    // The record of frame `n`, or `None` where its number does not fit 32 bits or its start is above 2^60.
    pub fn frame(&self, n: u64) -> Option<Frame>
        ensures { result ≡ frame_of self.now n }
    {
        let number = u32::try_from(n).ok()?;
        let start = self.start.checked_add(n * u64::from(self.ticks))?;
        (start <= LATEST).then_some(Frame {
            number,
            start,
            slots: self.slots,
        })
    }
}
