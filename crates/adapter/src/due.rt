// What comes of the oldest record's frame, where it need not wait.
use rules::entry::Frame;

pub(crate) enum Due {
    // It starts too early: its number, and R.
    Skips { number: u32, since: u64 },
    Places(Frame),
}
