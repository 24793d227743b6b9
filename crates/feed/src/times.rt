// Times of a parent's packets in 27 MHz ticks. Where one does not fit 64 bits, the largest number stands for it.
ghost use Rattle.std.specs.Prelude.{◌≡◌};
ghost use Rattle.rules.specs.Times.{after};
ghost use Rattle.feed.specs.Times.{capped, handed_with, unwrapped};

use adapter::limits::TICK_BITS;

// In a plain file one packet in so many is handed with its time.
const TIMED_EVERY: u64 = 1000;
// Stamps have 30 bits.
const STAMPS: u64 = 1 << 30;

// How long so many packets last at so many bits per second (no time at all at none).
pub(crate) fn delay(rate: u32, count: u64) -> u64
    ensures { result ≡ capped (after rate count) }
{
    let ticks = (u128::from(count) * u128::from(TICK_BITS)).checked_div(u128::from(rate));
    u64::try_from(ticks.unwrap_or(0)).unwrap_or(u64::MAX)
}

// The time that packet `i` of a plain file is handed with, counted from 0: packet 0 arrives at `first`.
pub fn handed_with(first: u64, rate: u32, i: u64) -> Option<u64>
    ensures { result ≡ handed_with first rate i }
{
    (i % TIMED_EVERY == 0).then(|| first.saturating_add(delay(rate, i)))
}

// The time of a timed file's next packet: the time before and as many ticks as its stamp is further on.
pub fn unwrap_stamp(before: u64, last: u32, stamp: u32) -> u64
    ensures { result ≡ unwrapped before last stamp }
{
    let passed = (u64::from(stamp) + STAMPS - u64::from(last) % STAMPS) % STAMPS;
    before.saturating_add(passed)
}
