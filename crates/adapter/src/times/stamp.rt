// When a packet arrives, by the time that it is handed with or by the packets since its parent's anchor.
ghost use Rattle.std.specs.Prelude.{◌≡◌, ℕ, ◌<◌, ◌≤◌, List, Some, None, nat_lt};
ghost use Rattle.rules.specs.Entries.{Entry};
ghost use Rattle.rules.specs.Times.{after};
ghost use Rattle.adapter.specs.Parents.{stamp_of, parent_of, TakenSo, StampedSo};

use crate::limits::{LATEST, TICK_BITS};
use crate::times::Times;

// So many packets may follow an anchor.
const MOST: u32 = 100_000;

// No arrival time can be given to a packet.
#[derive(Clone, Copy)]
pub(crate) struct Untimely;

// What the time handed with a packet, or none, makes of it: what is known of its parent once it is taken, if the parent has an anchor then.
pub(crate) fn stamp(
    known: Option<Times>,
    time: Option<u64>,
    rate: u32,
) -> Result<Option<Times>, Untimely>
    requires { 0 < rate }
    ensures { (line : List Entry) → StampedSo rate (parent_of known line) time result }
{
    match (known, time) {
        (None, None) => Ok(None),
        (None, Some(at)) => first_anchor(at).map(Some),
        (Some(times), None) => count_on(times, rate).map(Some),
        (Some(times), Some(at)) => later_anchor(times, at).map(Some),
    }
}

// The first anchor since power-up or the last loss.
fn first_anchor(at: u64) -> Result<Times, Untimely>
    ensures { (rate : ℕ) → TakenSo rate None (Some at) result }
{
    if at > LATEST {
        return Err(Untimely);
    }
    Ok(Times {
        anchor: at,
        count: 0,
        from: at,
        heard_to: at,
    })
}

// A later one.
fn later_anchor(times: Times, at: u64) -> Result<Times, Untimely>
    ensures { (rate : ℕ) (line : List Entry) → TakenSo rate (parent_of (Some times) line) (Some at) result }
{
    if at > LATEST || at <= times.heard_to {
        return Err(Untimely);
    }
    Ok(Times {
        anchor: at,
        count: 0,
        from: times.from,
        heard_to: at,
    })
}

// The next packet after an anchor.
fn count_on(times: Times, rate: u32) -> Result<Times, Untimely>
    requires { 0 < rate }
    ensures { (line : List Entry) → TakenSo rate (parent_of (Some times) line) None result }
{
    if times.count >= MOST {
        return Err(Untimely);
    }
    let count = times.count + 1;
    Ok(Times {
        anchor: times.anchor,
        count,
        from: times.from,
        heard_to: times.anchor + delay(rate, count),
    })
}

// How long after its anchor the packet of this count arrives.
fn delay(rate: u32, count: u32) -> u64
    requires { (0 < rate) × (count ≤ 100000) }
    ensures value { result ≡ after rate count }
    ensures bound { result ≤ 4060800000000000 }
{
    u64::from(count) * TICK_BITS / u64::from(rate)
}

impl Times {
    // When the last packet taken arrived.
    pub(crate) fn heard_to(&self) -> u64
        ensures { result ≡ self.now.heard_to }
    {
        self.heard_to
    }

    // What arrives before is no longer wanted.
    pub(crate) fn from_time(&self) -> u64
        ensures { result ≡ self.now.from }
    {
        self.from
    }

    // The same with another from-time.
    pub(crate) fn since(self, from: u64) -> Times
        ensures { stamp_of result ≡ record { arrival = self.heard_to; anchor = self.anchor; count = self.count; from = from } }
    {
        Times {
            anchor: self.anchor,
            count: self.count,
            from,
            heard_to: self.heard_to,
        }
    }

    // Whether the last packet taken arrived before the from-time.
    pub(crate) fn comes_early(&self) -> bool
        ensures { result ≡ nat_lt self.now.heard_to self.now.from }
    {
        self.heard_to < self.from
    }
}
