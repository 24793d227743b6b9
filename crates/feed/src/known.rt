// What is known of a parent from its packets that were taken, as an adapter knows it.
ghost use Rattle.std.specs.Prelude.{◌≡◌};
ghost use Rattle.feed.specs.Tracks.{anchored as anchored_at, counted as counted_on, taken, KeptByRule};

use crate::times::delay;

#[derive(Clone, Copy, PartialEq, Eq, Debug)]
pub struct Known {
    // When its last anchor arrived.
    pub anchor: u64,
    // How many packets were taken after that.
    pub count: u64,
    // What arrives before is no longer wanted.
    pub from: u64,
    // When the last packet taken arrived.
    pub heard_to: u64,
}

impl Known {
    // What is known after a packet was taken, handed with its time or with none; at first nothing is known.
    pub fn after(known: Option<Known>, time: Option<u64>, rate: u32) -> Option<Known>
        ensures value { result ≡ taken rate known time }
        ensures rule { KeptByRule rate known time result }
    {
        match time {
            Some(at) => Some(anchored(at, known.map_or(at, |known| known.from))),
            None => known.map(|known| known.counted(rate)),
        }
    }

    // The next packet after an anchor.
    fn counted(self, rate: u32) -> Known
        ensures { result ≡ counted_on rate self }
    {
        let count = self.count.saturating_add(1);
        Known {
            count,
            heard_to: self.anchor.saturating_add(delay(rate, count)),
            ..self
        }
    }
}

// An anchor, of a parent with this from-time.
fn anchored(at: u64, from: u64) -> Known
    ensures { result ≡ anchored_at at from }
{
    Known {
        anchor: at,
        count: 0,
        from,
        heard_to: at,
    }
}
