// The folded carrier: stuffing is left out and counted.
ghost use Rattle.std.specs.Prelude.{◌≡◌, ◌+◌, ◌*◌, ◌/◌, ◌%◌, ◌≤◌, length, take};
ghost use Rattle.carrier.specs.Folds.{with_pending};

use crate::store::Store;

pub(crate) mod carries;

#[derive(Drop)]
pub struct Folded {
    store: Store,
    // How many stuffing packets came since a packet was kept.
    pending: u8,
    // How many packets are held, counted as they come so that `held` answers at once.
    held: usize,
    // The used bytes are whole folds: a packet and its count.
    ghost whole: { store.used % 189 ≡ 0 },
    ghost counted: { held ≡ length (with_pending (take store.used store.bytes.items) pending) },
    // A fold stands for 256 packets at most.
    ghost bounded: { held ≤ 256 * (store.used / 189) + pending },
}

impl Folded {
    // How many stuffing packets are held behind the last packet that was kept.
    pub fn pending(&self) -> u8
        ensures { result ≡ self.now.pending }
    {
        self.pending
    }
}
