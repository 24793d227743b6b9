// The strip: packets end to end.
ghost use Rattle.std.specs.Prelude.{◌≡◌, ◌%◌};

use crate::store::Store;

pub(crate) mod carries;

#[derive(Drop)]
pub struct Strip {
    store: Store,
    // The used bytes are whole packets.
    ghost whole: { store.used % 188 ≡ 0 },
}
