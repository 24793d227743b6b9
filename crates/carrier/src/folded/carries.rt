// A folded carrier as a carrier.
ghost use Rattle.std.specs.Prelude.{◌≡◌, ◌/◌, [], ◌∷◌, vec_len, OnErr, OnOk};
ghost use Rattle.carrier.specs.Foldings.{Blank, Folds, folded_bytes, folded_meaning};
ghost use Rattle.carrier.specs.Folds.{with_pending, left_out};
ghost use Rattle.carrier.specs.Meaning.{Carried, vacant, refusal, refusal_in};

use crate::folded::Folded;
use crate::store::Store;
use crate::{Carrier, PutFault, admit};
use psi::packet::{LENGTH, is_stuffing, stuffing};
use std::mem;

// A packet and its count.
const FOLD: usize = LENGTH + 1;

impl Folded {
    // Holds nothing yet, in the bytes that it is given.
    pub fn new(bytes: Vec<u8>) -> Folded
        ensures meaning { folded_meaning result ≡ vacant (vec_len bytes / 189) }
        ensures blank { Blank result }
    {
        Folded {
            store: Store::new(bytes),
            pending: 0,
            held: 0,
        }
    }

    // The used bytes: unfolded, and with the pending stuffing behind, they are the packets held.
    pub fn bytes(&self) -> &[u8]
        ensures value { result.now ≡ folded_bytes self.now }
        ensures unfolds { (folded_meaning self.now).packets ≡ with_pending result.now self.now.pending }
    {
        self.store.written()
    }

    // Only stuffing is left out, byte for byte, and only while the count has room.
    fn leaves_out(&self, packet: &[u8]) -> bool
        ensures { result ≡ left_out packet.now self.now.pending }
    {
        self.pending < u8::MAX && is_stuffing(packet)
    }
}

impl Carrier for Folded {
    ghost meaning = { folded_meaning };

    // Stuffing that is left out takes no place; every other packet takes one. An impl that promises more than its trait says the trait's clauses again.
    fn put(&mut self, packet: &[u8]) -> Result<(), PutFault>
        ensures answer { refusal_in result ≡ refusal packet.now (folded_meaning self.old).free }
        ensures same { OnErr result (self.new ≡ self.old) }
        ensures taken { OnOk result (Carried (packet.now ∷ []) (folded_meaning self.old) (folded_meaning self.new)) }
        ensures folds { OnOk result (Folds packet.now self.old self.new) }
    {
        admit(packet, self.free())?;
        if self.leaves_out(packet) {
            self.pending += 1;
        } else {
            self.store.append(packet);
            let count = mem::replace(&mut self.pending, 0);
            self.store.append(&[count]);
        }
        self.held += 1;
        Ok(())
    }

    fn empty(&mut self)
        ensures meaning { folded_meaning self.new ≡ vacant (folded_meaning self.old).capacity }
        ensures blank { Blank self.new }
    {
        self.store.clear();
        self.pending = 0;
        self.held = 0;
    }

    // Walks from fold to fold: `left` packets are still to be passed. A fold of a chain would carry `left` and the place written in one, so a loop is plainer.
    fn read(&self, i: usize, place: &mut [u8; LENGTH]) -> Option<()> {
        let mut left = i;
        for fold in self.bytes().chunks_exact(FOLD) {
            let count = usize::from(fold[LENGTH]);
            if left < count {
                *place = stuffing();
                return Some(());
            }
            if left == count {
                place.copy_from_slice(&fold[0..LENGTH]);
                return Some(());
            }
            left -= count + 1;
        }
        if left >= usize::from(self.pending) {
            return None;
        }
        *place = stuffing();
        Some(())
    }

    fn free(&self) -> usize {
        self.store.unused() / FOLD
    }

    fn capacity(&self) -> usize {
        self.store.size() / FOLD
    }

    fn held(&self) -> usize {
        self.held
    }
}
