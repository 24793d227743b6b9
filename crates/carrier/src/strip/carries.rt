// A strip as a carrier.
ghost use Rattle.std.specs.Prelude.{◌≡◌, ◌+◌, ◌/◌, [], ◌∷◌, vec_len, OnErr, OnOk};
ghost use Rattle.std.specs.List.{flat_map};
ghost use Rattle.carrier.specs.Meaning.{Carried, vacant, refusal, refusal_in};
ghost use Rattle.carrier.specs.Strips.{strip_bytes, strip_meaning};

use crate::store::Store;
use crate::strip::Strip;
use crate::{Carrier, PutFault, admit};
use psi::packet::LENGTH;

impl Strip {
    // Holds nothing yet, in the bytes that it is given.
    pub fn new(bytes: Vec<u8>) -> Strip
        ensures { strip_meaning result ≡ vacant (vec_len bytes / 188) }
    {
        Strip {
            store: Store::new(bytes),
        }
    }

    // The used bytes: the packets held, end to end.
    pub fn bytes(&self) -> &[u8]
        ensures value { result.now ≡ strip_bytes self.now }
        ensures end_to_end { result.now ≡ flat_map (λ packet. packet) (strip_meaning self.now).packets }
    {
        self.store.written()
    }
}

impl Carrier for Strip {
    ghost meaning = { strip_meaning };

    // Each packet takes one place. An impl that promises more than its trait says the trait's clauses again.
    fn put(&mut self, packet: &[u8]) -> Result<(), PutFault>
        ensures answer { refusal_in result ≡ refusal packet.now (strip_meaning self.old).free }
        ensures same { OnErr result (self.new ≡ self.old) }
        ensures taken { OnOk result (Carried (packet.now ∷ []) (strip_meaning self.old) (strip_meaning self.new)) }
        ensures place { OnOk result ((strip_meaning self.new).free + 1 ≡ (strip_meaning self.old).free) }
    {
        admit(packet, self.free())?;
        self.store.append(packet);
        Ok(())
    }

    fn empty(&mut self) {
        self.store.clear();
    }

    #[tactic(auto, unfolding(crate::specs::Pieces::cut))]
    fn read(&self, i: usize, place: &mut [u8; LENGTH]) -> Option<()> {
        let (packets, _) = self.bytes().as_chunks::<LENGTH>();
        *place = *packets.get(i)?;
        Some(())
    }

    fn free(&self) -> usize {
        self.store.unused() / LENGTH
    }

    fn capacity(&self) -> usize {
        self.store.size() / LENGTH
    }

    #[tactic(auto, using(crate::proofs::Cuts::length_cut))]
    fn held(&self) -> usize {
        self.bytes().len() / LENGTH
    }
}
