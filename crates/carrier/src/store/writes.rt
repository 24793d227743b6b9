// What may be asked of a store, and how it is written.
ghost use Rattle.std.specs.Prelude.{◌≡◌, ◌+◌, ◌≤◌, ◌++◌, length, vec_len};
ghost use Rattle.carrier.specs.Stores.{size, written, unused};

use crate::store::Store;

impl Store {
    // None of the bytes is used.
    pub(crate) fn new(bytes: Vec<u8>) -> Store
        ensures size { size result ≡ vec_len bytes }
        ensures used { result.used ≡ 0 }
    {
        Store { bytes, used: 0 }
    }

    pub(crate) fn size(&self) -> usize
        ensures value { result ≡ size self.now }
    {
        self.bytes.len()
    }

    pub(crate) fn unused(&self) -> usize
        ensures { result ≡ unused self.now }
    {
        self.bytes.len() - self.used
    }

    // The used bytes.
    pub(crate) fn written(&self) -> &[u8]
        ensures value { result.now ≡ written self.now }
        ensures len { length result.now ≡ self.now.used }
    {
        &self.bytes[0..self.used]
    }

    // Writes behind the used bytes.
    pub(crate) fn append(&mut self, more: &[u8])
        requires { length more.now ≤ unused self.old }
        ensures size { size self.new ≡ size self.old }
        ensures used { self.new.used ≡ self.old.used + length more.now }
        ensures written { written self.new ≡ written self.old ++ more.now }
    {
        let end = self.used + more.len();
        self.bytes[self.used..end].copy_from_slice(more);
        self.used = end;
    }

    // No byte is used any more.
    pub(crate) fn clear(&mut self)
        ensures size { size self.new ≡ size self.old }
        ensures used { self.new.used ≡ 0 }
    {
        self.used = 0;
    }
}
