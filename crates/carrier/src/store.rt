// Bytes that are written from the front on. They are given once, and no call allocates.
// A vector that is emptied and filled again would need the given length beside it too, and its pushes an `Err` that never comes.
// `Strip` and `Folded` share only this: the length of a piece is a divisor in each, and a fold is written in two steps, its packet and its count,
// so that whole pieces are the carriers' invariant and not the store's.
ghost use Rattle.std.specs.Prelude.{◌≤◌, vec_len};

pub(crate) mod writes;

#[derive(Drop)]
pub(crate) struct Store {
    bytes: Vec<u8>,
    used: usize,
    ghost within: { used ≤ vec_len bytes },
}
