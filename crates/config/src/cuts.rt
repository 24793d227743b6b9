// Where a text is cut: at a separator byte.
ghost use Rattle.std.specs.Prelude.{◌≡◌, ℕ, ◌+◌, ◌<◌, ◌≤◌, length, drop, ◌≢◌, slice_index};
ghost use Rattle.std.specs.Str.{bytes_eq};

// The index of the first separator, or the length where there is none.
pub fn find(bytes: &[u8], separator: u8) -> usize
    ensures within { result ≤ length bytes.now }
    ensures before { (k : ℕ) → k < result → slice_index bytes.now k ≢ separator }
    ensures found { result < length bytes.now → slice_index bytes.now result ≡ separator }
{
    bytes
        .iter()
        .position(|b| *b == separator)
        .unwrap_or(bytes.len())
}

// The bytes behind index `end`.
pub fn after(bytes: &[u8], end: usize) -> &[u8]
    ensures { result.now ≡ drop (end + 1) bytes.now }
{
    match bytes.get(end..) {
        Some([_, behind @ ..]) => behind,
        _ => &[],
    }
}

// Whether two texts are the same bytes.
pub fn same(one: &[u8], other: &[u8]) -> bool
    ensures { result ≡ bytes_eq one.now other.now }
{
    one == other
}
