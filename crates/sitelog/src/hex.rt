// Bytes written in hex, two digits for each; `-` writes none.
ghost use Rattle.std.specs.Prelude.{◌≡◌, ◌<◌, IfSome};
ghost use Rattle.sitelog.specs.Lines.{hex_digit, pair, BytesSo};

use crate::fault::LineFault;
use config::cuts::same;
use std::alloc::Global;
use std::fmt;

fn digit(c: u8) -> Option<u8>
    ensures value { result ≡ hex_digit c }
    ensures bound { IfSome result (λ d. d < 16) }
{
    match c {
        b'0'..=b'9' => Some(c - b'0'),
        b'a'..=b'f' => Some(c - b'a' + 10),
        b'A'..=b'F' => Some(c - b'A' + 10),
        _ => None,
    }
}

// The byte that two digits write.
fn byte(high: u8, low: u8) -> Option<u8>
    ensures { result ≡ pair (hex_digit high) (hex_digit low) }
{
    Some(digit(high)? * 16 + digit(low)?)
}

// The bytes that a word writes. (Not a pattern `b"-"`: `same` tells of a word in the definitions' own word, `bytes_eq`.)
pub fn bytes_in(heap: Global, word: &[u8]) -> Result<Vec<u8>, LineFault>
    ensures { BytesSo word.now result }
{
    let mut bytes = Vec::new(heap);
    if same(word, b"-") {
        return Ok(bytes);
    }
    if word.is_empty() {
        return Err(LineFault::NoHex);
    }
    for pair in word.chunks(2) {
        let [high, low] = pair else {
            return Err(LineFault::OddHex);
        };
        bytes.push(byte(*high, *low).ok_or(LineFault::NoHex)?)?;
    }
    Ok(bytes)
}

// Bytes to be printed in hex, lower case.
#[derive(Clone, Copy)]
pub struct Hex<'a>(pub &'a [u8]);

impl fmt::Display for Hex<'_> {
    fn fmt<W: fmt::Write>(&self, f: &mut fmt::Formatter<W>) -> fmt::Result {
        if self.0.is_empty() {
            return f.write_str("-");
        }
        for byte in self.0 {
            write!(f, "{byte:02x}")?;
        }
        Ok(())
    }
}
