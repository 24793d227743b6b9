// Words of a line: numbers, bytes in hex, rows of a map.
use config::row::{Kind, Row};
use std::alloc::{AllocError, Global};
use std::str::FromStr;

// The first word of a line, and what follows it.
pub(crate) fn cut(line: &str) -> (&str, &str) {
    line.split_once(' ').unwrap_or((line, ""))
}

// The bytes that a word writes in hex, two digits each; `-` has none. (The crate `hex` refuses some words and reads
// capitals, and here every word has an answer.)
pub(crate) fn bytes_in(heap: Global, word: &str) -> Result<Vec<u8>, AllocError> {
    let mut bytes = Vec::new(heap);
    for pair in word.as_bytes().chunks(2) {
        if let [high, low] = pair {
            bytes.push(digit(*high) << 4 | digit(*low))?;
        }
    }
    Ok(bytes)
}

// A digit of hex; 0 for any other byte.
fn digit(c: u8) -> u8 {
    match c {
        b'0'..=b'9' => c - b'0',
        b'a'..=b'f' => c - b'a' + 10,
        _ => 0,
    }
}

// The number that a word writes; 0 for any other word.
pub(crate) fn number_in<N: FromStr + Default + Drop>(word: &str) -> N
where
    N::Err: Drop,
{
    word.parse().unwrap_or_default()
}

// The low eight bits of a number.
pub(crate) fn small_in(word: &str) -> u8 {
    (number_in::<u16>(word) & 0xff) as u8
}

// PARENT PID OUT KIND SERVICE.
pub(crate) fn row_in(line: &str) -> Row {
    let (parent, line) = cut(line);
    let (pid, line) = cut(line);
    let (out, line) = cut(line);
    let (kind, service) = cut(line);
    Row {
        parent: small_in(parent),
        pid: number_in(pid),
        out: number_in(out),
        kind: Kind::try_from(kind.as_bytes()).unwrap_or(Kind::Pass),
        service: number_in(service),
    }
}
