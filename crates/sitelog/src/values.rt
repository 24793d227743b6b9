// The values that words write.
ghost use Rattle.std.specs.Prelude.{◌≡◌, ◌^◌, true};
ghost use Rattle.std.specs.Char.{is_ascii_digit};
ghost use Rattle.std.specs.List.{list_all};
ghost use Rattle.std.specs.Option.{option_map};
ghost use Rattle.std.specs.Result.{result_ok};
ghost use Rattle.config.specs.Text.{all_digits, written};
ghost use Rattle.sitelog.specs.Lines.{digits, below, number_below, time_in};
ghost use Rattle.sitelog.specs.Sites.{index_of};

use crate::fault::{Field, LineFault};
use crate::site::Place;
use config::cuts::same;

// Whether all bytes are decimal digits.
fn all_digits_in(word: &[u8]) -> bool
    ensures { result ≡ list_all is_ascii_digit word.now }
{
    word.iter().all(|b| b.is_ascii_digit())
}

// Whether a word is one or more decimal digits.
#[tactic(auto, using(crate::proofs::Digits::all_are, crate::proofs::Digits::long_enough))]
fn are_digits(word: &[u8]) -> bool
    ensures { result ≡ digits word.now }
{
    !word.is_empty() && all_digits_in(word)
}

// The number that decimal digits write, if it has 64 bits. (Not `str::parse`: a word is bytes, and made a `str` before it
// would be no plainer.)
#[tactic(auto, using(crate::proofs::Digits::written_begins))]
fn value(word: &[u8]) -> Option<u64>
    requires { all_digits word.now ≡ true }
    ensures { result ≡ below (2 ^ 64) (written word.now) }
{
    let mut n: u64 = 0;
    for b in word {
        n = n.checked_mul(10)?.checked_add(u64::from(*b - b'0'))?;
    }
    Some(n)
}

// The number that a word writes.
pub(crate) fn number(field: Field, word: &[u8]) -> Result<u64, LineFault>
    ensures { result_ok result ≡ number_below (2 ^ 64) word.now }
{
    if !are_digits(word) {
        return Err(LineFault::NoNumber(field));
    }
    value(word).ok_or(LineFault::TooLarge(field))
}

// The same at 32 bits.
pub(crate) fn short(field: Field, word: &[u8]) -> Result<u32, LineFault>
    ensures { result_ok result ≡ number_below (2 ^ 32) word.now }
{
    u32::try_from(number(field, word)?).map_err(|_| LineFault::TooLarge(field))
}

// The place that a word writes.
pub(crate) fn place(word: &[u8]) -> Result<Place, LineFault>
    ensures { option_map index_of (result_ok result) ≡ number_below 16 word.now }
{
    let n = number(Field::Id, word)?;
    Place::of(n).ok_or(LineFault::TooLarge(Field::Id))
}

// A time, or `-` for none. (Not a pattern `b"-"`: `same` tells of a word in the definitions' own word, `bytes_eq`.)
pub(crate) fn time(word: &[u8]) -> Result<Option<u64>, LineFault>
    ensures { result_ok result ≡ time_in word.now }
{
    if same(word, b"-") {
        return Ok(None);
    }
    number(Field::Time, word).map(Some)
}
