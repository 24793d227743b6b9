// Numbers of a configuration text.
ghost use Rattle.std.specs.Prelude.{◌≡◌, false, IfOk};
ghost use Rattle.std.specs.Range.{range_inclusive_start, range_inclusive_end, range_inclusive_exhausted};
ghost use Rattle.config.specs.Layout.{within};
ghost use Rattle.config.specs.Reading.{unless};
ghost use Rattle.config.specs.Rows.{Between};
ghost use Rattle.config.specs.Text.{number as number_of, written};

use crate::fault::TextRefusal;
use std::ops::RangeInclusive;

// The number that a field writes: 1 to 10 decimal digits and no leading zero.
pub(crate) fn number(field: &[u8]) -> Option<u64>
    ensures { result ≡ number_of field.now }
{
    let digits = field.len();
    if digits == 0 || digits > 10 {
        return None;
    }
    if digits > 1 && field[0] == b'0' {
        return None;
    }
    // a loop: `parse` lets a `+` stand first, and a fold's closure would need a clause that bounds `n`
    let mut n: u64 = 0;
    for b in field {
        if !b.is_ascii_digit() {
            return None;
        }
        n = n * 10 + u64::from(*b - b'0');
    }
    Some(n)
}

// A number of a range.
#[tactic(auto, using(crate::proofs::Numbers::is_written), unfolding(crate::specs::Layout::within))]
pub(crate) fn number_within(field: &[u8], range: RangeInclusive<u64>) -> Result<u64, TextRefusal>
    requires { range_inclusive_exhausted range ≡ false }
    ensures value { result ≡ unless (within (range_inclusive_start range) (range_inclusive_end range) field.now) (written field.now) }
    ensures range { IfOk result (Between (range_inclusive_start range) (range_inclusive_end range)) }
{
    let n = number(field).ok_or(TextRefusal::Form)?;
    if range.contains(&n) {
        Ok(n)
    } else {
        Err(TextRefusal::Range)
    }
}
