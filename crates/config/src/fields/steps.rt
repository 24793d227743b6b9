ghost use Rattle.std.specs.Prelude.{◌≡◌, ◌-◌, false, length, Some, IfOk};
ghost use Rattle.std.specs.Range.{range_inclusive_start, range_inclusive_end, range_inclusive_exhausted};
ghost use Rattle.config.specs.Layout.{within, kind_word, kind as kind_of, field_at};
ghost use Rattle.config.specs.Reading.{count_wrong, field_wrong, left, next_field, IsNext, Moved, unless};
ghost use Rattle.config.specs.Rows.{Between};
ghost use Rattle.config.specs.Text.{fields, written};

use crate::cuts::{after, find};
use crate::fault::{TextFault, TextRefusal};
use crate::fields::Fields;
use crate::number::number_within;
use crate::row::Kind;
use std::ops::RangeInclusive;

impl<'a> Fields<'a> {
    // The fields of line `line`, none of them read.
    pub(crate) fn new(line: u32, bytes: &'a [u8]) -> Fields<'a>
        ensures { result ≡ record { line = line; bytes = bytes.entry; rest = Some bytes.entry } }
    {
        Fields {
            line,
            bytes,
            rest: Some(bytes),
        }
    }

    // How many there are.
    fn count(&self) -> usize
        ensures { result ≡ length (fields self.now.bytes.now) }
    {
        // a loop: `filter().count()` takes each byte by a branch, and this loop many at once
        let mut spaces: usize = 0;
        for b in self.bytes {
            if *b == b' ' {
                spaces += 1;
            }
        }
        spaces + 1
    }

    // An error unless there are so many.
    pub(crate) fn should_be(&self, count: usize) -> Result<(), TextFault>
        ensures { result ≡ unless (count_wrong self.now.line count self.now.bytes.now) tt }
    {
        if self.count() != count {
            return Err(TextRefusal::Form.at(self.line, 0));
        }
        Ok(())
    }

    // The next field, or an empty one where none is left.
    fn next(&mut self) -> &'a [u8]
        ensures value { result.now ≡ next_field self.old }
        ensures moved { Moved self.old self.new }
    {
        let Some(bytes) = self.rest else {
            return &[];
        };
        let end = find(bytes, b' ');
        self.rest = if end < bytes.len() {
            Some(after(bytes, end))
        } else {
            None
        };
        &bytes[..end]
    }

    // The next field, which is field `field`, as a number of a range.
    #[tactic(auto, using(crate::proofs::Lines::next_is))]
    pub(crate) fn number(
        &mut self,
        field: u32,
        range: RangeInclusive<u64>,
    ) -> Result<u64, TextFault>
        requires next { IsNext field self.old }
        requires fresh { range_inclusive_exhausted range ≡ false }
        ensures value { result ≡ unless (field_wrong self.old.line field self.old.bytes.now (within (range_inclusive_start range) (range_inclusive_end range))) (written (field_at self.old.bytes.now (field - 1))) }
        ensures range { IfOk result (Between (range_inclusive_start range) (range_inclusive_end range)) }
        ensures moved { Moved self.old self.new }
    {
        number_within(self.next(), range).map_err(|refusal| refusal.at(self.line, field))
    }

    // The next field, which is field `field`, as a kind.
    #[tactic(auto, using(crate::proofs::Lines::next_is))]
    pub(crate) fn kind(&mut self, field: u32) -> Result<Kind, TextFault>
        requires { IsNext field self.old }
        ensures value { result ≡ unless (field_wrong self.old.line field self.old.bytes.now kind_word) (kind_of (field_at self.old.bytes.now (field - 1))) }
        ensures moved { Moved self.old self.new }
    {
        Kind::try_from(self.next()).map_err(|refusal| refusal.at(self.line, field))
    }
}
