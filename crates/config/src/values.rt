// Lines of values.
#![tactic(auto, using(crate::proofs::Lines::unless_ok, crate::proofs::Lines::unless_err, crate::proofs::Lines::values_by_fields, crate::proofs::Lines::moved_on), unfolding(crate::specs::Layout::settings_of, crate::specs::Layout::rate_of, crate::specs::Layout::row_of))]

ghost use Rattle.std.specs.Prelude.{◌≡◌, false};
ghost use Rattle.std.specs.Range.{range_inclusive_start, range_inclusive_end, range_inclusive_exhausted};
ghost use Rattle.config.specs.Layout.{values_wrong, settings_rules, settings_of, parent_rules, rate_of, row_rules, row_of};
ghost use Rattle.config.specs.Reading.{IsNext, unless};
ghost use Rattle.config.specs.Rows.{least_service, most_service};

use crate::fault::TextFault;
use crate::fields::Fields;
use crate::row::{Kind, Row, Settings};
use std::ops::RangeInclusive;

impl Fields<'_> {
    // The settings that the line writes.
    pub(crate) fn settings(mut self) -> Result<Settings, TextFault>
        requires { IsNext 1 self }
        ensures { result ≡ unless (values_wrong self.entry.line settings_rules self.entry.bytes.now) (settings_of self.entry.bytes.now) }
    {
        self.should_be(4)?;
        Ok(Settings {
            ticks: self.number(1, 10_000..=40_000_000)? as u32,
            backlog: self.number(2, 1..=1_024)? as u32,
            copies: self.number(3, 1..=16)? as u32,
            tsid: self.number(4, 0..=65_535)? as u16,
        })
    }

    // The rate that the line writes, which is that of parent `parent`.
    pub(crate) fn rate(mut self, parent: u64) -> Result<u32, TextFault>
        requires { IsNext 1 self }
        ensures { result ≡ unless (values_wrong self.entry.line (parent_rules parent) self.entry.bytes.now) (rate_of self.entry.bytes.now) }
    {
        self.should_be(2)?;
        self.number(1, parent..=parent)?;
        let rate = self.number(2, 100_000..=100_000_000)?;
        Ok(rate as u32)
    }

    // The map row that the line writes.
    pub(crate) fn row(mut self) -> Result<Row, TextFault>
        requires { IsNext 1 self }
        ensures { result ≡ unless (values_wrong self.entry.line (row_rules (row_of self.entry.bytes.now).kind) self.entry.bytes.now) (row_of self.entry.bytes.now) }
    {
        self.should_be(5)?;
        let parent = self.number(1, 0..=3)? as u8;
        let pid = self.number(2, 0..=8_190)? as u16;
        let out = self.number(3, 32..=8_190)? as u16;
        let kind = self.kind(4)?;
        let service = self.number(5, services(kind))? as u16;
        Ok(Row {
            parent,
            pid,
            out,
            kind,
            service,
        })
    }
}

// The program numbers that a row of a kind may have.
fn services(kind: Kind) -> RangeInclusive<u64>
    ensures least { range_inclusive_start result ≡ least_service kind }
    ensures most { range_inclusive_end result ≡ most_service kind }
    ensures fresh { range_inclusive_exhausted result ≡ false }
{
    match kind {
        Kind::Pass => 0..=0,
        Kind::Pmt => 1..=65_535,
    }
}
