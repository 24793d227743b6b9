// What a line says at its place.
#![tactic(auto, using(crate::proofs::Lines::may_stand, crate::proofs::Lines::may_not_stand), unfolding(crate::specs::Layout::line_wrong, crate::specs::Layout::end_wrong))]

ghost use Rattle.std.specs.Prelude.{◌≡◌, None, Some, IfOk, IfErr};
ghost use Rattle.std.specs.Option.{option_map};
ghost use Rattle.config.specs.Layout.{names as names_place, settings as settings_place, gap as gap_place, map_row, table_line, settings_of, row_of};
ghost use Rattle.config.specs.Reading.{bytes_of, wrong, of_line, parents_end, parent_or_gap, rate_or_none, unless};

use crate::cuts::same;
use crate::fault::{TextFault, TextRefusal};
use crate::fields::Fields;
use crate::line::Line;
use crate::row::{Kind, Row, Settings};

impl<'a> Line<'a> {
    pub(crate) fn new(number: u32, bytes: Option<&'a [u8]>) -> Line<'a>
        ensures number { result.number ≡ number }
        ensures bytes { bytes_of result ≡ option_map (λ x. x.now) bytes.entry }
    {
        Line { number, bytes }
    }

    // A fault of the whole line.
    fn fault(self, refusal: TextRefusal) -> TextFault
        ensures { result ≡ record { refusal = refusal; line = self.entry.number; field = 0 } }
    {
        refusal.at(self.number, 0)
    }

    // The names of a table's columns.
    pub(crate) fn names(self, words: &[u8]) -> Result<(), TextFault>
        ensures { result ≡ unless (wrong self.entry (names_place words.now)) tt }
    {
        match self.bytes {
            Some(line) if same(line, words) => Ok(()),
            _ => Err(self.fault(TextRefusal::Names)),
        }
    }

    // The fields of `line`, if it may stand as line i of a table of 1 to `most` lines.
    fn in_table(self, line: &'a [u8], most: usize, i: usize) -> Result<Fields<'a>, TextFault>
        ensures ok { IfOk result (λ f. (table_line self.entry.number most i line.entry.now None ≡ None) × (f ≡ record { line = self.entry.number; bytes = line.entry; rest = Some line.entry })) }
        ensures err { IfErr result (λ e. table_line self.entry.number most i line.entry.now None ≡ Some e) }
    {
        if i >= most || (i == 0 && line.is_empty()) {
            return Err(self.fault(TextRefusal::Range));
        }
        Ok(Fields::new(self.number, line))
    }

    // The one line of values of the first table.
    pub(crate) fn settings(self) -> Result<Settings, TextFault>
        ensures { result ≡ unless (wrong self.entry settings_place) (of_line settings_of (bytes_of self.entry)) }
    {
        let line = self.bytes.ok_or(self.fault(TextRefusal::Range))?;
        self.in_table(line, 1, 0)?.settings()
    }

    // Whether the second table has ended where its line i would be.
    fn ends_parents(self, i: usize) -> bool
        ensures { result ≡ parents_end i (bytes_of self.entry) }
    {
        i > 0 && self.bytes.is_none_or(|line| line.is_empty())
    }

    // The rate of parent i; none where the empty line behind the parents stands in its place.
    pub(crate) fn parent(self, i: usize) -> Result<Option<u32>, TextFault>
        ensures { result ≡ unless (wrong self.entry (parent_or_gap i (bytes_of self.entry))) (rate_or_none i (bytes_of self.entry)) }
    {
        if self.ends_parents(i) {
            self.gap()?;
            return Ok(None);
        }
        let line = self.bytes.ok_or(self.fault(TextRefusal::Range))?;
        let rate = self.in_table(line, 4, i)?.rate(i as u64)?;
        Ok(Some(rate))
    }

    // Map row i, before which so many rows are `pmt`; none where the text has ended.
    pub(crate) fn row(self, i: usize, pmts: usize) -> Result<Option<Row>, TextFault>
        ensures { result ≡ unless (wrong self.entry (map_row i pmts)) (option_map row_of (bytes_of self.entry)) }
    {
        if i > 0 && self.bytes.is_none() {
            return Ok(None);
        }
        let line = self.bytes.ok_or(self.fault(TextRefusal::Range))?;
        let row = self.in_table(line, 64, i)?.row()?;
        if row.kind == Kind::Pmt && pmts >= 42 {
            return Err(self.fault(TextRefusal::Range));
        }
        Ok(Some(row))
    }

    // The empty line between two tables.
    pub(crate) fn gap(self) -> Result<(), TextFault>
        ensures { result ≡ unless (wrong self.entry gap_place) tt }
    {
        let line = self.bytes.ok_or(self.fault(TextRefusal::Names))?;
        if line.is_empty() {
            Ok(())
        } else {
            Err(self.fault(TextRefusal::Range))
        }
    }
}
