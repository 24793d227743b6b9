// The three tables of a configuration text, one after the other.
ghost use Rattle.std.specs.Prelude.{◌≡◌, ◌+◌, [], length, slice_index_or};
ghost use Rattle.config.specs.Layout.{settings_of, parents as parents_of};
ghost use Rattle.config.specs.Reading.{text_lines};
ghost use Rattle.config.specs.Walk.{At, ParentsRead, RowsRead, Reads, ReadsInMemory};

use crate::fault::{ConfigFault, TextFault};
use crate::reader::Reader;
use crate::row::{Kind, Row, Settings};
use std::alloc::Global;

// The first table, and the names of the second.
pub(crate) fn read_head(reader: &mut Reader<'_>) -> Result<Settings, TextFault>
    requires { reader.old.line ≡ 0 }
    ensures { Reads (text_lines reader.old) reader.new 4 (λ s. s ≡ settings_of (slice_index_or (text_lines reader.old) 1 [])) result }
{
    reader.next_line().names(b"ticks backlog copies tsid")?;
    let settings = reader.next_line().settings()?;
    reader.next_line().gap()?;
    reader.next_line().names(b"parent rate")?;
    Ok(settings)
}

// The lines of the second table, and the empty line behind them: the parents' rates.
pub(crate) fn read_parents(heap: Global, reader: &mut Reader<'_>) -> Result<Vec<u32>, ConfigFault>
    requires { At (text_lines reader.old) reader.old 4 }
    ensures { ReadsInMemory (text_lines reader.old) reader.new (5 + parents_of (text_lines reader.old)) (λ rates. ParentsRead (text_lines reader.old) rates.items) result }
{
    let mut rates = Vec::new(heap);
    while let Some(rate) = reader.next_line().parent(rates.len())? {
        rates.push(rate)?;
    }
    Ok(rates)
}

// The lines of the third table, up to the end of the text: the map.
pub(crate) fn read_rows(heap: Global, reader: &mut Reader<'_>) -> Result<Vec<Row>, ConfigFault>
    requires { At (text_lines reader.old) reader.old (6 + parents_of (text_lines reader.old)) }
    ensures { ReadsInMemory (text_lines reader.old) reader.new (length (text_lines reader.old)) (λ rows. RowsRead (text_lines reader.old) rows.items) result }
{
    let mut rows = Vec::new(heap);
    // kept beside the rows: `filter().count()` would count all of them again at each line
    let mut pmts = 0;
    while let Some(row) = reader.next_line().row(rows.len(), pmts)? {
        if row.kind == Kind::Pmt {
            pmts += 1;
        }
        rows.push(row)?;
    }
    Ok(rows)
}
