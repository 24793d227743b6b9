// The check of a configuration text.
ghost use Rattle.config.specs.Verdict.{Answers};

use crate::clash::find_clash;
use crate::fault::ConfigFault;
use crate::reader::Reader;
use crate::table::Config;
use crate::tables::{read_head, read_parents, read_rows};
use std::alloc::Global;

// How many bytes the longest configuration text has.
pub const LONGEST: usize = 16_384;

// The configuration that a text writes, or why it is refused.
pub fn check(heap: Global, text: &[u8]) -> Result<Config, ConfigFault>
    ensures { Answers text.now result }
{
    let mut reader = Reader::new(text)?;
    let settings = read_head(&mut reader)?;
    let rates = read_parents(heap, &mut reader)?;
    reader.next_line().names(b"parent pid out kind service")?;
    let rows = read_rows(heap, &mut reader)?;
    if let Some(row) = find_clash(rows.as_slice(), rates.len()) {
        let line = 7 + rates.len() + row;
        return Err(ConfigFault::Clash { line: line as u32 });
    }
    Ok(Config::of(settings, rates, rows))
}
