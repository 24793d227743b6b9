ghost use Rattle.std.specs.Prelude.{vec_len};
ghost use Rattle.config.specs.Rows.{SettingsInRange, RatesInRange, RowsCounted, RowsInRange, AllListed, NoneShares};

use crate::row::{Row, Settings};

pub mod parts;

// A checked configuration: the settings, the parents' rates and the map.
// Its numbers lie in their ranges, each row's parent is listed, and no two rows share a pair of parent and pid, an out or a service.
#[derive(Drop)]
pub struct Config {
    settings: Settings,
    rates: Vec<u32>,
    rows: Vec<Row>,
    // of the four numbers and not of `Settings`: the rules say it of a `Setup`, which holds the numbers
    ghost in_range: { SettingsInRange settings.ticks settings.backlog settings.copies settings.tsid },
    ghost parents: { RatesInRange rates.items },
    ghost counted: { RowsCounted rows.items },
    ghost ranges: { RowsInRange rows.items },
    ghost listed: { AllListed (vec_len rates) rows.items },
    ghost apart: { NoneShares rows.items },
}
