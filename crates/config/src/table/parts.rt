// What a checked configuration holds, to be read.
ghost use Rattle.std.specs.Prelude.{◌≡◌, vec_len};
ghost use Rattle.config.specs.Rows.{SettingsInRange, RatesInRange, RowsCounted, RowsInRange, AllListed, NoneShares};
ghost use Rattle.config.specs.Setup.{setup, setup_from};

use crate::row::{Row, Settings};
use crate::table::Config;

impl Config {
    // What is asked of the settings is asked of the four numbers: the rules say it of a `Setup`, which holds the numbers.
    pub(crate) fn of(settings: Settings, rates: Vec<u32>, rows: Vec<Row>) -> Config
        requires settings_in_range { SettingsInRange settings.ticks settings.backlog settings.copies settings.tsid }
        requires rates_in_range { RatesInRange rates.items }
        requires rows_counted { RowsCounted rows.items }
        requires rows_in_range { RowsInRange rows.items }
        requires all_listed { AllListed (vec_len rates) rows.items }
        requires none_shares { NoneShares rows.items }
        ensures { setup result ≡ setup_from settings rates.items rows.items }
    {
        Config {
            settings,
            rates,
            rows,
        }
    }

    // The frame length in 27 MHz ticks.
    pub fn ticks(&self) -> u32
        ensures { result ≡ (setup self.now).ticks }
    {
        self.settings.ticks
    }

    // How many packets the backlog holds.
    pub fn backlog(&self) -> u32
        ensures { result ≡ (setup self.now).backlog }
    {
        self.settings.backlog
    }

    // PAT copies in a frame.
    pub fn copies(&self) -> u32
        ensures { result ≡ (setup self.now).copies }
    {
        self.settings.copies
    }

    // The transport_stream_id of the multiplex.
    pub fn tsid(&self) -> u16
        ensures { result ≡ (setup self.now).tsid }
    {
        self.settings.tsid
    }

    // The parents' bits per second, parent 0 first.
    pub fn rates(&self) -> &[u32]
        ensures { result.now ≡ (setup self.now).rates }
    {
        self.rates.as_slice()
    }

    // The map, row by row.
    pub fn rows(&self) -> &[Row]
        ensures { result.now ≡ (setup self.now).rows }
    {
        self.rows.as_slice()
    }
}
