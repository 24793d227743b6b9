// The map row that a parent's packet falls under.
// `rows`, `parent` and `pid` are what is looked up, and stay three parameters, as the definition `find_row` has them.
ghost use Rattle.std.specs.Prelude.{◌≡◌, position};
ghost use Rattle.config.specs.Setup.{setup};
ghost use Rattle.psi.specs.Lookup.{fits, find_row, row_of, out_of, Alone};

use config::row::Row;
use config::table::Config;

// The number of the row for a parent's packets of a PID. No other row fits.
pub fn row_of(config: &Config, parent: u8, pid: u16) -> Option<usize>
    ensures value { result ≡ row_of (setup config.now).rows parent pid }
    ensures alone { Alone (setup config.now).rows parent pid result }
{
    number_of(config.rows(), parent, pid)
}

// The PID that a parent's packets of a PID leave with.
#[tactic(auto, unfolding(crate::specs::Lookup::out_of))]
pub(crate) fn out_of(rows: &[Row], parent: u8, pid: u16) -> Option<u16>
    ensures { result ≡ out_of rows.now parent pid }
{
    find_row(rows, parent, pid).map(|(_, row)| row.out)
}

// The first row for a parent's packets of a PID, with its number.
#[tactic(auto, using(crate::proofs::Lookups::unplaced, crate::proofs::Lookups::placed_at))]
pub fn find_row(rows: &[Row], parent: u8, pid: u16) -> Option<(usize, Row)>
    ensures { result ≡ find_row rows.now parent pid }
{
    let number = number_of(rows, parent, pid)?;
    Some((number, rows[number]))
}

// The number of that row.
fn number_of(rows: &[Row], parent: u8, pid: u16) -> Option<usize>
    ensures { result ≡ position (fits parent pid) rows.now }
{
    rows.iter()
        .position(|row| row.parent == parent && row.pid == pid)
}
