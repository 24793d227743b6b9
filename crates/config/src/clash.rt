// Map rows that clash: two that share what each has for itself, or one whose parent is not listed.
ghost use Rattle.std.specs.Prelude.{◌≡◌, ◌<◌, length, IfSome};
ghost use Rattle.config.specs.Verdict.{shares as rows_share, any_shares, first_clash};

use crate::row::Row;

// Whether two rows share a pair of parent and pid, an out, or a service above 0.
fn shares(one: &Row, other: &Row) -> bool
    ensures { result ≡ rows_share one.now other.now }
{
    let pair = one.parent == other.parent && one.pid == other.pid;
    let service = one.service > 0 && one.service == other.service;
    pair || one.out == other.out || service
}

// Whether a row shares with any of the others.
fn shares_any(row: &Row, others: &[Row]) -> bool
    ensures { result ≡ any_shares row.now others.now }
{
    let row = *row;
    others.iter().any(|other| shares(&row, other))
}

// The first row that names a parent which is not one of so many, or shares with a row before it.
pub(crate) fn find_clash(rows: &[Row], listed: usize) -> Option<usize>
    ensures value { result ≡ first_clash listed rows.now }
    ensures within { IfSome result (λ i. i < length rows.now) }
{
    // a loop: with `position` over `enumerate` it was not proved that the row found is `first_clash`
    for (i, row) in rows.iter().enumerate() {
        if usize::from(row.parent) >= listed || shares_any(row, &rows[..i]) {
            return Some(i);
        }
    }
    None
}
