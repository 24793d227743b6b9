// All parents at once: the latest from-time, how far they were heard, and letting go.
ghost use Rattle.std.specs.Prelude.{◌≡◌, map};
ghost use Rattle.std.specs.List.{list_all};
ghost use Rattle.memory.specs.Memory.{lines_in, OnlyLines};
ghost use Rattle.rules.specs.Entries.{from_on};
ghost use Rattle.adapter.specs.Parents.{LatestSo, reaches, Restarted};

use crate::times::Times;
use memory::Memory;
use rules::entry::Entry;

// R, the latest from-time of the parents, or `None` where one has no anchor.
pub(crate) fn latest(heard: &[Option<Times>]) -> Option<u64>
    ensures { LatestSo heard.now result }
{
    let mut latest = 0;
    for known in heard {
        let times = (*known)?;
        latest = times.from_time().max(latest);
    }
    Some(latest)
}

// Whether every parent that has an anchor was heard up to a moment.
pub(crate) fn heard_until(heard: &[Option<Times>], end: u64) -> bool
    ensures { result ≡ list_all (reaches end) heard.now }
{
    heard
        .iter()
        .all(|known| known.is_none_or(|times| end <= times.heard_to()))
}

// Every parent's from-time becomes this moment.
pub(crate) fn restart(heard: &mut [Option<Times>], since: u64)
    ensures { Restarted since heard.old heard.new }
{
    for known in heard.iter_mut() {
        *known = known.map(|times| times.since(since));
    }
}

// What arrived before a moment is let go from every line. A memory is asked by a line's number, and lends no line.
pub(crate) fn let_go(memory: &mut Memory<Entry>, since: u64)
    ensures lines { lines_in memory.new ≡ map (from_on since) (lines_in memory.old) }
    ensures rest { OnlyLines memory.old memory.new }
{
    for p in 0..memory.parents() {
        memory.let_go_before(p, since);
    }
}
