// A line of a site log, read as a call.
ghost use Rattle.std.specs.Prelude.{◌≡◌};
ghost use Rattle.sitelog.specs.Lines.{call_of, call_in, ReadAs, says_nothing};
ghost use Rattle.sitelog.specs.Splits.{left};
ghost use Rattle.sitelog.specs.declared.verb.Verb.TheVariants as names;

use crate::call::{Call, Packet, Use};
use crate::fault::{Field, LineFault};
use crate::hex::bytes_in;
use crate::mounted::Kind;
use crate::values::{number, place, short, time};
use crate::verb::Verb;
use crate::words::Words;
use rules::entry::Frame;
use std::alloc::Global;

fn carrier(words: &mut Words) -> Result<Call, LineFault>
    ensures { ReadAs (call_of names.Carrier (left words.old)) result }
{
    let (id, word, size) = words.three()?;
    let place = place(id)?;
    let kind = Kind::try_from(word)?;
    let bytes = number(Field::Bytes, size)? as usize;
    Ok(Call::Carrier { place, kind, bytes })
}

fn hear(heap: Global, words: &mut Words) -> Result<Call, LineFault>
    ensures { ReadAs (call_of names.Hear (left words.old)) result }
{
    let (id, at, hex) = words.three()?;
    Ok(Call::Hear(Packet {
        parent: number(Field::Parent, id)? as usize,
        time: time(at)?,
        bytes: bytes_in(heap, hex)?,
    }))
}

fn record(words: &mut Words) -> Result<Call, LineFault>
    ensures { ReadAs (call_of names.Record (left words.old)) result }
{
    let (id, at, count) = words.three()?;
    Ok(Call::Record(Frame {
        number: short(Field::Number, id)?,
        start: number(Field::Start, at)?,
        slots: short(Field::Slots, count)?,
    }))
}

fn put(heap: Global, words: &mut Words) -> Result<Call, LineFault>
    ensures { ReadAs (call_of names.Put (left words.old)) result }
{
    let (id, hex) = words.two()?;
    Ok(Call::Use(place(id)?, Use::Put(bytes_in(heap, hex)?)))
}

fn read(words: &mut Words) -> Result<Call, LineFault>
    ensures { ReadAs (call_of names.Read (left words.old)) result }
{
    let (id, index) = words.two()?;
    let at = place(id)?;
    let index = number(Field::Index, index)?;
    Ok(Call::Use(at, Use::Read(index as usize)))
}

// The call that a name and the words behind it write.
fn named(heap: Global, verb: Verb, words: &mut Words) -> Result<Call, LineFault>
    ensures { ReadAs (call_of verb (left words.old)) result }
{
    match verb {
        Verb::Power => Ok(Call::Power(number(Field::Entries, words.one()?)? as usize)),
        Verb::Carrier => carrier(words),
        Verb::Hear => hear(heap, words),
        Verb::Loss => Ok(Call::Loss(number(Field::Parent, words.one()?)? as usize)),
        Verb::Record => record(words),
        Verb::Frame => Ok(Call::Frame(place(words.one()?)?)),
        Verb::Put => put(heap, words),
        Verb::Empty => Ok(Call::Use(place(words.one()?)?, Use::Empty)),
        Verb::Read => read(words),
        Verb::Free => Ok(Call::Use(place(words.one()?)?, Use::Free)),
        Verb::Bytes => Ok(Call::Use(place(words.one()?)?, Use::Bytes)),
        Verb::Tally => {
            words.none()?;
            Ok(Call::Tally)
        }
    }
}

// Whether a line is empty or a comment, which `#` begins.
pub fn is_silent(line: &[u8]) -> bool
    ensures { result ≡ says_nothing line.now }
{
    line.is_empty() || line[0] == b'#'
}

// The call that a line writes.
pub fn read_line(heap: Global, line: &[u8]) -> Result<Call, LineFault>
    ensures { ReadAs (call_in line.now) result }
{
    let mut words = Words::of(line);
    let verb = Verb::try_from(words.next().ok_or(LineFault::NoCall)?)?;
    named(heap, verb, &mut words)
}
