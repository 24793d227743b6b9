// The names of the calls.
ghost use Rattle.std.specs.Prelude.{◌≡◌};
ghost use Rattle.std.specs.Result.{result_ok};
ghost use Rattle.sitelog.specs.Lines.{adapter_verb, carrier_verb, verb_in};

use crate::fault::LineFault;

#[derive(Clone, Copy)]
pub(crate) enum Verb {
    Power,
    Carrier,
    Hear,
    Loss,
    Record,
    Frame,
    Put,
    Empty,
    Read,
    Free,
    Bytes,
    Tally,
}

// The call of an adapter, or of what is told of it, that a word names.
fn of_adapter(word: &[u8]) -> Option<Verb>
    ensures { result ≡ adapter_verb word.now }
{
    match word {
        b"power" => Some(Verb::Power),
        b"hear" => Some(Verb::Hear),
        b"loss" => Some(Verb::Loss),
        b"record" => Some(Verb::Record),
        b"frame" => Some(Verb::Frame),
        b"tally" => Some(Verb::Tally),
        _ => None,
    }
}

// The call of a carrier that a word names.
fn of_carrier(word: &[u8]) -> Option<Verb>
    ensures { result ≡ carrier_verb word.now }
{
    match word {
        b"carrier" => Some(Verb::Carrier),
        b"put" => Some(Verb::Put),
        b"empty" => Some(Verb::Empty),
        b"read" => Some(Verb::Read),
        b"free" => Some(Verb::Free),
        b"bytes" => Some(Verb::Bytes),
        _ => None,
    }
}

impl<'a> TryFrom<&'a [u8]> for Verb {
    type Error = LineFault;

    ghost try_from_gives = { λ word verb. result_ok verb ≡ verb_in word.now };

    fn try_from(word: &'a [u8]) -> Result<Verb, LineFault> {
        of_adapter(word)
            .or(of_carrier(word))
            .ok_or(LineFault::NoCall)
    }
}
