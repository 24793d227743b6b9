// The rows of the map, and the settings.
ghost use Rattle.std.specs.Prelude.{◌≡◌};
ghost use Rattle.config.specs.Layout.{kind_word, kind};
ghost use Rattle.config.specs.Reading.{unless};

use crate::fault::TextRefusal;

// What becomes of the packets of a map row.
#[derive(Clone, Copy, Debug, PartialEq, Eq)]
pub enum Kind {
    // only the PID changes
    Pass,
    // the packet holds a PMT section, which is patched
    Pmt,
}

// The kind that a field of the text names.
impl TryFrom<&[u8]> for Kind {
    type Error = TextRefusal;

    ghost try_from_gives = { λ field r. r ≡ unless (kind_word field.now) (kind field.now) };

    #[tactic(auto, unfolding(crate::specs::Layout::kind_word, crate::specs::Layout::kind))]
    fn try_from(field: &[u8]) -> Result<Self, TextRefusal> {
        match field {
            b"pass" => Ok(Kind::Pass),
            b"pmt" => Ok(Kind::Pmt),
            _ => Err(TextRefusal::Form),
        }
    }
}

// A map row: packets of one parent that have the PID `pid` leave with the PID `out`.
#[derive(Clone, Copy, Debug, PartialEq, Eq)]
pub struct Row {
    pub parent: u8,
    pub pid: u16,
    pub out: u16,
    pub kind: Kind,
    // program_number of the service whose PMT this is; 0 in a `pass` row
    // a number and no `Option`: the text writes this 0, and the definitions have it
    pub service: u16,
}

// The settings of a core.
#[derive(Clone, Copy, Debug, PartialEq, Eq)]
pub struct Settings {
    // frame length in 27 MHz ticks
    pub ticks: u32,
    // packets that the backlog holds
    pub backlog: u32,
    // PAT copies in a frame
    pub copies: u32,
    // transport_stream_id of the multiplex
    pub tsid: u16,
}
