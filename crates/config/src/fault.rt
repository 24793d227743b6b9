// What is wrong with a configuration text.
ghost use Rattle.std.specs.Prelude.{◌≡◌};
ghost use Rattle.config.specs.Told.{text_number};
ghost use Rattle.config.specs.declared.fault.ConfigFault.TheVariants.{Text, Memory};

use std::alloc::{AllocError, AllocFailed};

// Why the text reader refuses a line.
#[derive(Clone, Copy, Debug, PartialEq, Eq)]
pub enum TextRefusal {
    // a line of names is missing or different
    Names = 1,
    // a wrong number of fields, a field that is no number, or a kind that is neither word
    Form = 2,
    // a number outside its range, a parent out of order, a line missing or too many
    Range = 3,
}

impl TextRefusal {
    // This refusal of a field of line `line`, or of the whole line where `field` is 0.
    pub(crate) fn at(self, line: u32, field: u32) -> TextFault
        ensures { result ≡ record { refusal = self; line = line; field = field } }
    {
        TextFault {
            refusal: self,
            line,
            field,
        }
    }

    // Its number.
    pub(crate) fn number(self) -> u32
        ensures { result ≡ text_number self }
    {
        self as u32
    }
}

// A fault of the text: its line and field count from 1, and the field is 0 where it is the line that is wrong.
#[derive(Clone, Copy, Debug, PartialEq, Eq)]
pub struct TextFault {
    pub refusal: TextRefusal,
    pub line: u32,
    // a number and no `Option`: the printed line and the number for C have the 0 too
    pub field: u32,
}

// Why a configuration is refused.
#[derive(Clone, Copy, Debug, PartialEq, Eq)]
pub enum ConfigFault {
    // a fault of the text, whole
    Text(TextFault),
    // the row at this line shares a pair of parent and pid, an out or a service with a row before it, or names a parent that is not listed
    Clash { line: u32 },
    // there was no memory to check the text in
    Memory,
}

impl From<TextFault> for ConfigFault {
    ghost from_gives = { λ e r. r ≡ Text e };

    fn from(e: TextFault) -> ConfigFault {
        ConfigFault::Text(e)
    }
}

impl From<AllocError> for ConfigFault {
    ghost from_gives = { λ _ r. r ≡ Memory };

    fn from(_e: AllocError) -> ConfigFault {
        ConfigFault::Memory
    }
}

impl<T: Drop> From<AllocFailed<T>> for ConfigFault {
    ghost from_gives = { λ _ r. r ≡ Memory };

    fn from(_e: AllocFailed<T>) -> ConfigFault {
        ConfigFault::Memory
    }
}
