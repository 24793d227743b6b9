// What is wrong with a line of a site log, or keeps a run from going on behind it.
//
// (`Display` and `From` stand here and are not derived by `thiserror`: its `From` does not say what it gives, which the
// proofs of reading need, and two errors of allocation become one `Memory` that holds neither.)
ghost use Rattle.std.specs.Prelude.{◌≡◌};
ghost use Rattle.sitelog.specs.declared.fault.LineFault.TheVariants.{Memory};

use std::alloc::{AllocError, AllocFailed};
use std::{fmt, io};

// A field of a line, by the name that the format gives it.
#[derive(Clone, Copy, PartialEq, Eq, Debug)]
pub enum Field {
    Entries,
    Id,
    Bytes,
    Parent,
    Time,
    Number,
    Start,
    Slots,
    Index,
}

// Why a line writes no call.
#[derive(Clone, Copy, PartialEq, Eq, Debug)]
pub enum LineFault {
    // The first field names no call.
    NoCall,
    FieldCount,
    NoNumber(Field),
    TooLarge(Field),
    // A field of bytes that has another character than hex digits, or none at all.
    NoHex,
    OddHex,
    // Neither a strip nor a folded carrier.
    NoKind,
    Memory,
}

impl fmt::Display for Field {
    fn fmt<W: fmt::Write>(&self, f: &mut fmt::Formatter<W>) -> fmt::Result {
        f.write_str(match self {
            Field::Entries => "ENTRIES",
            Field::Id => "ID",
            Field::Bytes => "BYTES",
            Field::Parent => "PARENT",
            Field::Time => "TIME",
            Field::Number => "NUMBER",
            Field::Start => "START",
            Field::Slots => "SLOTS",
            Field::Index => "INDEX",
        })
    }
}

impl fmt::Display for LineFault {
    fn fmt<W: fmt::Write>(&self, f: &mut fmt::Formatter<W>) -> fmt::Result {
        match self {
            LineFault::NoCall => f.write_str("no such call"),
            LineFault::FieldCount => f.write_str("too few fields or too many"),
            LineFault::NoNumber(field) => write!(f, "{field} is no number"),
            LineFault::TooLarge(field) => write!(f, "{field} is too large"),
            LineFault::NoHex => f.write_str("HEX is not in hex digits"),
            LineFault::OddHex => f.write_str("HEX has an odd number of digits"),
            LineFault::NoKind => f.write_str("a carrier is a strip or folded"),
            LineFault::Memory => f.write_str("no memory"),
        }
    }
}

impl From<AllocError> for LineFault {
    ghost from_gives = { λ _ r. r ≡ Memory };

    fn from(_e: AllocError) -> LineFault {
        LineFault::Memory
    }
}

impl<T: Drop> From<AllocFailed<T>> for LineFault {
    ghost from_gives = { λ _ r. r ≡ Memory };

    fn from(_e: AllocFailed<T>) -> LineFault {
        LineFault::Memory
    }
}

// Why a run cannot go on.
#[derive(Drop)]
pub enum Fault {
    Line(LineFault),
    // The log does not begin with `power`.
    NoPower,
    NoCarrier,
    EntriesMemory,
    CarrierMemory,
    Memory,
    // The line could not be read.
    Unreadable(io::Error),
}

impl fmt::Display for Fault {
    fn fmt<W: fmt::Write>(&self, f: &mut fmt::Formatter<W>) -> fmt::Result {
        match self {
            Fault::Line(fault) => write!(f, "{fault}"),
            Fault::NoPower => f.write_str("power comes first"),
            Fault::NoCarrier => f.write_str("no such carrier"),
            Fault::EntriesMemory => f.write_str("no memory for the entries"),
            Fault::CarrierMemory => f.write_str("no memory for the carrier"),
            Fault::Memory => f.write_str("no memory"),
            Fault::Unreadable(error) => write!(f, "{error}"),
        }
    }
}

impl From<LineFault> for Fault {
    fn from(fault: LineFault) -> Fault {
        Fault::Line(fault)
    }
}

impl From<AllocError> for Fault {
    fn from(_e: AllocError) -> Fault {
        Fault::Memory
    }
}

impl<T: Drop> From<AllocFailed<T>> for Fault {
    fn from(_e: AllocFailed<T>) -> Fault {
        Fault::Memory
    }
}
