// What a call of a site log prints.
use crate::observer::Tally;
use adapter::answer::{Framed, Heard, Lost, Recorded, Refusal};
use carrier::PutFault;
use sitelog::hex::Hex;
use std::fmt;

#[derive(Drop)]
pub(crate) enum Reply {
    On,
    Capacity(usize),
    Heard(Heard),
    Lost(Lost),
    Recorded(Recorded),
    Framed(Framed),
    Put,
    Emptied,
    // A packet, or all the used bytes of a carrier.
    Bytes(Vec<u8>),
    // No packet has the index.
    Nothing,
    Free { free: usize, capacity: usize },
    Tally(Tally),
    Refused(Refusal),
    // By a carrier, which has faults of its own: it knows nothing of an adapter.
    PutRefused(PutFault),
}

impl fmt::Display for Reply {
    fn fmt<W: fmt::Write>(&self, f: &mut fmt::Formatter<W>) -> fmt::Result {
        match self {
            Reply::On => f.write_str("on"),
            Reply::Capacity(places) => write!(f, "capacity {places}"),
            Reply::Heard(heard) => write!(f, "{heard}"),
            Reply::Lost(lost) => write!(f, "{lost}"),
            Reply::Recorded(recorded) => write!(f, "{recorded}"),
            Reply::Framed(framed) => write!(f, "{framed}"),
            Reply::Put => f.write_str("put"),
            Reply::Emptied => f.write_str("emptied"),
            Reply::Bytes(bytes) => write!(f, "{}", Hex(bytes.as_slice())),
            Reply::Nothing => f.write_str("none"),
            Reply::Free { free, capacity } => write!(f, "free {free} of {capacity}"),
            Reply::Tally(tally) => write!(f, "{tally}"),
            Reply::Refused(refusal) => write!(f, "{refusal}"),
            Reply::PutRefused(fault) => write!(f, "{fault}"),
        }
    }
}
