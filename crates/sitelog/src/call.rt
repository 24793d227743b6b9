// The calls of a site log, one to a line.
use crate::mounted::Kind;
use crate::site::Place;
use rules::entry::Frame;

#[derive(Drop)]
pub enum Call {
    // A new adapter with so many entries, and no carriers.
    Power(usize),
    // A new carrier of so many bytes at a place.
    Carrier {
        place: Place,
        kind: Kind,
        bytes: usize,
    },
    Hear(Packet),
    // Of a parent.
    Loss(usize),
    Record(Frame),
    // The oldest record's frame, with the carrier at a place.
    Frame(Place),
    // The carrier at a place is used by hand.
    Use(Place, Use),
    Tally,
}

// A parent's packet, handed with its time or with none.
#[derive(Drop)]
pub struct Packet {
    pub parent: usize,
    pub time: Option<u64>,
    pub bytes: Vec<u8>,
}

// What may be done with a carrier.
#[derive(Drop)]
pub enum Use {
    Put(Vec<u8>),
    Empty,
    // The packet of this index.
    Read(usize),
    Free,
    Bytes,
}
