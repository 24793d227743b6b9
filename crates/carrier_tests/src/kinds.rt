// Kinds of packets, and what a carrier answers to one.
use carrier::{Carrier, PutFault};
use psi::packet::{LENGTH, stuffing};
use std::process::Abort;

#[derive(Clone, Copy)]
pub enum Kind {
    Stuffing,
    // PID 8,191, and a byte that stuffing has not
    OtherNull,
    // PID 512, and a byte of its own
    Data(u8),
    // the sync byte is another
    Unsynced,
    // one byte is missing
    Short,
}

fn data(byte: u8) -> [u8; LENGTH] {
    let mut packet = [byte; LENGTH];
    packet[..4].copy_from_slice(&[0x47, 0x02, 0x00, 0x10]);
    packet
}

fn bytes_of(kind: Kind) -> [u8; LENGTH] {
    let mut packet = stuffing();
    match kind {
        Kind::Stuffing | Kind::Short => {}
        Kind::OtherNull => packet[187] = 0,
        Kind::Data(byte) => packet = data(byte),
        Kind::Unsynced => packet[0] = 0x48,
    }
    packet
}

pub(crate) fn put<C: Carrier>(carrier: &mut C, kind: Kind) -> Result<(), PutFault> {
    let packet = bytes_of(kind);
    match kind {
        Kind::Short => carrier.put(&packet[0..187]),
        _ => carrier.put(&packet),
    }
}

// So many packets of this kind are taken.
pub(crate) fn puts<C: Carrier>(rt: &impl Abort, carrier: &mut C, times: usize, kind: Kind) {
    for n in 0..times {
        assert_eq!(rt; put(carrier, kind), Ok(()), "put {n} of {times}");
    }
}

// Packet `i` is of this kind.
pub(crate) fn reads<C: Carrier>(rt: &impl Abort, carrier: &C, i: usize, kind: Kind) {
    let mut place = [0; LENGTH];
    assert_eq!(rt; carrier.read(i, &mut place), Some(()), "packet {i}");
    assert!(rt; place == bytes_of(kind), "packet {i}");
}

// There is no packet `i`, and the place stays as it is.
pub(crate) fn reads_none<C: Carrier>(rt: &impl Abort, carrier: &C, i: usize) {
    let mut place = [0xa5; LENGTH];
    assert_eq!(rt; carrier.read(i, &mut place), None, "packet {i}");
    assert!(rt;
        place == [0xa5; LENGTH],
        "the place of packet {i} was written"
    );
}
