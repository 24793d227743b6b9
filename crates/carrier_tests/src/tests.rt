use crate::copies::copy_all;
use crate::kinds::{Kind, put, puts, reads, reads_none};
use carrier::{Carrier, Folded, PutFault, Strip};
use std::process::Abort;
use std::test::Fail;

// Bytes, and the places that a strip and a folded carrier have in them.
const SIZES: [(usize, usize, usize); 5] = [
    (0, 0, 0),
    (187, 0, 0),
    (188, 1, 0),
    (189, 1, 1),
    (377, 2, 1),
];

// Fills all places with packets that are no stuffing, and finds it full then.
fn fills<C: Carrier>(rt: &impl Abort, carrier: &mut C, size: usize, places: usize) {
    assert_eq!(rt; carrier.capacity(), places, "a carrier of {size} bytes");
    assert_eq!(rt; carrier.free(), places);
    assert_eq!(rt; carrier.held(), 0);
    reads_none(rt, carrier, 0);
    puts(rt, carrier, places, Kind::Data(7));
    assert_eq!(rt; carrier.free(), 0);
    assert_eq!(rt; carrier.held(), places);
    reads_none(rt, carrier, places);
    assert_eq!(rt; put(carrier, Kind::Data(8)), Err(PutFault::NoPlace));
    assert_eq!(rt; put(carrier, Kind::Stuffing), Err(PutFault::NoPlace));
    // what is no packet is refused for that, full or not
    assert_eq!(rt; put(carrier, Kind::Short), Err(PutFault::NoPacket));
    assert_eq!(rt; put(carrier, Kind::Unsynced), Err(PutFault::NoPacket));
    assert_eq!(rt; carrier.held(), places);
    carrier.empty();
    assert_eq!(rt; carrier.capacity(), places, "emptied, of {size} bytes");
    assert_eq!(rt; carrier.free(), places, "emptied, of {size} bytes");
}

#[test]
fn places_of_each_size(rt: HostRuntime) -> Result<(), Fail> {
    for (size, in_strip, in_folded) in SIZES {
        let mut strip = Strip::new(vec![in rt.alloc(); 0; size]?);
        fills(&rt, &mut strip, size, in_strip);
        let mut folded = Folded::new(vec![in rt.alloc(); 0; size]?);
        fills(&rt, &mut folded, size, in_folded);
    }
    Ok(())
}

#[test]
fn refusals_have_numbers(rt: HostRuntime) {
    assert_eq!(rt; PutFault::NoPacket.number(), 15);
    assert_eq!(rt; PutFault::NoPlace.number(), 16);
}

#[test]
fn refusals_print_their_numbers(rt: HostRuntime) -> Result<(), Fail> {
    let texts = [
        (PutFault::NoPacket, "refused 15"),
        (PutFault::NoPlace, "refused 16"),
    ];
    for (fault, text) in texts {
        assert_eq!(rt; fault.to_string(rt.alloc())?.as_str(), text);
    }
    Ok(())
}

#[test]
fn a_strip_is_emptied_and_filled_again(rt: HostRuntime) -> Result<(), Fail> {
    let mut strip = Strip::new(vec![in rt.alloc(); 0; 3 * 188]?);
    assert_eq!(rt; put(&mut strip, Kind::Short), Err(PutFault::NoPacket));
    assert_eq!(rt; put(&mut strip, Kind::Data(1)), Ok(()));
    assert_eq!(rt; put(&mut strip, Kind::Stuffing), Ok(()));
    assert_eq!(rt; strip.free(), 1);
    strip.empty();
    assert_eq!(rt; strip.free(), 3);
    reads_none(&rt, &strip, 0);
    assert_eq!(rt; put(&mut strip, Kind::Data(2)), Ok(()));
    assert_eq!(rt; put(&mut strip, Kind::OtherNull), Ok(()));
    assert_eq!(rt; put(&mut strip, Kind::Stuffing), Ok(()));
    reads(&rt, &strip, 0, Kind::Data(2));
    reads(&rt, &strip, 1, Kind::OtherNull);
    reads(&rt, &strip, 2, Kind::Stuffing);
    reads_none(&rt, &strip, 3);
    reads_none(&rt, &strip, usize::MAX);
    assert_eq!(rt; strip.bytes().len(), 3 * 188);
    Ok(())
}

#[test]
fn a_folded_carrier_is_emptied_and_filled_again(rt: HostRuntime) -> Result<(), Fail> {
    let mut folded = Folded::new(vec![in rt.alloc(); 0; 3 * 189]?);
    assert_eq!(rt; put(&mut folded, Kind::Data(1)), Ok(()));
    puts(&rt, &mut folded, 9, Kind::Stuffing);
    assert_eq!(rt; folded.free(), 2);
    assert_eq!(rt; folded.held(), 10);
    // pending stuffing goes too
    folded.empty();
    assert_eq!(rt; folded.held(), 0);
    assert_eq!(rt; folded.free(), 3);
    reads_none(&rt, &folded, 0);
    assert_eq!(rt; put(&mut folded, Kind::Stuffing), Ok(()));
    assert_eq!(rt; put(&mut folded, Kind::Data(2)), Ok(()));
    // other packets of the stuffing's PID are kept
    assert_eq!(rt; put(&mut folded, Kind::OtherNull), Ok(()));
    puts(&rt, &mut folded, 2, Kind::Stuffing);
    assert_eq!(rt; folded.free(), 1);
    reads(&rt, &folded, 0, Kind::Stuffing);
    reads(&rt, &folded, 1, Kind::Data(2));
    reads(&rt, &folded, 2, Kind::OtherNull);
    reads(&rt, &folded, 3, Kind::Stuffing);
    reads(&rt, &folded, 4, Kind::Stuffing);
    reads_none(&rt, &folded, 5);
    reads_none(&rt, &folded, usize::MAX);
    assert_eq!(rt; folded.pending(), 2);
    assert_eq!(rt; folded.bytes().len(), 2 * 189);
    Ok(())
}

#[test]
fn the_count_ends_at_255(rt: HostRuntime) -> Result<(), Fail> {
    let mut folded = Folded::new(vec![in rt.alloc(); 0; 2 * 189]?);
    puts(&rt, &mut folded, 255, Kind::Stuffing);
    assert_eq!(rt; folded.free(), 2);
    assert_eq!(rt; put(&mut folded, Kind::Stuffing), Ok(()));
    assert_eq!(rt; folded.free(), 1);
    assert_eq!(rt; put(&mut folded, Kind::Data(3)), Ok(()));
    assert_eq!(rt; folded.free(), 0);
    assert_eq!(rt; folded.held(), 257);
    assert_eq!(rt; put(&mut folded, Kind::Stuffing), Err(PutFault::NoPlace));
    for i in 0..256 {
        reads(&rt, &folded, i, Kind::Stuffing);
    }
    reads(&rt, &folded, 256, Kind::Data(3));
    reads_none(&rt, &folded, 257);
    let bytes = folded.bytes();
    assert!(rt; bytes.len() == 378);
    assert_eq!(rt; bytes[188], 255);
    assert_eq!(rt; bytes[377], 0);
    Ok(())
}

// The n-th of many packets.
fn nth(n: usize) -> Kind {
    match n % 16 {
        0..=6 => Kind::Stuffing,
        7 => Kind::OtherNull,
        8 => Kind::Stuffing,
        _ => Kind::Data((n % 251) as u8),
    }
}

const MANY: usize = 3000;

// Many packets in a row, and then each is read back.
fn carries_many<C: Carrier>(rt: &impl Abort, carrier: &mut C) {
    for n in 0..MANY {
        assert_eq!(rt; put(carrier, nth(n)), Ok(()));
    }
    assert_eq!(rt; carrier.held(), MANY);
    for n in 0..MANY {
        reads(rt, carrier, n, nth(n));
    }
}

#[test]
fn many_in_a_row(rt: HostRuntime) -> Result<(), Fail> {
    let mut strip = Strip::new(vec![in rt.alloc(); 0; MANY * 188]?);
    carries_many(&rt, &mut strip);
    assert_eq!(rt; strip.free(), 0);
    let mut folded = Folded::new(vec![in rt.alloc(); 0; MANY * 189]?);
    carries_many(&rt, &mut folded);
    Ok(())
}

#[test]
fn one_is_copied_into_the_other(rt: HostRuntime) -> Result<(), Fail> {
    let mut strip = Strip::new(vec![in rt.alloc(); 0; MANY * 188]?);
    carries_many(&rt, &mut strip);
    let mut folded = Folded::new(vec![in rt.alloc(); 0; MANY * 189]?);
    assert_eq!(rt; copy_all(&strip, &mut folded), Ok(()));
    assert_eq!(rt; folded.held(), MANY);
    strip.empty();
    assert_eq!(rt; copy_all(&folded, &mut strip), Ok(()));
    for n in 0..MANY {
        reads(&rt, &strip, n, nth(n));
    }
    assert_eq!(rt; copy_all(&folded, &mut strip), Err(PutFault::NoPlace));
    Ok(())
}
