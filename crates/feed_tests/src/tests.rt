// Tables of arguments and answers.
use adapter::answer::{Framed, Heard, Refusal};
use feed::counters::Counters;
use feed::file::{FileKind, stamp_of};
use feed::known::Known;
use feed::plan::Plan;
use feed::times::{handed_with, unwrap_stamp};
use std::test::Fail;

// How many bytes a file begins with, where its sync bytes stand (0 more than once where there are fewer), and its kind.
const HEADS: [(usize, [usize; 3], Option<FileKind>); 12] = [
    (400, [0, 188, 376], Some(FileKind::Plain)),
    (400, [4, 196, 388], Some(FileKind::Timed)),
    // the second or the third is missing
    (400, [0, 188, 188], None),
    (400, [0, 376, 376], None),
    (400, [4, 196, 196], None),
    // it ends before the third, before the second, right behind the first
    (376, [0, 188, 188], Some(FileKind::Plain)),
    (377, [0, 188, 188], None),
    (388, [4, 196, 196], Some(FileKind::Timed)),
    (188, [0, 0, 0], Some(FileKind::Plain)),
    (189, [0, 0, 0], None),
    (5, [4, 4, 4], Some(FileKind::Timed)),
    (4, [1, 1, 1], None),
];

#[test]
fn kinds(rt: HostRuntime) -> Result<(), Fail> {
    for (i, (length, places, kind)) in HEADS.into_iter().enumerate() {
        let mut head = vec![in rt.alloc(); 0u8; length]?;
        for place in places {
            if let Some(byte) = head.get_mut(place) {
                *byte = 0x47;
            }
        }
        assert_eq!(rt; FileKind::of(head.as_slice()), kind, "head {i}");
    }
    assert_eq!(rt; FileKind::of(&[]), None);
    Ok(())
}

#[test]
fn pieces(rt: HostRuntime) {
    assert_eq!(rt; FileKind::Plain.lead(), 0);
    assert_eq!(rt; FileKind::Plain.length(), 188);
    assert_eq!(rt; FileKind::Timed.lead(), 4);
    assert_eq!(rt; FileKind::Timed.length(), 192);
}

// The first bytes of a piece, and its stamp.
const STAMPS: [([u8; 4], u32); 4] = [
    ([0, 0, 0, 1], 1),
    ([0x12, 0x34, 0x56, 0x78], 0x1234_5678),
    // the two high bits are no part of it
    ([0x3f, 0xff, 0xff, 0xff], 0x3fff_ffff),
    ([0xc0, 0, 0, 2], 2),
];

#[test]
fn stamps(rt: HostRuntime) {
    for (bytes, stamp) in STAMPS {
        assert_eq!(rt; stamp_of(&bytes), Some(stamp));
    }
    assert_eq!(rt; stamp_of(&[1, 2, 3]), None);
}

// The time of packet 0, the rate, a packet's index, and the time that it is handed with.
const HANDED: [(u64, u32, u64, Option<u64>); 9] = [
    (5, 1_000_000, 0, Some(5)),
    (5, 1_000_000, 999, None),
    (5, 1_000_000, 1000, Some(40_608_005)),
    (5, 1_000_000, 1001, None),
    // rounded down
    (0, 7, 1000, Some(5_801_142_857_142)),
    // the last that fits 64 bits, and one that does not
    (u64::MAX - 40_608_000, 1_000_000, 1000, Some(u64::MAX)),
    (u64::MAX - 40_607_999, 1_000_000, 1000, Some(u64::MAX)),
    (1, 1, u64::MAX - 615, Some(u64::MAX)),
    // at no rate no time passes
    (5, 0, 1000, Some(5)),
];

#[test]
fn handed(rt: HostRuntime) {
    for (first, rate, i, time) in HANDED {
        assert_eq!(rt; handed_with(first, rate, i), time, "packet {i}");
    }
}

// The time before, the stamp before, the stamp, and its time.
const UNWRAPPED: [(u64, u32, u32, u64); 6] = [
    (100, 5, 7, 102),
    (100, 5, 5, 100),
    // round the end of 30 bits
    (100, 0x3fff_ffff, 0, 101),
    (100, 7, 5, 100 + 0x3fff_fffe),
    (u64::MAX - 2, 5, 7, u64::MAX),
    (u64::MAX - 1, 5, 7, u64::MAX),
];

#[test]
fn unwrapped(rt: HostRuntime) {
    for (before, last, stamp, time) in UNWRAPPED {
        assert_eq!(rt; unwrap_stamp(before, last, stamp), time, "stamp {stamp}");
    }
}

// The time that a packet is handed with, and what is then known of its parent: anchor, count, from-time, heard-to time.
const TAKEN: [(Option<u64>, Option<(u64, u64, u64, u64)>); 6] = [
    (None, None),
    (Some(10), Some((10, 0, 10, 10))),
    (None, Some((10, 1, 10, 40_618))),
    (None, Some((10, 2, 10, 81_226))),
    (Some(90_000), Some((90_000, 0, 10, 90_000))),
    (None, Some((90_000, 1, 10, 130_608))),
];

#[test]
fn taken(rt: HostRuntime) {
    let mut known = None;
    for (time, told) in TAKEN {
        known = Known::after(known, time, 1_000_000);
        let expected = told.map(|(anchor, count, from, heard_to)| Known {
            anchor,
            count,
            from,
            heard_to,
        });
        assert_eq!(rt; known, expected);
    }
}

// The start of frame 0, the length of a frame, a frame's index, and its start where it has a record.
const FRAMES: [(u64, u32, u64, Option<u64>); 6] = [
    (7, 10_000, 0, Some(7)),
    (7, 10_000, 3, Some(30_007)),
    (7, 10_000, 4_294_967_295, Some(42_949_672_950_007)),
    (7, 10_000, 4_294_967_296, None),
    ((1 << 60) - 10_000, 10_000, 1, Some(1 << 60)),
    ((1 << 60) - 9_999, 10_000, 1, None),
];

#[test]
fn frames(rt: HostRuntime) {
    for (start, ticks, n, expected) in FRAMES {
        let plan = Plan {
            start,
            ticks,
            slots: 20,
        };
        match plan.frame(n) {
            None => assert_eq!(rt; None, expected),
            Some(frame) => {
                assert_eq!(rt; Some(frame.start), expected);
                assert_eq!(rt; u64::from(frame.number), n);
                assert_eq!(rt; frame.slots, 20);
            }
        }
    }
}

const ANSWERS: [Result<Heard, Refusal>; 8] = [
    Ok(Heard::PassedOver),
    Ok(Heard::Held),
    Ok(Heard::Held),
    Ok(Heard::Dropped),
    Err(Refusal::BadPacket),
    Err(Refusal::Untimely),
    Err(Refusal::Untimely),
    Err(Refusal::FullLine),
];

#[test]
fn counted(rt: HostRuntime) -> Result<(), Fail> {
    let mut counters = Counters::new();
    for answer in ANSWERS {
        counters.count_hear(answer);
    }
    counters.count_frame(Framed::Skipped(0), 0, 0);
    counters.count_frame(Framed::Followed(1, 3), 0, 0);
    counters.count_frame(Framed::Added(2, 4), 20, 6);
    counters.count_frame(Framed::Added(3, 0), 20, 5);
    let line = format!(in rt.alloc(); "{counters}")?;
    assert_eq!(rt;
        line.as_str(),
        "heard 8 passed 1 unpatchable 1 held 2 refused 1 2 1 lost 4 skipped 1 followed 1 added 2 put 40 stuffing 11 dropped 7"
    );
    Ok(())
}
