use agreement::{Added, agreed_from, differ_at, in_common};
use std::alloc::{AllocError, Global};
use std::test::Fail;

// A frame of this number, with a packet for each of these marks: 188 bytes of the mark.
fn frame(heap: Global, number: u32, marks: &[u8]) -> Result<Added, AllocError> {
    let mut packets = Vec::new(heap);
    for mark in marks {
        packets.extend_from_slice(&[*mark; 188])?;
    }
    Ok(Added { number, packets })
}

// Frames by number and mark, each of two packets of which the second has the mark.
fn site(heap: Global, frames: &[(u32, u8)]) -> Result<Vec<Added>, AllocError> {
    let mut added = Vec::new(heap);
    for (number, mark) in frames {
        added.push(frame(heap, *number, &[0, *mark])?)?;
    }
    Ok(added)
}

// The frames of two sites, how many of the first the second added too, and from which number on they agree.
type Frames = &'static [(u32, u8)];

const CASES: [(Frames, Frames, usize, Option<u32>); 10] = [
    (&[], &[], 0, None),
    (&[(1, 5)], &[(2, 5)], 0, None),
    (&[(1, 5)], &[(1, 6)], 1, None),
    (&[(1, 5), (2, 5)], &[(1, 5), (2, 6)], 2, None),
    (
        &[(1, 5), (2, 5), (4, 5)],
        &[(1, 6), (3, 5), (4, 5)],
        2,
        Some(4),
    ),
    (
        &[(1, 5), (2, 5), (3, 5)],
        &[(2, 5), (3, 5), (4, 5)],
        2,
        Some(2),
    ),
    // in any order
    (
        &[(9, 1), (2, 1), (7, 1)],
        &[(7, 1), (9, 1), (2, 2)],
        3,
        Some(7),
    ),
    // a number added twice is compared each time
    (&[(3, 1), (3, 2)], &[(3, 1)], 2, None),
    (&[(3, 1), (5, 1)], &[(3, 1), (3, 2), (5, 1)], 2, Some(5)),
    // the last number that there is
    (&[(0, 1), (u32::MAX, 1)], &[(0, 1), (u32::MAX, 2)], 2, None),
];

#[test]
fn sites_agree_from(rt: HostRuntime) -> Result<(), Fail> {
    let heap = rt.alloc();
    for (i, (first, second, common, agreed)) in CASES.iter().enumerate() {
        let one = site(heap, first)?;
        let other = site(heap, second)?;
        assert_eq!(rt; in_common(&one, &other), *common, "case {i}");
        assert_eq!(rt; agreed_from(&one, &other), *agreed, "case {i}");
        assert_eq!(rt;
            agreed_from(&other, &one),
            *agreed,
            "case {i} the other way"
        );
    }
    Ok(())
}

// Marks of the packets of two frames, and the first slot at which they differ.
const SLOTS: [(&[u8], &[u8], Option<usize>); 5] = [
    (&[], &[], None),
    (&[1, 2, 3], &[1, 2, 3], None),
    (&[1, 2, 3], &[1, 4, 5], Some(1)),
    (&[1, 2], &[1, 2, 3], Some(2)),
    (&[1], &[], Some(0)),
];

#[test]
fn frames_differ_at(rt: HostRuntime) -> Result<(), Fail> {
    let heap = rt.alloc();
    for (one, other, slot) in SLOTS {
        let x = frame(heap, 1, one)?;
        let y = frame(heap, 1, other)?;
        assert_eq!(rt; differ_at(&x, &y), slot, "{one:?} and {other:?}");
        assert_eq!(rt; differ_at(&y, &x), slot, "{other:?} and {one:?}");
    }
    Ok(())
}
