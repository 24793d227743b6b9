// What C gets for a text, and what a checked configuration holds.
use crate::texts;
use config::answer::dukhsare_check;
use config::check::check;
use config::fault::ConfigFault;
use config::row::{Kind, Row};
use std::test::Fail;

// A line's number in the example, what stands in its place, and what C then gets.
struct Packed(usize, &'static str, u32);

const PACKED: &[Packed] = &[
    Packed(1, "ticks backlog copies tsid", 0),
    Packed(1, "ticks backlog copies", 10_000_100),
    Packed(4, "parent", 10_000_400),
    Packed(2, "2700000 4 1", 20_000_200),
    Packed(10, "0 32 48 drop 3", 20_001_004),
    Packed(6, "1 50000", 30_000_602),
    Packed(3, "x", 30_000_300),
    Packed(10, "0 32 48 pmt 0", 30_001_005),
    Packed(9, "2 256 512 pass 0", 40_000_900),
    Packed(10, "0 32 512 pmt 3", 40_001_000),
];

#[test]
fn packs(rt: HostRuntime) -> Result<(), Fail> {
    let heap = rt.alloc();
    for Packed(number, line, told) in PACKED {
        let text = texts::with_line(heap, *number, line)?;
        assert_eq!(rt; dukhsare_check(heap, text.as_bytes()), *told);
    }
    Ok(())
}

#[test]
fn packs_line_zero(rt: HostRuntime) -> Result<(), Fail> {
    let heap = rt.alloc();
    let text = texts::filled(heap, 10, 'x', 16_385)?;
    assert_eq!(rt; dukhsare_check(heap, text.as_bytes()), 10_000_000);
    assert_eq!(rt; dukhsare_check(heap, b""), 10_000_100);
    Ok(())
}

#[test]
fn holds_what_is_written(rt: HostRuntime) -> Result<(), Fail> {
    let heap = rt.alloc();
    let text = texts::first_lines(heap, texts::LINES)?;
    let config = check(heap, text.as_bytes())?;
    assert_eq!(rt; config.ticks(), 2_700_000);
    assert_eq!(rt; config.backlog(), 4);
    assert_eq!(rt; config.copies(), 1);
    assert_eq!(rt; config.tsid(), 7);
    assert_eq!(rt; config.rates(), [40_000_000, 20_000_000].as_slice());
    assert_eq!(rt;
        config.rows(),
        [
            Row {
                parent: 0,
                pid: 256,
                out: 512,
                kind: Kind::Pass,
                service: 0,
            },
            Row {
                parent: 0,
                pid: 32,
                out: 48,
                kind: Kind::Pmt,
                service: 3,
            },
        ]
        .as_slice()
    );
    Ok(())
}

#[test]
fn names_a_clash(rt: HostRuntime) -> Result<(), Fail> {
    let heap = rt.alloc();
    let text = texts::with_line(heap, 10, "0 256 48 pmt 3")?;
    let fault = check(heap, text.as_bytes()).err();
    assert_eq!(rt; fault, Some(ConfigFault::Clash { line: 10 }));
    Ok(())
}
