// Calls and files that are wrong, and what is told of them.
use crate::options::{Call, CarrierKind, UsageFault, read_call};
use crate::source::Source;
use std::alloc::{AllocError, Global};
use std::fs;
use std::test::Fail;

// The words of a call, and what is told of it.
const CALLS: [(&str, &str); 20] = [
    ("--help", "help"),
    ("a.conf a.ts --help", "help"),
    ("a.conf a.ts -o out.ts", "remux"),
    ("-v -o out.ts a.conf a.ts b.ts c.ts d.ts", "remux"),
    (
        "a.conf -o out.ts",
        "a configuration and a file for each parent are needed (see --help)",
    ),
    ("a.conf a.ts", "where does the multiplex go? -o FILE"),
    ("a.conf a.ts -o", "-o needs a value"),
    ("a.conf a.ts -o out.ts --slots", "--slots needs a value"),
    ("a.conf a.ts -o out.ts --time 0", "--time needs a value"),
    ("a.conf a.ts -o out.ts --slots x", "--slots: x is no number"),
    (
        "a.conf a.ts -o out.ts --slots +5",
        "--slots: +5 is no number",
    ),
    (
        "a.conf a.ts -o out.ts --start -1",
        "--start: -1 is no number",
    ),
    (
        "a.conf a.ts -o out.ts --start 18446744073709551615",
        "remux",
    ),
    (
        "a.conf a.ts -o out.ts --start 18446744073709551616",
        "--start: 18446744073709551616 is no number",
    ),
    ("a.conf a.ts -o out.ts --miss 3 1", "remux"),
    (
        "a.conf a.ts -o out.ts --miss 4 1",
        "--miss: 4 is no parent (0 to 3)",
    ),
    (
        "a.conf a.ts -o out.ts --carrier belt",
        "--carrier: belt is neither strip nor folded",
    ),
    ("a.conf a.ts -o out.ts -o out.ts", "-o is given twice"),
    (
        "a.conf a.ts -o out.ts --time 1 5 --time 1 5",
        "--time is given twice",
    ),
    ("a.conf a.ts -o out.ts --speed 5", "unknown option --speed"),
];

fn call_of(heap: Global, text: &str) -> Result<Result<Call, UsageFault>, AllocError> {
    let mut words = Vec::new(heap);
    for word in text.split(' ') {
        words.push(String::from_str(heap, word)?)?;
    }
    Ok(read_call(heap, words.into_iter()))
}

#[test]
fn calls(rt: HostRuntime) -> Result<(), Fail> {
    let heap = rt.alloc();
    for (text, expected) in CALLS {
        let call = call_of(heap, text)?;
        let told = match &call {
            Ok(Call::Help) => String::from_str(heap, "help")?,
            Ok(Call::Remux(_)) => String::from_str(heap, "remux")?,
            Err(fault) => format!(in heap; "{fault}")?,
        };
        assert_eq!(rt; told.as_str(), expected, "{}", text);
    }
    Ok(())
}

#[test]
fn values(rt: HostRuntime) -> Result<(), Fail> {
    let text =
        "a.conf a.ts b.ts -o out.ts --slots 40 --start 7 --frames 3 --carrier folded --entries 99 --time 1 5 --miss 0 2 -v";
    let Ok(Call::Remux(options)) = call_of(rt.alloc(), text)? else {
        return Err(Fail::new("no options"));
    };
    assert_eq!(rt; options.config.as_str(), "a.conf");
    assert_eq!(rt; options.parents.len(), 2);
    assert_eq!(rt; options.out.as_str(), "out.ts");
    let settings = options.settings;
    assert_eq!(rt; settings.slots, Some(40));
    assert_eq!(rt; settings.start, Some(7));
    assert_eq!(rt; settings.frames, Some(3));
    assert_eq!(rt; settings.carrier, Some(CarrierKind::Folded));
    assert_eq!(rt; settings.entries, Some(99));
    let times = settings.parents.map(|parent| parent.time);
    assert_eq!(rt; times, [None, Some(5), None, None]);
    let misses = settings.parents.map(|parent| parent.miss);
    assert_eq!(rt; misses, [Some(2), None, None, None]);
    assert!(rt; settings.verbose);
    Ok(())
}

// How many bytes a file has, what each of them is, and what is told of it.
const FILES: [(usize, u8, &str); 5] = [
    (0, 0, "empty"),
    (400, 0, "neither 188-byte nor 192-byte packets"),
    (1, 0x47, "cut at 0"),
    (376, 0x47, "whole"),
    (377, 0x47, "cut at 376"),
];

#[test]
fn files(rt: HostRuntime) -> Result<(), Fail> {
    let heap = rt.alloc();
    for (length, byte, expected) in FILES {
        let bytes = vec![in heap; byte; length]?;
        fs::write(&rt, "test.ts", bytes.as_slice())?;
        let told = match Source::open(&rt, "test.ts") {
            Err(fault) => format!(in heap; "{fault}")?,
            Ok(mut source) => {
                for _ in 0..3 {
                    if source.has_next()? {
                        source.pass();
                    }
                }
                match source.cut() {
                    Some(offset) => format!(in heap; "cut at {offset}")?,
                    None => String::from_str(heap, "whole")?,
                }
            }
        };
        assert_eq!(rt; told.as_str(), expected);
    }
    fs::remove_file(&rt, "test.ts")?;
    Ok(())
}
