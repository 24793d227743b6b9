// Premises that fail, frames that differ, and faults of a log.
use crate::account::Account;
use crate::comparison::Differences;
use crate::log::replay;
use crate::report::Report;
use agreement::Added;
use sitelog::accepted::Accepted;
use sitelog::hex::Hex;
use sitelog::stop::Stop;
use std::alloc::{AllocError, Global};
use std::test::Fail;

const CONFIG: &[u8] =
    b"ticks backlog copies tsid\n10000 1 1 7\n\nparent rate\n0 40608000\n\nparent pid out kind service\n0 256 512 pass 0\n";

// A packet of this PID that has a mark behind its head.
fn packet(pid: u16, mark: u8) -> [u8; 188] {
    let mut packet = [0xff; 188];
    packet[0] = 0x47;
    packet[1] = (pid / 256) as u8;
    packet[2] = (pid % 256) as u8;
    packet[3] = 0x10;
    packet[4] = mark;
    packet
}

// The packets that a log hands: time, or 0 for none, and mark.
type Heard = &'static [(u64, u8)];

fn hear(heap: Global, log: &mut String, packets: Heard) -> Result<(), AllocError> {
    for (time, mark) in packets {
        let bytes = packet(256, *mark);
        let line = if *time == 0 {
            format!(in heap; "hear 0 - {}\n", Hex(&bytes))?
        } else {
            format!(in heap; "hear 0 {time} {}\n", Hex(&bytes))?
        };
        log.push_str(line.as_str())?;
    }
    Ok(())
}

fn accepted(heap: Global) -> Result<Accepted, Fail> {
    Accepted::of(heap, CONFIG.to_vec(heap)?).map_err(Fail::new)
}

fn account(heap: Global, log: &str) -> Result<Account, Fail> {
    replay(heap, &accepted(heap)?, "log", log.as_bytes()).map_err(Fail::new)
}

// What is told of two logs.
fn told(heap: Global, one: &str, other: &str) -> Result<String, Fail> {
    let first = account(heap, one)?;
    let second = account(heap, other)?;
    Ok(Report::new(heap, &first, &second)?.to_string(heap)?)
}

// The packets of a parent at two sites, the second's again behind a loss, and where they do not follow one another.
struct Parted {
    first: Heard,
    second: Heard,
    again: Heard,
    at: u64,
}

const PARTED: [Parted; 6] = [
    // the same stream, of which each site heard a part
    Parted {
        first: &[(1000, 1), (0, 2), (0, 3), (4500, 4)],
        second: &[(1000, 1), (0, 2)],
        again: &[(4500, 4), (0, 5)],
        at: 0,
    },
    // another packet at one arrival
    Parted {
        first: &[(1000, 1), (0, 2)],
        second: &[(1000, 1), (0, 9)],
        again: &[],
        at: 2000,
    },
    // a time at one site, and none at the other
    Parted {
        first: &[(1000, 1), (0, 2)],
        second: &[(1000, 1), (2000, 2)],
        again: &[],
        at: 2000,
    },
    // a packet that the second missed, with no loss told
    Parted {
        first: &[(1000, 1), (0, 2), (4000, 3)],
        second: &[(1000, 1), (4000, 3)],
        again: &[],
        at: 2000,
    },
    // the same with the loss told
    Parted {
        first: &[(1000, 1), (0, 2), (4000, 3)],
        second: &[(1000, 1)],
        again: &[(4000, 3)],
        at: 0,
    },
    // one site twice, with other packets
    Parted {
        first: &[],
        second: &[(1000, 1)],
        again: &[(1000, 2)],
        at: 1000,
    },
];

#[test]
fn packets_follow_one_another(rt: HostRuntime) -> Result<(), Fail> {
    let heap = rt.alloc();
    for (i, case) in PARTED.iter().enumerate() {
        let mut one = String::from_str(heap, "power 9\n")?;
        hear(heap, &mut one, case.first)?;
        let mut other = String::from_str(heap, "power 9\n")?;
        hear(heap, &mut other, case.second)?;
        other.push_str("loss 0\n")?;
        hear(heap, &mut other, case.again)?;
        let mut expected = String::new(heap);
        if case.at > 0 {
            let at = case.at;
            let line = format!(in heap; "packets of parent 0 do not follow one another at {at}\n")?;
            expected.push_str(line.as_str())?;
        }
        expected.push_str("both added 0\nno frame in common\n")?;
        assert_eq!(rt;
            told(heap, one.as_str(), other.as_str())?,
            expected,
            "case {i}"
        );
    }
    Ok(())
}

// Accepted records of two sites, and what is told of them.
const RECORDS: [(&str, &str, &str); 3] = [
    (
        "record 1 1000 4\nrecord 2 11000 4\n",
        "record 2 11000 4\n",
        "",
    ),
    (
        "record 1 1000 4\nrecord 2 11000 4\n",
        "record 1 1000 5\nrecord 2 11000 5\n",
        "records of frame 1 differ\nrecords of frame 2 differ\n",
    ),
    // within one log; and one that was refused
    (
        "record 1 1000 4\nrecord 1 2000 4\nrecord 1 3000 4\n",
        "record 5 0 0\nrecord 5 0 4\n",
        "records of frame 1 differ\n",
    ),
];

#[test]
fn records_of_one_number_are_equal(rt: HostRuntime) -> Result<(), Fail> {
    let heap = rt.alloc();
    for (one, other, told_of) in RECORDS {
        let first = format!(in heap; "power 9\n{one}")?;
        let second = format!(in heap; "power 9\n{other}")?;
        let expected = format!(in heap; "{told_of}both added 0\nno frame in common\n")?;
        assert_eq!(rt; told(heap, first.as_str(), second.as_str())?, expected);
    }
    Ok(())
}

// The log of a site that follows frame 1 and adds frame 2, in which a packet with a mark arrives.
fn adding(heap: Global, mark: u8) -> Result<String, AllocError> {
    let idle = packet(300, 0);
    let marked = packet(256, mark);
    let quiet = Hex(&idle);
    let data = Hex(&marked);
    format!(in heap;
        "power 9\ncarrier 0 strip 1880\nrecord 1 10000 4\nrecord 2 20000 4\nhear 0 10000 {quiet}\nhear 0 20000 {quiet}\nframe 0\nhear 0 21000 {data}\nhear 0 30000 {quiet}\nframe 0\n"
    )
}

#[test]
fn frames_differ(rt: HostRuntime) -> Result<(), Fail> {
    let heap = rt.alloc();
    let one = adding(heap, 1)?;
    let other = adding(heap, 2)?;
    assert_eq!(rt;
        told(heap, one.as_str(), one.as_str())?,
        String::from_str(heap, "both added 1\nagree from frame 2\n")?
    );
    let first = packet(512, 1);
    let second = packet(512, 2);
    let one_hex = Hex(&first);
    let other_hex = Hex(&second);
    let expected = format!(in heap;
        "packets of parent 0 do not follow one another at 21000\ndifference frame 2 slot 1\n{one_hex}\n{other_hex}\nboth added 1\nno agreement\n"
    )?;
    assert_eq!(rt; told(heap, one.as_str(), other.as_str())?, expected);
    Ok(())
}

#[test]
fn ten_differences_are_shown(rt: HostRuntime) -> Result<(), Fail> {
    let heap = rt.alloc();
    let mut first = Vec::new(heap);
    first.push(Added {
        number: 3,
        packets: vec![in heap; 1; 12 * 188]?,
    })?;
    let mut second = Vec::new(heap);
    second.push(Added {
        number: 3,
        packets: vec![in heap; 2; 13 * 188]?,
    })?;
    let differences = Differences::between(heap, first.as_slice(), second.as_slice())?;
    assert_eq!(rt; differences.shown.len(), 10);
    assert_eq!(rt; differences.more, 3);
    Ok(())
}

// A log, and what is told of its fault.
const FAULTS: [(&str, u64, &str); 4] = [
    ("tally\n", 1, "power comes first"),
    ("power 9\nframe 0\n", 2, "no such carrier"),
    ("# none\n\npower 9 9\n", 3, "too few fields or too many"),
    ("power 9\nhear 0 - 4g\n", 2, "HEX is not in hex digits"),
];

#[test]
fn a_fault_ends_a_log(rt: HostRuntime) -> Result<(), Fail> {
    let heap = rt.alloc();
    for (log, line, told) in FAULTS {
        match replay(heap, &accepted(heap)?, "log", log.as_bytes()) {
            Err(Stop::Line { number, fault, .. }) => {
                assert_eq!(rt; number, line);
                assert_eq!(rt; fault.to_string(heap)?.as_str(), told);
            }
            _ => return Err(Fail::new("no fault of a line")),
        }
    }
    Ok(())
}
