// Faults, which end a run; a count that is too long for a stored log; and the law of the tally over a long random log.
use crate::log::replay;
use crate::observer::Tally;
use crate::reply::Reply;
use crate::site::Site;
use crate::tests::weather::Weather;
use adapter::answer::Framed;
use sitelog::accepted::Accepted;
use sitelog::call::{Call, Packet};
use sitelog::mounted::Kind;
use sitelog::site::Place;
use std::alloc::{AllocError, Global};
use std::process::Abort;
use std::test::Fail;

mod weather;

const CONFIG: &[u8] =
    b"ticks backlog copies tsid\n10000 3 2 7\n\nparent rate\n0 100000000\n1 100000000\n\nparent pid out kind service\n0 256 512 pass 0\n1 257 513 pass 0\n";

fn new_site(heap: Global) -> Result<Site, Fail> {
    let accepted = Accepted::of(heap, CONFIG.to_vec(heap)?).map_err(Fail::new)?;
    Ok(Site::new(heap, accepted))
}

fn answer(site: &mut Site, call: Call) -> Result<Reply, Fail> {
    site.answer(call).map_err(Fail::new)
}

fn powered(heap: Global, entries: usize) -> Result<Site, Fail> {
    let mut site = new_site(heap)?;
    let _on = answer(&mut site, Call::Power(entries))?;
    Ok(site)
}

// A log, and what is told of its fault.
struct Bad(&'static str, &'static str);

const FAULTS: &[Bad] = &[
    Bad("tally\n", "line 1: power comes first"),
    Bad(
        "# none\n\ncarrier 0 strip 188\n",
        "line 3: power comes first",
    ),
    Bad("switch on\n", "line 1: no such call"),
    Bad("Power 9\n", "line 1: no such call"),
    Bad(" power 9\n", "line 1: no such call"),
    Bad(" \n", "line 1: no such call"),
    Bad("power\n", "line 1: too few fields or too many"),
    Bad("power 9 \n", "line 1: too few fields or too many"),
    Bad("power 9\nhear 0  -\n", "line 2: TIME is no number"),
    Bad("power +9\n", "line 1: ENTRIES is no number"),
    Bad("power -\n", "line 1: ENTRIES is no number"),
    Bad(
        "power 18446744073709551616\n",
        "line 1: ENTRIES is too large",
    ),
    Bad("power 9\nhear x - -\n", "line 2: PARENT is no number"),
    Bad("power 9\nhear 0 1.5 -\n", "line 2: TIME is no number"),
    Bad(
        "power 9\nhear 0 - 4\n",
        "line 2: HEX has an odd number of digits",
    ),
    Bad("power 9\nhear 0 - 4g\n", "line 2: HEX is not in hex digits"),
    Bad("power 9\nhear 0 - \n", "line 2: HEX is not in hex digits"),
    Bad(
        "power 9\nrecord 4294967296 0 5\n",
        "line 2: NUMBER is too large",
    ),
    Bad("power 9\nrecord 1 -1 5\n", "line 2: START is no number"),
    Bad(
        "power 9\nrecord 1 0 4294967296\n",
        "line 2: SLOTS is too large",
    ),
    Bad("power 9\ncarrier 16 strip 188\n", "line 2: ID is too large"),
    Bad(
        "power 9\ncarrier 0 tape 188\n",
        "line 2: a carrier is a strip or folded",
    ),
    Bad(
        "power 9\ncarrier 0 strip 9223372036854775808\n",
        "line 2: no memory for the carrier",
    ),
    Bad("power 9\nframe 0\n", "line 2: no such carrier"),
    Bad(
        "power 9\ncarrier 0 strip 0\npower 9\nfree 0\n",
        "line 4: no such carrier",
    ),
];

#[test]
fn tells_faults(rt: HostRuntime) -> Result<(), Fail> {
    let heap = rt.alloc();
    for Bad(log, told) in FAULTS {
        let mut out = Vec::new(heap);
        let Err(stop) = replay(heap, &mut new_site(heap)?, log.as_bytes(), &mut out) else {
            return Err(Fail::new(log));
        };
        assert_eq!(rt; stop.to_string(heap)?.as_str(), *told);
    }
    Ok(())
}

#[test]
fn prints_up_to_a_fault(rt: HostRuntime) -> Result<(), Fail> {
    let heap = rt.alloc();
    let mut out = Vec::new(heap);
    let log = b"power 18446744073709551615\r\n# twice\n\ntally\ntally";
    assert!(rt; replay(heap, &mut new_site(heap)?, &log[..], &mut out).is_ok());
    let log = b"tally\nwhat\ntally\n";
    let mut site = powered(heap, 9)?;
    assert!(rt; replay(heap, &mut site, &log[..], &mut out).is_err());
    assert_eq!(rt; out.as_slice(), b"on\nblank\nblank\nblank\n".as_slice());
    Ok(())
}

// A packet of parent 0 that no row is for, without a time.
fn unmapped(heap: Global) -> Result<Packet, AllocError> {
    let mut bytes = [0; 188];
    bytes[0] = 0x47;
    Ok(Packet {
        parent: 0,
        time: None,
        bytes: bytes.to_vec(heap)?,
    })
}

fn hears(
    rt: &impl Abort,
    heap: Global,
    site: &mut Site,
    packet: Packet,
    told: &str,
) -> Result<(), Fail> {
    let reply = answer(site, Call::Hear(packet))?;
    assert_eq!(rt; reply.to_string(heap)?.as_str(), told);
    Ok(())
}

// 100,000 packets may follow an anchor, and one more is a loss.
#[test]
fn counts_from_an_anchor(rt: HostRuntime) -> Result<(), Fail> {
    let heap = rt.alloc();
    let mut site = powered(heap, 9)?;
    let mut anchor = unmapped(heap)?;
    anchor.time = Some(0);
    hears(&rt, heap, &mut site, anchor, "passed over")?;
    for _ in 0..100_000 {
        hears(&rt, heap, &mut site, unmapped(heap)?, "passed over")?;
    }
    hears(&rt, heap, &mut site, unmapped(heap)?, "refused 8")?;
    hears(&rt, heap, &mut site, unmapped(heap)?, "passed over")
}

// What a frame call may answer by the tally before it.
fn is_lawful(before: &Reply, reply: &Reply) -> bool {
    let is_clear = matches!(before, Reply::Tally(Tally::Clear));
    match reply {
        Reply::Framed(Framed::Added(_, _)) => is_clear,
        Reply::Refused(refusal) => !is_clear || refusal.number() >= 12,
        _ => !is_clear,
    }
}

// How often each answer of a frame call came.
#[derive(Clone, Copy)]
struct Seen {
    skipped: u32,
    followed: u32,
    added: u32,
}

fn seen_more(seen: Seen, framed: &Framed) -> Seen {
    match framed {
        Framed::Skipped(_) => Seen {
            skipped: seen.skipped.saturating_add(1),
            ..seen
        },
        Framed::Followed(_, _) => Seen {
            followed: seen.followed.saturating_add(1),
            ..seen
        },
        Framed::Added(_, _) => Seen {
            added: seen.added.saturating_add(1),
            ..seen
        },
    }
}

// Frames are added only from a clear tally, and then always, unless 12, 13 or 14 refuses them.
#[test]
fn adds_only_from_clear(rt: HostRuntime) -> Result<(), Fail> {
    let heap = rt.alloc();
    let mut site = powered(heap, 80)?;
    let place = Place::of(0).ok_or_else(|| Fail::new("no place"))?;
    let _capacity = answer(
        &mut site,
        Call::Carrier {
            place,
            kind: Kind::Strip,
            bytes: 188 * 60,
        },
    )?;
    let mut weather = Weather::new(7, place);
    let mut seen = Seen {
        skipped: 0,
        followed: 0,
        added: 0,
    };
    for _ in 0..40_000 {
        let call = weather.call(heap)?;
        let is_frame = matches!(&call, Call::Frame(_));
        let before = answer(&mut site, Call::Tally)?;
        let reply = answer(&mut site, call)?;
        if is_frame {
            assert!(rt; is_lawful(&before, &reply), "{}", &reply);
        }
        if let Reply::Framed(framed) = &reply {
            seen = seen_more(seen, framed);
        }
        weather.answered(&reply);
    }
    let Seen {
        skipped,
        followed,
        added,
    } = seen;
    assert!(rt;
        skipped > 100 && followed > 100 && added > 100,
        "skipped {skipped}, followed {followed}, added {added}"
    );
    Ok(())
}
