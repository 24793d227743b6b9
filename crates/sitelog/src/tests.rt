// A configuration's text is accepted, and then gives its configuration; one that is not is refused by its line.
use crate::accepted::Accepted;
use crate::stop::{Stop, open};
use std::fs;
use std::test::Fail;

const CONFIG: &[u8] =
    b"ticks backlog copies tsid\n10000 3 2 7\n\nparent rate\n0 100000000\n1 100000000\n\nparent pid out kind service\n0 256 512 pass 0\n1 257 513 pass 0\n";

#[test]
fn accepts_a_text(rt: HostRuntime) -> Result<(), Fail> {
    let heap = rt.alloc();
    let accepted = Accepted::of(heap, CONFIG.to_vec(heap)?).map_err(Fail::new)?;
    let config = accepted.config(heap)?;
    assert_eq!(rt; config.ticks(), 10_000);
    assert_eq!(rt; config.rates().len(), 2);
    Ok(())
}

#[test]
fn refuses_a_text(rt: HostRuntime) -> Result<(), Fail> {
    let heap = rt.alloc();
    let Err(Stop::Refused(line)) = Accepted::of(heap, b"ticks\n".to_vec(heap)?) else {
        return Err(Fail::new("not refused"));
    };
    assert_eq!(rt; line.as_str(), "refused 1 line 1 field 0");
    Ok(())
}

#[test]
fn tells_a_file_that_is_not_there(rt: HostRuntime) -> Result<(), Fail> {
    let Err(Stop::File(path, _)) = open(&rt, "no/such/file") else {
        return Err(Fail::new("no fault of the file"));
    };
    assert_eq!(rt; path.as_str(), "no/such/file");
    Ok(())
}

#[test]
fn reads_a_file(rt: HostRuntime) -> Result<(), Fail> {
    fs::write(&rt, "test.conf", CONFIG)?;
    let accepted = Accepted::read(&rt, "test.conf").map_err(Fail::new)?;
    assert_eq!(rt; accepted.config(rt.alloc())?.ticks(), 10_000);
    fs::remove_file(&rt, "test.conf")?;
    Ok(())
}
