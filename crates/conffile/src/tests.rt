// A text is read whole, and one that is too long as far as that is seen.
use crate::read_text;
use std::test::Fail;

#[test]
fn reads_a_text(rt: HostRuntime) -> Result<(), Fail> {
    let text = b"ticks backlog copies tsid\n";
    assert_eq!(rt;
        read_text(rt.alloc(), &text[..])?.as_slice(),
        text.as_slice()
    );
    Ok(())
}

#[test]
fn stops_behind_the_longest(rt: HostRuntime) -> Result<(), Fail> {
    let long = vec![in rt.alloc(); b'x'; 20_000]?;
    assert_eq!(rt; read_text(rt.alloc(), long.as_slice())?.len(), 16_385);
    Ok(())
}
