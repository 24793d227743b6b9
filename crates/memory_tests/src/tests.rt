// A memory is followed call by call, and each answer is held to the one that is wanted.
use crate::Tick;
use memory::Memory;
use std::alloc::{AllocError, Global};
use std::test::Fail;
use waiting::Full;

fn memory(
    heap: Global,
    entries: usize,
    size: usize,
    parents: usize,
) -> Result<Memory<Tick>, AllocError> {
    Ok(Memory::new(vec![in heap; Tick(0); entries]?, size, parents))
}

#[test]
fn shares_are_even(rt: HostRuntime) -> Result<(), Fail> {
    // (entries, size, parents): so many lines, with so much room in each
    for ((entries, size, parents), (lines, room)) in [
        ((10, 2, 2), (2, 4)),
        ((10, 2, 3), (3, 2)),
        ((10, 0, 1), (1, 10)),
        // the backlog takes all
        ((10, 10, 2), (2, 0)),
        ((10, 11, 2), (2, 0)),
        // no parent, and more than there are lines
        ((10, 2, 0), (0, 0)),
        ((10, 2, 9), (4, 2)),
        // no line is longer than 4096
        ((8193, 1, 2), (2, 4096)),
        ((8192, 1, 2), (2, 4095)),
        ((20000, 1, 2), (2, 4096)),
        ((0, 0, 4), (4, 0)),
    ] {
        let memory = memory(rt.alloc(), entries, size, parents)?;
        assert_eq!(rt; memory.entries(), entries);
        assert_eq!(rt; memory.parents(), lines);
        assert_eq!(rt; memory.room(), room);
    }
    Ok(())
}

#[test]
fn lines_and_backlog_keep_apart(rt: HostRuntime) -> Result<(), Fail> {
    let mut memory = memory(rt.alloc(), 7, 2, 2)?;
    assert_eq!(rt; memory.size(), 2);
    assert_eq!(rt; memory.admit(Tick(1)), Ok(()));
    assert_eq!(rt; memory.hold(0, Tick(10)), Ok(()));
    assert_eq!(rt; memory.hold(1, Tick(20)), Ok(()));
    assert_eq!(rt; memory.admit(Tick(2)), Ok(()));
    assert_eq!(rt; memory.admit(Tick(3)), Err(Full));
    assert_eq!(rt; memory.hold(0, Tick(11)), Ok(()));
    assert_eq!(rt; memory.hold(0, Tick(12)), Err(Full));
    assert_eq!(rt; memory.hold(1, Tick(21)), Ok(()));
    assert_eq!(rt; memory.hold(1, Tick(22)), Err(Full));
    assert_eq!(rt; memory.hold(2, Tick(30)), Err(Full));
    assert_eq!(rt; memory.first(0).copied(), Some(Tick(10)));
    assert_eq!(rt; memory.first(1).copied(), Some(Tick(20)));
    assert_eq!(rt; memory.first(2).copied(), None);
    assert_eq!(rt; memory.take(0), Some(Tick(10)));
    assert_eq!(rt; memory.hold(0, Tick(12)), Ok(()));
    assert_eq!(rt; memory.count(0), 2);
    assert_eq!(rt; memory.front().copied(), Some(Tick(1)));
    memory.let_front_go();
    assert_eq!(rt; memory.admit(Tick(3)), Ok(()));
    assert_eq!(rt; memory.waiting(), 2);
    assert_eq!(rt; memory.take(0), Some(Tick(11)));
    assert_eq!(rt; memory.take(0), Some(Tick(12)));
    assert_eq!(rt; memory.take(0), None);
    assert_eq!(rt; memory.take(1), Some(Tick(20)));
    assert_eq!(rt; memory.take(1), Some(Tick(21)));
    assert_eq!(rt; memory.front().copied(), Some(Tick(2)));
    memory.let_front_go();
    assert_eq!(rt; memory.front().copied(), Some(Tick(3)));
    memory.let_front_go();
    assert_eq!(rt; memory.front().copied(), None);
    memory.let_front_go();
    Ok(())
}

#[test]
fn some_go_and_the_others_stay(rt: HostRuntime) -> Result<(), Fail> {
    let mut memory = memory(rt.alloc(), 8, 2, 2)?;
    assert_eq!(rt; memory.hold(0, Tick(10)), Ok(()));
    assert_eq!(rt; memory.hold(0, Tick(20)), Ok(()));
    assert_eq!(rt; memory.hold(0, Tick(30)), Ok(()));
    assert_eq!(rt; memory.hold(1, Tick(10)), Ok(()));
    assert_eq!(rt; memory.hold(1, Tick(20)), Ok(()));
    assert_eq!(rt; memory.admit(Tick(10)), Ok(()));
    assert_eq!(rt; memory.admit(Tick(20)), Ok(()));
    memory.let_go_before(0, 20);
    memory.let_go_before(2, 99);
    assert_eq!(rt; memory.count(0), 2);
    assert_eq!(rt; memory.count(1), 2);
    assert_eq!(rt; memory.waiting(), 2);
    assert_eq!(rt; memory.first(0).copied(), Some(Tick(20)));
    memory.clear(1);
    memory.clear(4);
    assert_eq!(rt; memory.count(1), 0);
    assert_eq!(rt; memory.count(0), 2);
    assert_eq!(rt; memory.hold(1, Tick(40)), Ok(()));
    memory.empty_backlog();
    assert_eq!(rt; memory.waiting(), 0);
    assert_eq!(rt; memory.admit(Tick(50)), Ok(()));
    assert_eq!(rt; memory.first(1).copied(), Some(Tick(40)));
    assert_eq!(rt; memory.take(0), Some(Tick(20)));
    assert_eq!(rt; memory.take(0), Some(Tick(30)));
    assert_eq!(rt; memory.front().copied(), Some(Tick(50)));
    memory.let_front_go();
    Ok(())
}

// Where nothing has room, all are refused, and nothing waits.
#[test]
fn no_slots(rt: HostRuntime) -> Result<(), Fail> {
    let mut memory = memory(rt.alloc(), 0, 3, 4)?;
    assert_eq!(rt; memory.admit(Tick(1)), Err(Full));
    assert_eq!(rt; memory.hold(0, Tick(1)), Err(Full));
    assert_eq!(rt; memory.hold(3, Tick(1)), Err(Full));
    assert_eq!(rt; memory.first(0).copied(), None);
    assert_eq!(rt; memory.take(3), None);
    assert_eq!(rt; memory.front().copied(), None);
    memory.let_front_go();
    assert_eq!(rt; memory.count(0), 0);
    assert_eq!(rt; memory.waiting(), 0);
    Ok(())
}
