// A line is followed call by call, and each answer is held to the one that is wanted.
use crate::elements::{Packet, Tick};
use crate::hall::Hall;
use std::test::Fail;
use waiting::{Full, Line};

#[test]
fn goes_round(rt: HostRuntime) {
    let mut slots = [Tick(0); 3];
    let mut line = Line::new();
    assert_eq!(rt; line.join(&mut slots, Tick(1)), Ok(()));
    assert_eq!(rt; line.join(&mut slots, Tick(2)), Ok(()));
    assert_eq!(rt; line.join(&mut slots, Tick(3)), Ok(()));
    assert_eq!(rt; line.join(&mut slots, Tick(4)), Err(Full));
    assert_eq!(rt; line.take(&slots), Some(Tick(1)));
    assert_eq!(rt; line.take(&slots), Some(Tick(2)));
    assert_eq!(rt; line.join(&mut slots, Tick(4)), Ok(()));
    assert_eq!(rt; line.join(&mut slots, Tick(5)), Ok(()));
    assert_eq!(rt; line.count(&slots), 3);
    assert_eq!(rt; line.first(&slots), Some(Tick(3)));
    assert_eq!(rt; line.take(&slots), Some(Tick(3)));
    assert_eq!(rt; line.take(&slots), Some(Tick(4)));
    assert_eq!(rt; line.take(&slots), Some(Tick(5)));
    assert_eq!(rt; line.take(&slots), None);
}

#[test]
fn no_slot_has_no_room(rt: HostRuntime) {
    let mut slots: [Tick; 0] = [];
    let mut line = Line::new();
    assert_eq!(rt; line.join(&mut slots, Tick(1)), Err(Full));
    assert_eq!(rt; line.count(&slots), 0);
    assert_eq!(rt; line.first(&slots), None);
    assert_eq!(rt; line.take(&slots), None);
    line.let_go_before(&slots, 9);
    line.let_all_go();
    assert_eq!(rt; line.join(&mut slots, Tick(1)), Err(Full));
}

#[test]
fn one_slot_serves_again_and_again(rt: HostRuntime) {
    let mut slots = [Tick(0); 1];
    let mut line = Line::new();
    assert_eq!(rt; line.take(&slots), None);
    assert_eq!(rt; line.join(&mut slots, Tick(1)), Ok(()));
    assert_eq!(rt; line.join(&mut slots, Tick(2)), Err(Full));
    assert_eq!(rt; line.first(&slots), Some(Tick(1)));
    assert_eq!(rt; line.take(&slots), Some(Tick(1)));
    assert_eq!(rt; line.first(&slots), None);
    assert_eq!(rt; line.join(&mut slots, Tick(2)), Ok(()));
    line.let_go_before(&slots, 3);
    assert_eq!(rt; line.join(&mut slots, Tick(3)), Ok(()));
    assert_eq!(rt; line.count(&slots), 1);
    assert_eq!(rt; line.take(&slots), Some(Tick(3)));
    assert_eq!(rt; line.count(&slots), 0);
}

fn packet(arrival: u64) -> Packet {
    Packet {
        arrival,
        octets: 188,
    }
}

#[test]
fn those_before_a_moment_go(rt: HostRuntime) {
    let mut slots = [packet(0); 4];
    let mut line = Line::new();
    assert_eq!(rt; line.join(&mut slots, packet(10)), Ok(()));
    assert_eq!(rt; line.join(&mut slots, packet(20)), Ok(()));
    assert_eq!(rt; line.join(&mut slots, packet(20)), Ok(()));
    assert_eq!(rt; line.join(&mut slots, packet(30)), Ok(()));
    // none is before
    line.let_go_before(&slots, 10);
    assert_eq!(rt; line.count(&slots), 4);
    // what comes exactly at the moment stays
    line.let_go_before(&slots, 20);
    assert_eq!(rt; line.count(&slots), 3);
    assert_eq!(rt; line.first(&slots), Some(packet(20)));
    // round the end of the slots
    assert_eq!(rt; line.join(&mut slots, packet(40)), Ok(()));
    assert_eq!(rt; line.join(&mut slots, packet(50)), Err(Full));
    line.let_go_before(&slots, 31);
    assert_eq!(rt; line.count(&slots), 1);
    assert_eq!(rt; line.first(&slots), Some(packet(40)));
    // all
    line.let_go_before(&slots, 41);
    assert_eq!(rt; line.take(&slots), None);
}

#[test]
fn letting_go_ends_at_the_first_that_stays(rt: HostRuntime) {
    let mut slots = [Tick(0); 4];
    let mut line = Line::new();
    assert_eq!(rt; line.join(&mut slots, Tick(1)), Ok(()));
    assert_eq!(rt; line.join(&mut slots, Tick(9)), Ok(()));
    assert_eq!(rt; line.join(&mut slots, Tick(2)), Ok(()));
    line.let_go_before(&slots, 5);
    assert_eq!(rt; line.take(&slots), Some(Tick(9)));
    assert_eq!(rt; line.take(&slots), Some(Tick(2)));
    assert_eq!(rt; line.take(&slots), None);
}

#[test]
fn all_go_at_once(rt: HostRuntime) {
    let mut slots = [packet(0); 2];
    let mut line = Line::new();
    assert_eq!(rt; line.join(&mut slots, packet(1)), Ok(()));
    assert_eq!(rt; line.take(&slots), Some(packet(1)));
    assert_eq!(rt; line.join(&mut slots, packet(2)), Ok(()));
    assert_eq!(rt; line.join(&mut slots, packet(3)), Ok(()));
    line.let_all_go();
    assert_eq!(rt; line.count(&slots), 0);
    assert_eq!(rt; line.first(&slots), None);
    assert_eq!(rt; line.join(&mut slots, packet(4)), Ok(()));
    assert_eq!(rt; line.join(&mut slots, packet(5)), Ok(()));
    assert_eq!(rt; line.join(&mut slots, packet(6)), Err(Full));
    assert_eq!(rt; line.take(&slots), Some(packet(4)));
    assert_eq!(rt; line.take(&slots), Some(packet(5)));
}

// Over fewer slots than before a line is still a line of what those slots hold.
#[test]
fn fewer_slots(rt: HostRuntime) {
    let mut slots = [Tick(0); 3];
    let mut line = Line::new();
    assert_eq!(rt; line.join(&mut slots, Tick(5)), Ok(()));
    assert_eq!(rt; line.join(&mut slots, Tick(6)), Ok(()));
    assert_eq!(rt; line.join(&mut slots, Tick(7)), Ok(()));
    assert_eq!(rt; line.count(&slots[0..2]), 2);
    assert_eq!(rt; line.take(&slots[0..2]), Some(Tick(5)));
    assert_eq!(rt; line.take(&slots[0..2]), Some(Tick(6)));
    assert_eq!(rt; line.take(&slots[0..2]), None);
}

#[derive(Drop)]
struct Parent {
    line: Line<Packet>,
    // Two numbers and no `Range`: that is not `Copy`, and a clone of it may fail.
    from: usize,
    to: usize,
}

#[derive(Drop)]
struct Records {
    line: Line<Tick>,
    slots: [Tick; 8],
}

// Lines of several parents over parts of one memory, and a line with slots of its own.
#[derive(Drop)]
struct Yard {
    memory: Vec<Packet>,
    parents: [Parent; 2],
    records: Records,
}

impl Yard {
    fn join(&mut self, p: usize, packet: Packet) -> Result<(), Full> {
        let parent = self.parents.get_mut(p).ok_or(Full)?;
        let seats = self
            .memory
            .as_mut_slice()
            .get_mut(parent.from..parent.to)
            .ok_or(Full)?;
        parent.line.join(seats, packet)
    }

    fn take(&mut self, p: usize) -> Option<Packet> {
        let parent = self.parents.get_mut(p)?;
        parent.line.take(self.memory.get(parent.from..parent.to)?)
    }

    fn record(&mut self, tick: Tick) -> Result<(), Full> {
        self.records.line.join(&mut self.records.slots, tick)
    }

    fn take_record(&mut self) -> Option<Tick> {
        self.records.line.take(&self.records.slots)
    }
}

#[test]
fn lines_share_a_memory(rt: HostRuntime) -> Result<(), Fail> {
    let mut yard = Yard {
        memory: vec![in rt.alloc(); packet(0); 5]?,
        parents: [
            Parent {
                line: Line::new(),
                from: 0,
                to: 2,
            },
            Parent {
                line: Line::new(),
                from: 2,
                to: 5,
            },
        ],
        records: Records {
            line: Line::new(),
            slots: [Tick(0); 8],
        },
    };
    for n in [1, 2] {
        assert_eq!(rt; yard.join(0, packet(n)), Ok(()));
        assert_eq!(rt; yard.join(1, packet(n + 10)), Ok(()));
        assert_eq!(rt; yard.record(Tick(n)), Ok(()));
    }
    assert_eq!(rt; yard.join(0, packet(3)), Err(Full));
    assert_eq!(rt; yard.join(1, packet(13)), Ok(()));
    assert_eq!(rt; yard.take(0), Some(packet(1)));
    assert_eq!(rt; yard.join(0, packet(3)), Ok(()));
    assert_eq!(rt; yard.take(1), Some(packet(11)));
    assert_eq!(rt; yard.take(0), Some(packet(2)));
    assert_eq!(rt; yard.take(1), Some(packet(12)));
    assert_eq!(rt; yard.take_record(), Some(Tick(1)));
    Ok(())
}

#[test]
fn two_parts_of_a_hall(rt: HostRuntime) -> Result<(), Fail> {
    let mut hall = Hall::new(rt.alloc(), 3, 1)?;
    assert_eq!(rt; hall.join_front(packet(1)), Ok(()));
    assert_eq!(rt; hall.join_front(packet(2)), Err(Full));
    assert_eq!(rt; hall.join_back(packet(11)), Ok(()));
    assert_eq!(rt; hall.join_back(packet(12)), Ok(()));
    assert_eq!(rt; hall.join_back(packet(13)), Err(Full));
    assert_eq!(rt; hall.take_back(), Some(packet(11)));
    assert_eq!(rt; hall.take_front(), Some(packet(1)));
    assert_eq!(rt; hall.take_front(), None);
    assert_eq!(rt; hall.take_back(), Some(packet(12)));
    Ok(())
}
