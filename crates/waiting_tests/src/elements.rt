// Two kinds of element.
use waiting::Moment;

#[derive(Clone, Copy, PartialEq, Eq, Debug)]
pub struct Packet {
    pub arrival: u64,
    pub octets: u16,
}

impl Moment for Packet {
    ghost moment = { λ p. p.arrival };

    fn moment(&self) -> u64 {
        self.arrival
    }
}

#[derive(Clone, Copy, PartialEq, Eq, Debug)]
pub struct Tick(pub u64);

impl Moment for Tick {
    ghost moment = { λ t. t.0 };

    fn moment(&self) -> u64 {
        self.0
    }
}
