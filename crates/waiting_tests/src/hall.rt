// Two lines over the two parts of one memory.
ghost use Rattle.std.specs.Prelude.{◌≡◌, min, [], ◌∷◌, ◌++◌, length, is_ok, IfOk, if◌then◌else◌, vec_len, nat_lt};
ghost use Rattle.std.specs.Option.{option_to_list};
ghost use Rattle.waiting.specs.Waiting.{oldest};
ghost use Rattle.waiting_tests.specs.Hall.{front_seats, back_seats, in_front, at_back};

use crate::elements::Packet;
use std::alloc::{AllocError, Global};
use waiting::{Full, Line};

#[derive(Drop)]
pub struct Hall {
    memory: Vec<Packet>,
    cut: usize,
    front: Line<Packet>,
    back: Line<Packet>,
}

impl Hall {
    // The calls stand twice, front and back: one call for both would take a number and say for each what stays, and there are only two.
    // A hall of `seats` places, of which the first `cut` are the front line's, with nobody in it.
    pub fn new(heap: Global, seats: usize, cut: usize) -> Result<Hall, AllocError>
        ensures { IfOk result (λ hall. (vec_len hall.memory ≡ seats) × (hall.cut ≡ cut) × (in_front hall ≡ []) × (at_back hall ≡ [])) }
    {
        let nobody = Packet {
            arrival: 0,
            octets: 0,
        };
        Ok(Hall {
            memory: vec![in heap; nobody; seats]?,
            cut,
            front: Line::new(),
            back: Line::new(),
        })
    }

    // The seat from which on the back line sits.
    fn cut(&self) -> usize
        ensures { result ≡ min self.now.cut (vec_len self.now.memory) }
    {
        self.cut.min(self.memory.len())
    }

    // Takes its place in the front line, where a seat is free; the back line stays as it is.
    #[tactic(auto, using(crate::proofs::Seats::of_the_front))]
    pub fn join_front(&mut self, packet: Packet) -> Result<(), Full>
        ensures test { is_ok result ≡ nat_lt (length (in_front self.old)) (length (front_seats self.old)) }
        ensures front { in_front self.new ≡ (if is_ok result then in_front self.old ++ packet ∷ [] else in_front self.old) }
        ensures back { at_back self.new ≡ at_back self.old }
    {
        let cut = self.cut();
        self.front.join(&mut self.memory[0..cut], packet)
    }

    // Takes its place in the back line, where a seat is free; the front line stays as it is.
    #[tactic(auto, using(crate::proofs::Seats::of_the_back))]
    pub fn join_back(&mut self, packet: Packet) -> Result<(), Full>
        ensures test { is_ok result ≡ nat_lt (length (at_back self.old)) (length (back_seats self.old)) }
        ensures front { in_front self.new ≡ in_front self.old }
        ensures back { at_back self.new ≡ (if is_ok result then at_back self.old ++ packet ∷ [] else at_back self.old) }
    {
        let cut = self.cut();
        let seats = self.memory.len();
        self.back.join(&mut self.memory[cut..seats], packet)
    }

    // The first of the front line goes; the back line stays as it is.
    #[tactic(auto, using(crate::proofs::Seats::of_the_front))]
    pub fn take_front(&mut self) -> Option<Packet>
        ensures value { result ≡ oldest (in_front self.old) }
        ensures front { in_front self.old ≡ option_to_list result ++ in_front self.new }
        ensures back { at_back self.new ≡ at_back self.old }
    {
        let cut = self.cut();
        self.front.take(&self.memory[..cut])
    }

    // The first of the back line goes; the front line stays as it is.
    #[tactic(auto, using(crate::proofs::Seats::of_the_back))]
    pub fn take_back(&mut self) -> Option<Packet>
        ensures value { result ≡ oldest (at_back self.old) }
        ensures front { in_front self.new ≡ in_front self.old }
        ensures back { at_back self.old ≡ option_to_list result ++ at_back self.new }
    {
        let cut = self.cut();
        self.back.take(&self.memory[cut..])
    }
}
