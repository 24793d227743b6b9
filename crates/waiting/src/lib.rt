// A waiting line: first in, first out, over slots that the caller owns and lends to each call.
#![tactic(auto)]

ghost use Rattle.std.specs.Prelude.{◌≡◌, ℕ, ◌<◌, ◌≤◌, List, [], ◌∷◌, ◌++◌, length, is_ok, if◌then◌else◌, OnErr, nat_lt, slice_set};
ghost use Rattle.std.specs.Option.{option_map, option_to_list};
ghost use Rattle.std.specs.List.Sorted.{IsNonDecreasingBy};
ghost use Rattle.waiting.specs.Waiting.{turned, waits, one_more, oldest, from_on, not_before};

use std::marker::PhantomData;

// An element that has a moment, as its time of arrival.
pub trait Moment {
    ghost moment: { Self → ℕ };

    fn moment(&self) -> u64
        ensures { result ≡ moment self.now };
}

// As many wait as there are slots.
#[derive(Clone, Copy, PartialEq, Eq, Debug)]
pub struct Full;

// Where a line stands in its slots, which are elsewhere: the slot of the oldest, and how many wait.
// It owns no slots, since all lines share the one memory that is made at power-up, and no call allocates.
#[derive_where(Clone, Copy)]
pub struct Line<T> {
    first: usize,
    count: usize,
    kind: PhantomData<T>,
}

impl<T: Copy> Line<T> {
    // A line in which nothing waits, over any slots.
    #[tactic(auto, unfolding(crate::specs::Waiting::waits))]
    pub fn new() -> Line<T>
        ensures { (slots : List T) → waits result slots ≡ [] }
    {
        Line {
            first: 0,
            count: 0,
            kind: PhantomData,
        }
    }

    // How many wait: at most as many as there are slots.
    #[tactic(auto, using(crate::proofs::Rounds::length_waits))]
    pub fn count(&self, slots: &[T]) -> usize
        ensures value { result ≡ length (waits self.now slots.now) }
        ensures bound { result ≤ length slots.now }
    {
        self.count.min(slots.len())
    }

    // The element that has waited longest.
    pub fn first(&self, slots: &[T]) -> Option<T>
        ensures { result ≡ oldest (waits self.now slots.now) }
    {
        self.peek(slots).copied()
    }

    // The element that has waited longest, where it stands.
    #[tactic(auto, using(crate::proofs::Rounds::length_waits, crate::proofs::Rounds::oldest_is))]
    pub fn peek<'a>(&self, slots: &'a [T]) -> Option<&'a T>
        ensures { option_map (λ x. x.now) result ≡ oldest (waits self.now slots.now) }
    {
        if self.count(slots) == 0 {
            None
        } else {
            Some(&slots[self.start(slots.len())])
        }
    }

    // Takes its place behind all that wait, or is refused where every slot is taken.
    #[tactic(auto, using(crate::proofs::Rounds::length_waits))]
    pub fn join(&mut self, slots: &mut [T], x: T) -> Result<(), Full>
        ensures test { is_ok result ≡ nat_lt (length (waits self.old slots.old)) (length slots.old) }
        ensures after { waits self.new slots.new ≡ (if is_ok result then waits self.old slots.old ++ x ∷ [] else waits self.old slots.old) }
        ensures same { OnErr result ((self.new ≡ self.old) × (slots.new ≡ slots.old)) }
    {
        if self.count >= slots.len() {
            return Err(Full);
        }
        let free = self.free(slots);
        slots[free] = x;
        self.count += 1;
        Ok(())
    }

    // The element that has waited longest goes.
    #[tactic(auto, using(crate::proofs::Rounds::length_waits, crate::proofs::Rounds::oldest_some, crate::proofs::Rounds::taken))]
    pub fn take(&mut self, slots: &[T]) -> Option<T>
        ensures value { result ≡ oldest (waits self.old slots.now) }
        ensures rest { waits self.old slots.now ≡ option_to_list result ++ waits self.new slots.now }
    {
        let x = self.first(slots)?;
        self.count = self.count(slots) - 1;
        self.first = self.start(slots.len()) + 1;
        Some(x)
    }

    // Nothing waits any more, over any slots.
    #[tactic(auto, unfolding(crate::specs::Waiting::waits))]
    pub fn let_all_go(&mut self)
        ensures { (slots : List T) → waits self.new slots ≡ [] }
    {
        self.count = 0;
    }

    // The slot at which the round of `len` slots begins.
    #[tactic(auto, using(crate::proofs::Rounds::turned_past))]
    fn start(&self, len: usize) -> usize
        requires { 0 < len }
        ensures within { result < len }
        ensures round { (slots : List T) → length slots ≡ len → turned result slots ≡ turned self.now.first slots }
    {
        if self.first < len { self.first } else { 0 }
    }

    // The slot behind the last that waits: what is written there waits next.
    #[tactic(auto, using(crate::proofs::Rounds::joins_on, crate::proofs::Rounds::joins_round))]
    fn free(&self, slots: &[T]) -> usize
        requires { self.now.count < length slots.now }
        ensures within { result < length slots.now }
        ensures joins { (x : T) → waits (one_more self.now) (slice_set slots.now result x) ≡ waits self.now slots.now ++ x ∷ [] }
    {
        let start = self.start(slots.len());
        let to_last = slots.len() - start;
        if self.count < to_last {
            start + self.count
        } else {
            self.count - to_last
        }
    }
}

impl<T: Copy + Moment> Line<T> {
    // Those at the front whose moment is before `since` go. Where moments rise along the line, those that stay are all that are not before, and still rise.
    #[tactic(auto, using(crate::proofs::Moments::from_on_filters, crate::proofs::Moments::from_on_rises))]
    pub fn let_go_before(&mut self, slots: &[T], since: u64)
        ensures after { waits self.new slots.now ≡ from_on T.moment since (waits self.old slots.now) }
        ensures filtered { IsNonDecreasingBy T.moment (waits self.old slots.now) → waits self.new slots.now ≡ not_before T.moment since (waits self.old slots.now) }
        ensures rises { IsNonDecreasingBy T.moment (waits self.old slots.now) → IsNonDecreasingBy T.moment (waits self.new slots.now) }
    {
        while self.peek(slots).is_some_and(|x| x.moment() < since) {
            let _ = self.take(slots);
        }
    }
}
