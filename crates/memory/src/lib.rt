// One memory, given at power-up, in which a backlog and the line of each parent wait side by side.
#![tactic(auto)]

ghost use Rattle.std.specs.Prelude.{◌≡◌, ◌-◌, ◌/◌, ◌≤◌, min, ◌&&◌, [], ◌∷◌, ◌++◌, length, drop, replicate, is_ok, if◌then◌else◌, vec_len, MatchOption, nat_lt, slice_set};
ghost use Rattle.std.specs.Option.{option_map};
ghost use Rattle.std.specs.List.Sorted.{IsNonDecreasingBy};
ghost use Rattle.waiting.specs.Waiting.{oldest, from_on, not_before};
ghost use Rattle.memory.specs.Memory.{entries_in, size_in, parents_in, room_in, lines_in, line_in, backlog_in, Region, OnlyLines, OnlyBacklog};

use std::ops::Range;
use waiting::{Full, Line, Moment};

// No more parents than this have a line.
const MOST_LINES: usize = 4;

// No more than this wait in one line.
const MOST_ROOM: usize = 4096;

// The first `size` slots are the backlog's. The slots behind them are shared out among the parents, as many to each as to every other.
// All four lines are there from the start: a line in which nothing waits serves for one that is not a parent's.
// Any `size` and any number of `parents` may be given: each is bounded where it is read, and so no precondition and no invariant is needed.
#[derive(Drop)]
pub struct Memory<T> {
    slots: Vec<T>,
    size: usize,
    parents: usize,
    backlog: Line<T>,
    lines: [Line<T>; MOST_LINES],
}

impl<T: Copy> Memory<T> {
    // A memory of the slots given, in which nothing waits: `size` of them, or all where there are fewer, are the backlog's,
    // and each of the parents, or of the first four, has a line.
    #[tactic(auto, using(crate::proofs::Shares::none_wait), unfolding(crate::specs::Memory::entries_in, crate::specs::Memory::size_in, crate::specs::Memory::parents_in, crate::specs::Memory::room_in, crate::specs::Memory::lines_in, crate::specs::Memory::backlog_in))]
    pub fn new(slots: Vec<T>, size: usize, parents: usize) -> Memory<T>
        ensures entries { entries_in result ≡ vec_len slots }
        ensures size { size_in result ≡ min size (vec_len slots) }
        ensures parents { parents_in result ≡ min parents 4 }
        ensures room { room_in result ≡ min 4096 ((vec_len slots - size) / min parents 4) }
        ensures backlog { backlog_in result ≡ [] }
        ensures lines { lines_in result ≡ replicate (min parents 4) [] }
    {
        Memory {
            slots,
            size,
            parents,
            backlog: Line::new(),
            lines: [Line::new(); MOST_LINES],
        }
    }

    // How many slots there are.
    #[tactic(auto, unfolding(crate::specs::Memory::entries_in))]
    pub fn entries(&self) -> usize
        ensures { result ≡ entries_in self.now }
    {
        self.slots.len()
    }

    // How many may wait in the backlog.
    #[tactic(auto, unfolding(crate::specs::Memory::size_in, crate::specs::Memory::entries_in))]
    pub fn size(&self) -> usize
        ensures value { result ≡ size_in self.now }
        ensures within { result ≤ vec_len self.now.slots }
    {
        self.size.min(self.slots.len())
    }

    // How many parents have a line.
    #[tactic(auto, using(crate::proofs::Shares::length_lines), unfolding(crate::specs::Memory::parents_in))]
    pub fn parents(&self) -> usize
        ensures value { result ≡ parents_in self.now }
        ensures lines { result ≡ length (lines_in self.now) }
        ensures bound { result ≤ 4 }
    {
        self.parents.min(self.lines.len())
    }

    // How many may wait in each line.
    #[tactic(auto, unfolding(crate::specs::Memory::room_in, crate::specs::Memory::entries_in))]
    pub fn room(&self) -> usize
        ensures { result ≡ room_in self.now }
    {
        let shared = self.slots.len() - self.size();
        shared
            .checked_div(self.parents())
            .unwrap_or(0)
            .min(MOST_ROOM)
    }

    // Which slots are those of line p, if there is such a line.
    #[tactic(auto, using(crate::proofs::Shares::line_fits), unfolding(crate::specs::Memory::start_in, crate::specs::Memory::entries_in))]
    fn region(&self, p: usize) -> Option<Range<usize>>
        ensures { MatchOption result (parents_in self.now ≤ p) (λ slots. Region self.now p slots.start slots.end) }
    {
        if p >= self.parents() {
            return None;
        }
        let room = self.room();
        let from = self.size() + p * room;
        Some(from..from + room)
    }

    // Takes its place at the end of line p, where there is such a line and room in it; else it is refused, and nothing changes.
    #[tactic(auto, using(crate::proofs::Shares::of_a_line))]
    pub fn hold(&mut self, p: usize, x: T) -> Result<(), Full>
        ensures test { is_ok result ≡ nat_lt p (parents_in self.old) && nat_lt (length (line_in self.old p)) (room_in self.old) }
        ensures lines { lines_in self.new ≡ (if is_ok result then slice_set (lines_in self.old) p (line_in self.old p ++ x ∷ []) else lines_in self.old) }
        ensures rest { OnlyLines self.old self.new }
    {
        let region = self.region(p).ok_or(Full)?;
        self.lines[p].join(&mut self.slots[region], x)
    }

    // The one that has waited longest in line p, where it stands.
    #[tactic(auto, using(crate::proofs::Shares::of_a_line))]
    pub fn first(&self, p: usize) -> Option<&T>
        ensures { option_map (λ x. x.now) result ≡ oldest (line_in self.now p) }
    {
        let region = self.region(p)?;
        self.lines[p].peek(&self.slots[region])
    }

    // How many wait in line p.
    #[tactic(auto, using(crate::proofs::Shares::of_a_line))]
    pub fn count(&self, p: usize) -> usize
        ensures value { result ≡ length (line_in self.now p) }
        ensures bound { result ≤ room_in self.now }
    {
        // A closure for `map_or` would have to state the bounds of the region, and the count, once more.
        let Some(region) = self.region(p) else {
            return 0;
        };
        self.lines[p].count(&self.slots[region])
    }

    // The one that has waited longest in line p goes.
    #[tactic(auto, using(crate::proofs::Shares::of_a_line))]
    pub fn take(&mut self, p: usize) -> Option<T>
        ensures value { result ≡ oldest (line_in self.old p) }
        ensures lines { lines_in self.new ≡ slice_set (lines_in self.old) p (drop 1 (line_in self.old p)) }
        ensures rest { OnlyLines self.old self.new }
    {
        let region = self.region(p)?;
        self.lines[p].take(&self.slots[region])
    }

    // Nothing waits in line p any more.
    #[tactic(auto, using(crate::proofs::Shares::of_a_line))]
    pub fn clear(&mut self, p: usize)
        ensures lines { lines_in self.new ≡ slice_set (lines_in self.old) p [] }
        ensures rest { OnlyLines self.old self.new }
    {
        if p < self.parents() {
            self.lines[p].let_all_go();
        }
    }

    // The calls on the backlog stand beside those on a line: each is one call at other slots, and only of a line may there be none.

    // Takes its place at the end of the backlog, or is refused where the backlog is full, and then nothing changes.
    #[tactic(auto, using(crate::proofs::Shares::of_the_backlog))]
    pub fn admit(&mut self, x: T) -> Result<(), Full>
        ensures test { is_ok result ≡ nat_lt (length (backlog_in self.old)) (size_in self.old) }
        ensures backlog { backlog_in self.new ≡ (if is_ok result then backlog_in self.old ++ x ∷ [] else backlog_in self.old) }
        ensures rest { OnlyBacklog self.old self.new }
    {
        let size = self.size();
        self.backlog.join(&mut self.slots[0..size], x)
    }

    // The one that has waited longest in the backlog, where it stands.
    #[tactic(auto, using(crate::proofs::Shares::of_the_backlog))]
    pub fn front(&self) -> Option<&T>
        ensures { option_map (λ x. x.now) result ≡ oldest (backlog_in self.now) }
    {
        self.backlog.peek(&self.slots[..self.size()])
    }

    // The one that has waited longest in the backlog goes.
    #[tactic(auto, using(crate::proofs::Shares::of_the_backlog))]
    pub fn let_front_go(&mut self)
        ensures backlog { backlog_in self.new ≡ drop 1 (backlog_in self.old) }
        ensures rest { OnlyBacklog self.old self.new }
    {
        let size = self.size();
        let _ = self.backlog.take(&self.slots[..size]);
    }

    // How many wait in the backlog.
    #[tactic(auto, using(crate::proofs::Shares::of_the_backlog))]
    pub fn waiting(&self) -> usize
        ensures value { result ≡ length (backlog_in self.now) }
        ensures bound { result ≤ size_in self.now }
    {
        self.backlog.count(&self.slots[..self.size()])
    }

    // Nothing waits in the backlog any more.
    #[tactic(auto, using(crate::proofs::Shares::of_the_backlog))]
    pub fn empty_backlog(&mut self)
        ensures backlog { backlog_in self.new ≡ [] }
        ensures rest { OnlyBacklog self.old self.new }
    {
        self.backlog.let_all_go();
    }
}

impl<T: Copy + Moment> Memory<T> {
    // Those at the front of line p whose moment is before `since` go.
    // Where moments rise along the line, those that stay are all that are not before, and still rise.
    #[tactic(auto, using(crate::proofs::Shares::of_a_line))]
    pub fn let_go_before(&mut self, p: usize, since: u64)
        ensures lines { lines_in self.new ≡ slice_set (lines_in self.old) p (from_on T.moment since (line_in self.old p)) }
        ensures filtered { IsNonDecreasingBy T.moment (line_in self.old p) → line_in self.new p ≡ not_before T.moment since (line_in self.old p) }
        ensures rises { IsNonDecreasingBy T.moment (line_in self.old p) → IsNonDecreasingBy T.moment (line_in self.new p) }
        ensures rest { OnlyLines self.old self.new }
    {
        if let Some(region) = self.region(p) {
            self.lines[p].let_go_before(&self.slots[region], since);
        }
    }
}
