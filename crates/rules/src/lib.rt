// The rules of the adapter, and the laws that hold of every site that keeps them. There is no running adapter here:
// each function below only carries what is proved of the definitions in specs/. What waits in an adapter is in `entry`.
#![tactic(auto)]

ghost use Rattle.config.specs.Setup.{setup};
ghost use Rattle.rules.specs.Cases.{WorkedCases};
ghost use Rattle.rules.specs.Determined.{HearHasOne, LossHasOne, RecordHasOne, FrameHasOne};
ghost use Rattle.rules.specs.Invariants.{AlwaysSound, AlwaysFits};
ghost use Rattle.rules.specs.Laws.{OnlyFromClear, EqualFrames};
ghost use Rattle.rules.specs.Sites.{TwoSites};
ghost use Rattle.rules.specs.State.{Checked};
ghost use Rattle.rules.specs.Times.{AfterRises};

use config::table::Config;

pub mod entry;

// The laws speak of every checked configuration.
pub fn laws_speak_of(config: &Config) -> u8
    ensures { Checked (setup config.now) }
{
    0
}

// Frames are added only from a clear tally, and then always; and what two sites add under one number is equal.
pub fn laws_stand() -> u8
    ensures clear { OnlyFromClear }
    ensures equal { EqualFrames }
{
    0
}

// The packets after an anchor arrive one after the other.
pub fn arrivals_rise() -> u8
    ensures { AfterRises }
{
    0
}

// From one state, each call with the same arguments has one answer and one next state (a carrier's free places aside).
pub fn calls_are_determined() -> u8
    ensures hear { HearHasOne }
    ensures loss { LossHasOne }
    ensures records { RecordHasOne }
    ensures frame { FrameHasOne }
{
    0
}

// After every complete log the adapter is sound: lines in order, the backlog within its size, records consecutive, from-times at the next start.
pub fn adapter_stays_sound() -> u8
    ensures sound { AlwaysSound }
    ensures fits { AlwaysFits }
{
    0
}

// Two sites that meet all premises of the law of equal frames, and both add a frame: one lost its parent, the other was switched on later.
pub fn sites_add_a_frame() -> u8
    ensures { TwoSites }
{
    0
}

// The definitions come to what they should on numbers that can be checked by hand.
pub fn worked_cases_hold() -> u8
    ensures { WorkedCases }
{
    0
}
