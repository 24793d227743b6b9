// A run: records are given ahead, each parent is heard to the end of the oldest one's frame, and the frame is placed and written.
use crate::fault::Fault;
use crate::output::{Emits, Output};
use crate::parent::Parent;
use crate::rack::Rack;
use adapter::answer::{Framed, Refusal};
use feed::plan::Plan;
use rules::entry::Frame;

// Records that the adapter lets wait, and one more to be told that they are.
const RECORDS: u32 = 9;
// After so many frames a line tells how far the run is.
const PROGRESS: u64 = 1000;

#[derive(Drop)]
pub(crate) struct Job {
    pub(crate) parents: Vec<Parent>,
    pub(crate) rack: Rack,
    pub(crate) plan: Plan,
    // How many frames at most.
    pub(crate) frames: u64,
    // The numbers of the oldest record that waits, and of the next one to be given.
    pub(crate) oldest: u64,
    pub(crate) given: u64,
    pub(crate) verbose: bool,
}

impl Job {
    // All frames that the input allows, and then the line of counters. What was placed before a fault is written all the same.
    pub(crate) fn run<C: Emits>(
        &mut self,
        rt: &HostRuntime,
        output: &mut Output<C>,
    ) -> Result<(), Fault> {
        let ran = self.run_frames(rt, output);
        let flushed = output.flush();
        ran?;
        flushed?;
        let counters = self.rack.counters();
        println!(rt; "{counters}")?;
        Ok(())
    }

    fn run_frames<C: Emits>(
        &mut self,
        rt: &HostRuntime,
        output: &mut Output<C>,
    ) -> Result<(), Fault> {
        for done in 0..self.frames {
            if done > 0 && done % PROGRESS == 0 {
                let _ = eprintln!(rt; "remux: {done} frames");
            }
            let Some(framed) = self.run_frame(rt, output)? else {
                break;
            };
            if self.verbose {
                println!(rt; "{framed}")?;
            }
            output.emit()?;
        }
        Ok(())
    }

    // Places one frame; `None` where the input or the records are at their end.
    fn run_frame<C: Emits>(
        &mut self,
        rt: &HostRuntime,
        output: &mut Output<C>,
    ) -> Result<Option<Framed>, Fault> {
        self.give_records()?;
        let Some(frame) = self.oldest_record() else {
            return Ok(None);
        };
        let end = frame.start.saturating_add(u64::from(self.plan.ticks));
        self.hear_all(end, rt)?;
        match self.rack.frame(output) {
            Ok(framed) => {
                self.settle(framed, end);
                Ok(Some(framed))
            }
            Err(Refusal::Unheard) => Ok(None),
            Err(refusal) => Err(Fault::Refused(refusal)),
        }
    }

    // As many records ahead as the adapter takes.
    fn give_records(&mut self) -> Result<(), Fault> {
        for _ in 0..RECORDS {
            let Some(frame) = self.plan.frame(self.given) else {
                break;
            };
            match self.rack.record(frame) {
                Ok(_) => self.given = self.given.saturating_add(1),
                Err(Refusal::RecordsFull) => break,
                Err(refusal) => return Err(Fault::Refused(refusal)),
            }
        }
        Ok(())
    }

    // Hears each parent until a moment, or to the end of its input.
    fn hear_all(&mut self, end: u64, rt: &HostRuntime) -> Result<(), Fault> {
        for parent in self.parents.iter_mut() {
            let heard = parent.hear_until(end, &mut self.rack, rt);
            heard.map_err(|fault| parent.blame(fault))?;
        }
        Ok(())
    }

    // The oldest record that waits.
    fn oldest_record(&self) -> Option<Frame> {
        if self.oldest >= self.given {
            return None;
        }
        self.plan.frame(self.oldest)
    }

    // What a frame leaves of from-times and records, as in the adapter.
    fn settle(&mut self, framed: Framed, end: u64) {
        match framed {
            Framed::Skipped(_) => {
                let from_times = self.parents.iter().map(|parent| parent.from_time());
                let latest = from_times.max().unwrap_or(0);
                self.restart(latest);
                self.let_go_before(latest);
            }
            Framed::Followed(_, _) | Framed::Added(_, _) => {
                self.restart(end);
                self.oldest = self.oldest.saturating_add(1);
            }
        }
    }

    // Every from-time becomes this moment.
    fn restart(&mut self, since: u64) {
        for parent in self.parents.iter_mut() {
            parent.restart(since);
        }
    }

    // Records that start before a moment go.
    fn let_go_before(&mut self, since: u64) {
        let starts_before = |n: &u64| {
            let frame = self.plan.frame(*n);
            frame.is_some_and(|frame| frame.start < since)
        };
        let gone = (self.oldest..self.given).take_while(starts_before).count();
        self.oldest = self.oldest.saturating_add(gone as u64);
    }
}
