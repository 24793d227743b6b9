// Replays a site log over a configuration, and prints what each call answers.
//
//   replay CONFIG [LOG]
//
// The log comes from standard input where no file is named. It has one call to a line, and its fields are parted by
// one space. Empty lines and lines that begin with `#` are passed over.
//
//   power ENTRIES              `on`: a new adapter, and no carriers
//   carrier ID KIND BYTES      `capacity C`: a new carrier, KIND `strip` or `folded`
//   hear PARENT TIME HEX       `passed over`, `dropped`, `held`; TIME `-` for none, HEX `-` for no bytes
//   loss PARENT                `lost`
//   record NUMBER START SLOTS  `anew`, `queued`
//   frame ID                   `skipped F`, `followed F dropped D`, `added F dropped D`
//   put ID HEX                 `put`
//   empty ID                   `emptied`
//   read ID INDEX              the packet in hex, or `none`
//   free ID                    `free X of Y`
//   bytes ID                   the carrier's used bytes in hex, or `-`
//   tally                      `blank`, `count N`, `clear`
//
// A call that is refused prints `refused N`. The first line that is no call ends the run with status 1.
#![tactic(auto)]

mod log;
mod observer;
mod reply;
mod site;
#[cfg(test)]
mod tests;

use log::replay;
use site::Site;
use sitelog::accepted::Accepted;
use sitelog::stop::{Stop, open};
use std::env;
use std::io::{BufWriter, Write};
use std::process::ExitCode;

fn run(rt: &HostRuntime) -> Result<(), Stop> {
    let heap = rt.alloc();
    let mut words = env::args(rt)?;
    let _program = words.next();
    let path = words.next().ok_or(Stop::Usage)?;
    let log = words.next();
    if words.next().is_some() {
        return Err(Stop::Usage);
    }
    let mut site = Site::new(heap, Accepted::read(rt, path.as_str())?);
    let mut out = BufWriter::new(heap, rt.stdout())?;
    let ended = match log {
        Some(log) => replay(heap, &mut site, open(rt, log.as_str())?, &mut out),
        None => replay(heap, &mut site, rt.stdin(), &mut out),
    };
    out.flush()?;
    ended
}

fn main(rt: HostRuntime) -> ExitCode {
    let told = match run(&rt) {
        Ok(()) => return ExitCode::SUCCESS,
        Err(Stop::Refused(line)) => rt.println(line.as_str()),
        Err(Stop::Usage) => rt.eprintln("usage: replay CONFIG [LOG]"),
        Err(stop) => rt.eprintln(&stop),
    };
    // Where the words can't be written either, the status tells.
    let _ = told;
    ExitCode::FAILURE
}
