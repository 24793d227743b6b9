// Compares two sites of one configuration by their logs, frame by frame.
//
//   racks CONFIG LOG LOG
//
// Both logs are replayed (the program `replay` has their format), and every frame that both sites added is compared,
// packet by packet. What is printed:
//
//   records of frame N differ                          two accepted records of one number differ
//   packets of parent P do not follow one another at TIME   the packets taken from a parent are not those of one stream
//   difference frame F slot S                          two frames of one number differ; both packets follow in hex
//   both added N                                       how many frames both added
//   agree from frame F, no frame in common, no agreement
//
// Where one of the first two is printed, nothing is promised of the frames. The status is 0 if every frame that both
// added is equal.
#![tactic(auto)]

mod account;
mod comparison;
mod log;
mod records;
mod report;
mod streams;
#[cfg(test)]
mod tests;

use account::Account;
use log::replay;
use report::Report;
use sitelog::accepted::Accepted;
use sitelog::stop::{Stop, open};
use std::env;
use std::process::ExitCode;

// What the log of a file tells.
fn account_of(rt: &HostRuntime, accepted: &Accepted, path: &str) -> Result<Account, Stop> {
    replay(rt.alloc(), accepted, path, open(rt, path)?)
}

// Compares the two logs: whether every frame that both sites added is equal.
fn run(rt: &HostRuntime) -> Result<bool, Stop> {
    let mut words = env::args(rt)?;
    let _program = words.next();
    let (Some(config), Some(first), Some(second), None) = (
        words.next(),
        words.next(),
        words.next(),
        words.next(),
    ) else {
        return Err(Stop::Usage);
    };
    let accepted = Accepted::read(rt, config.as_str())?;
    let one = account_of(rt, &accepted, first.as_str())?;
    let other = account_of(rt, &accepted, second.as_str())?;
    let report = Report::new(rt.alloc(), &one, &other)?;
    rt.print(&report)?;
    Ok(report.all_equal())
}

fn main(rt: HostRuntime) -> ExitCode {
    let told = match run(&rt) {
        Ok(true) => return ExitCode::SUCCESS,
        Ok(false) => Ok(()),
        Err(Stop::Refused(line)) => rt.println(line.as_str()),
        Err(Stop::Usage) => rt.eprintln("usage: racks CONFIG LOG LOG"),
        Err(stop) => rt.eprintln(&stop),
    };
    // Where the words can't be written either, the status tells.
    let _ = told;
    ExitCode::FAILURE
}
