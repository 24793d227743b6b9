// Remultiplexes transport stream files: one file for each parent in, one multiplex out.
// `remux --help` shows the call. The status is 0 where all went well and 1 for any fault, which is told on standard error.
#![tactic(auto)]

mod fault;
mod job;
mod options;
mod output;
mod parent;
mod prepare;
mod rack;
mod sink;
mod source;
#[cfg(test)]
mod tests;

use crate::fault::Fault;
use crate::options::{Call, USAGE, read_call};
use std::env;
use std::process::ExitCode;

// What the words of the command line ask for.
fn run(rt: &HostRuntime) -> Result<(), Fault> {
    let heap = rt.alloc();
    let mut words = env::args(rt).map_err(Fault::Words)?;
    let _program = words.next();
    match read_call(heap, words)? {
        Call::Help => rt.println(USAGE)?,
        Call::Remux(options) => prepare::remux(rt, &options)?,
    }
    Ok(())
}

fn main(rt: HostRuntime) -> ExitCode {
    match run(&rt) {
        Ok(()) => ExitCode::SUCCESS,
        Err(fault) => {
            let _ = eprintln!(rt; "remux: {fault}");
            ExitCode::FAILURE
        }
    }
}
