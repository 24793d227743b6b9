// Checks a configuration text and prints one line: `ok parents 2 rows 2`, or `refused 3 line 6 field 2`.
// The status is 0 for an accepted text and 1 for any other.
// The text comes from the file that the one argument names, or from standard input.
#![tactic(auto)]

use anyhow::anyhow;
use conffile::read_text;
use config::answer::answer_line;
use std::process::ExitCode;
use std::{env, fs};

// Whether the text was accepted.
fn run(rt: &HostRuntime) -> anyhow::Result<bool> {
    let heap = rt.alloc();
    let mut words = env::args(rt)?;
    let _program = words.next();
    let text = match (words.next(), words.next()) {
        (None, _) => read_text(heap, rt.stdin())?,
        (Some(path), None) => read_text(heap, fs::open(rt, path.as_str())?)?,
        (Some(_), Some(_)) => return Err(anyhow!("usage: sischeck [FILE]")),
    };
    let line = answer_line(heap, text.as_slice())?;
    rt.println(line.as_str())?;
    // The line tells it: the check is not asked again, which might want memory.
    Ok(line.as_str().starts_with("ok"))
}

fn main(rt: HostRuntime) -> anyhow::Result<ExitCode> {
    Ok(if run(&rt)? {
        ExitCode::SUCCESS
    } else {
        ExitCode::FAILURE
    })
}
