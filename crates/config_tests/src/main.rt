// Prints what the check says of many configuration texts: what the text is, and the answer to it.
#![tactic(auto)]

mod cases;
#[cfg(test)]
mod tests;
mod texts;

use cases::{EDITS, Edit, FILLED, Filled, MADE, Made, SWEEPS, Sweep, WHOLE, Whole};
use config::answer::answer_line;
use std::io;
use texts::LINES;

fn tell(rt: &HostRuntime, name: &str, text: &[u8]) -> io::Result<()> {
    let line = answer_line(rt.alloc(), text)?;
    println!(rt; "{name}: {line}")
}

// Texts as they stand.
fn tell_whole(rt: &HostRuntime) -> io::Result<()> {
    for Whole(name, text) in WHOLE {
        tell(rt, name, text)?;
    }
    Ok(())
}

// The example up to the end of each line, with its line feed and without.
fn tell_ends(rt: &HostRuntime) -> io::Result<()> {
    let heap = rt.alloc();
    for count in 0..=LINES {
        let mut text = texts::first_lines(heap, count)?;
        let name = format!(in heap; "the first {count} lines")?;
        tell(rt, name.as_str(), text.as_bytes())?;
        let _feed = text.pop();
        let name = format!(in heap; "the first {count} lines without the last line feed")?;
        tell(rt, name.as_str(), text.as_bytes())?;
    }
    Ok(())
}

// The example without each of its lines.
fn tell_missing(rt: &HostRuntime) -> io::Result<()> {
    let heap = rt.alloc();
    for number in 1..=LINES {
        let text = texts::without_line(heap, number)?;
        let name = format!(in heap; "without line {number}")?;
        tell(rt, name.as_str(), text.as_bytes())?;
    }
    Ok(())
}

// The example with one change at each of its lines.
fn tell_sweep(rt: &HostRuntime, sweep: &Sweep) -> io::Result<()> {
    let heap = rt.alloc();
    let Sweep(name, before, after) = sweep;
    for number in 1..=LINES {
        let text = texts::around_line(heap, number, before, after)?;
        let name = format!(in heap; "{name} line {number}")?;
        tell(rt, name.as_str(), text.as_bytes())?;
    }
    Ok(())
}

fn tell_sweeps(rt: &HostRuntime) -> io::Result<()> {
    for sweep in SWEEPS {
        tell_sweep(rt, sweep)?;
    }
    Ok(())
}

// The example with one of its lines replaced.
fn tell_edits(rt: &HostRuntime) -> io::Result<()> {
    let heap = rt.alloc();
    for Edit(number, line) in EDITS {
        let text = texts::with_line(heap, *number, line)?;
        let name = format!(in heap; "line {number} {line:?}")?;
        tell(rt, name.as_str(), text.as_bytes())?;
    }
    Ok(())
}

// Texts with so many parents, rows and `pmt` rows, and something behind them.
fn tell_made(rt: &HostRuntime) -> io::Result<()> {
    let heap = rt.alloc();
    for Made(parents, rows, pmts, behind) in MADE {
        let text = texts::made(heap, *parents, *rows, *pmts, behind)?;
        let name = format!(in heap;
            "{parents} parents, {rows} rows, {pmts} of them pmt, then {behind:?}"
        )?;
        tell(rt, name.as_str(), text.as_bytes())?;
    }
    Ok(())
}

// Texts filled up to a length.
fn tell_filled(rt: &HostRuntime) -> io::Result<()> {
    let heap = rt.alloc();
    for Filled(name, lines, with, length) in FILLED {
        let text = texts::filled(heap, *lines, *with, *length)?;
        let name = format!(in heap; "{name}, {length} bytes")?;
        tell(rt, name.as_str(), text.as_bytes())?;
    }
    Ok(())
}

fn main(rt: HostRuntime) -> io::Result<()> {
    tell_whole(&rt)?;
    tell_ends(&rt)?;
    tell_missing(&rt)?;
    tell_sweeps(&rt)?;
    tell_edits(&rt)?;
    tell_made(&rt)?;
    tell_filled(&rt)
}
