// Configuration texts, built from the example's lines or from counts.
use std::alloc::{AllocError, Global};

// How many lines the example has.
pub const LINES: usize = 10;

// The example: two parents, and a map of two rows.
pub const EXAMPLE: [&str; LINES] = [
    "ticks backlog copies tsid",
    "2700000 4 1 7",
    "",
    "parent rate",
    "0 40000000",
    "1 20000000",
    "",
    "parent pid out kind service",
    "0 256 512 pass 0",
    "0 32 48 pmt 3",
];

fn push_line(text: &mut String, line: &str) -> Result<(), AllocError> {
    text.push_str(line)?;
    text.push('\n')
}

// The first `count` lines of the example.
pub(crate) fn first_lines(heap: Global, count: usize) -> Result<String, AllocError> {
    let mut text = String::new(heap);
    for line in EXAMPLE.iter().take(count) {
        push_line(&mut text, line)?;
    }
    Ok(text)
}

// The example with what `change` pushes in place of line `number`.
fn changed<F>(heap: Global, number: usize, change: F) -> Result<String, AllocError>
where
    F: Fn(&mut String, &str) -> Result<(), AllocError>,
    requires { F.IsAlwaysCallable change }
{
    let mut text = String::new(heap);
    for (i, line) in EXAMPLE.iter().enumerate() {
        if i + 1 == number {
            change(&mut text, line)?;
        } else {
            push_line(&mut text, line)?;
        }
    }
    Ok(text)
}

// The example without line `number`.
pub(crate) fn without_line(heap: Global, number: usize) -> Result<String, AllocError> {
    changed(heap, number, |_text, _line| Ok(()))
}

// The example with line `number` replaced.
pub(crate) fn with_line(heap: Global, number: usize, other: &str) -> Result<String, AllocError> {
    changed(heap, number, |text, _line| push_line(text, other))
}

// The example with something before and behind line `number`.
pub(crate) fn around_line(
    heap: Global,
    number: usize,
    before: &str,
    behind: &str,
) -> Result<String, AllocError> {
    changed(heap, number, |text, line| {
        text.push_str(before)?;
        text.push_str(line)?;
        push_line(text, behind)
    })
}

fn push_parents(heap: Global, text: &mut String, parents: u8) -> Result<(), AllocError> {
    for parent in 0..parents {
        let line = format!(in heap; "{parent} 40000000")?;
        push_line(text, line.as_str())?;
    }
    Ok(())
}

// Rows of parent 0, with the pids from 100, the outs from 2000 and the services from 1 on.
fn push_rows(heap: Global, text: &mut String, rows: u8, pmts: u8) -> Result<(), AllocError> {
    for i in 0..rows {
        let n = u16::from(i);
        let (pid, out) = (100 + n, 2000 + n);
        let (kind, service) = if i < pmts {
            ("pmt", 1 + n)
        } else {
            ("pass", 0)
        };
        let line = format!(in heap; "0 {pid} {out} {kind} {service}")?;
        push_line(text, line.as_str())?;
    }
    Ok(())
}

// A text of so many parents and rows, the first of which are `pmt`, and something behind them.
pub(crate) fn made(
    heap: Global,
    parents: u8,
    rows: u8,
    pmts: u8,
    behind: &str,
) -> Result<String, AllocError> {
    let mut text = first_lines(heap, 4)?;
    push_parents(heap, &mut text, parents)?;
    text.push_str("\nparent pid out kind service\n")?;
    push_rows(heap, &mut text, rows, pmts)?;
    text.push_str(behind)?;
    Ok(text)
}

// The first lines of the example, filled up to a length.
pub(crate) fn filled(
    heap: Global,
    lines: usize,
    with: char,
    length: usize,
) -> Result<String, AllocError> {
    let mut text = first_lines(heap, lines)?;
    for _ in text.len()..length {
        text.push(with)?;
    }
    Ok(text)
}
