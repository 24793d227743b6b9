// Runs the functions of `psi` on vectors: one line of standard input for each call, one line of answer.
//
//   # TEXT                             the line itself
//   map                                an empty map
//   row PARENT PID OUT KIND SERVICE    one more row, KIND `pass` or `pmt`
//   crc HEX                            the CRC-32
//   head HEX                           start, PID, scrambling, adaptation and counter of a good packet
//   stuffing HEX                       whether the packet is stuffing
//   blank                              the stuffing packet
//   pid PID HEX                        the packet with another PID
//   find PARENT PID                    the number of the row
//   pat COUNTER TSID                   the PAT packet of the map
//   deliver PARENT HEX                 what the map makes of the packet
//   copy TEXT FRAME COPY               the PAT copy of a frame, by the configuration that TEXT writes in hex
//   number TEXT PARENT PID             the number of the row in that configuration
//   hear TEXT PARENT HEX               what that configuration's map makes of the packet
#![tactic(auto)]

use config::check::check;
use config::row::Row;
use config::table::Config;
use psi::crc::crc32;
use psi::delivery::{BadPacket, Delivered, deliver, deliver_by};
use psi::lookup::{find_row, row_of};
use psi::packet::{Head, LENGTH, is_stuffing, stuffing, with_pid};
use psi::pat::{pat, pat_copy};
use std::io;

mod words;

use words::{bytes_in, cut, number_in, row_in, small_in};

fn main(rt: HostRuntime) -> io::Result<()> {
    let mut rows = Vec::new(rt.alloc());
    for line in rt.lines(rt.alloc()) {
        let line = line?;
        let (word, rest) = cut(line.as_str());
        match word {
            "#" => println!(rt; "# {rest}")?,
            "map" => rows.clear(),
            "row" => rows.push(row_in(rest))?,
            _ => answer(&rt, rows.as_slice(), word, rest)?,
        }
    }
    Ok(())
}

fn answer(rt: &HostRuntime, rows: &[Row], word: &str, rest: &str) -> io::Result<()> {
    match word {
        "crc" => show_crc(rt, rest),
        "head" => show_head(rt, rest),
        "stuffing" => show_stuffing(rt, rest),
        "blank" => show_packet(rt, &stuffing()),
        "pid" => show_pid(rt, rest),
        "find" => show_row(rt, rows, rest),
        "pat" => show_pat(rt, rows, rest),
        "deliver" => show_delivery(rt, rows, rest),
        "copy" => configured(rt, rest, |config, line| show_copy(rt, config, line)),
        "number" => configured(rt, rest, |config, line| show_number(rt, config, line)),
        "hear" => configured(rt, rest, |config, line| show_heard(rt, config, line)),
        _ => println!(rt; "unknown"),
    }
}

fn show_packet(rt: &HostRuntime, packet: &[u8]) -> io::Result<()> {
    for byte in packet {
        print!(rt; "{byte:02x}")?;
    }
    println!(rt; "")
}

// A packet, or a word where none was made.
fn show_made(rt: &HostRuntime, made: Option<[u8; LENGTH]>, none: &str) -> io::Result<()> {
    match made {
        Some(packet) => show_packet(rt, &packet),
        None => println!(rt; "{none}"),
    }
}

fn show_crc(rt: &HostRuntime, hex: &str) -> io::Result<()> {
    let bytes = bytes_in(rt.alloc(), hex)?;
    let crc = crc32(bytes.as_slice());
    println!(rt; "{crc:08x}")
}

fn show_head(rt: &HostRuntime, hex: &str) -> io::Result<()> {
    let bytes = bytes_in(rt.alloc(), hex)?;
    match Head::of(bytes.as_slice()) {
        Some(head) => {
            let Head {
                start,
                pid,
                scrambling,
                adaptation,
                counter,
            } = head;
            println!(rt; "{start} {pid} {scrambling} {adaptation:?} {counter}")
        }
        None => println!(rt; "bad"),
    }
}

fn show_stuffing(rt: &HostRuntime, hex: &str) -> io::Result<()> {
    let bytes = bytes_in(rt.alloc(), hex)?;
    let is = is_stuffing(bytes.as_slice());
    println!(rt; "{is}")
}

fn show_pid(rt: &HostRuntime, line: &str) -> io::Result<()> {
    let (pid, hex) = cut(line);
    let bytes = bytes_in(rt.alloc(), hex)?;
    show_made(rt, with_pid(bytes.as_slice(), number_in(pid)), "bad")
}

fn show_row(rt: &HostRuntime, rows: &[Row], line: &str) -> io::Result<()> {
    let (parent, pid) = cut(line);
    let found = find_row(rows, small_in(parent), number_in(pid));
    show_found(rt, found.map(|(number, _)| number))
}

fn show_found(rt: &HostRuntime, number: Option<usize>) -> io::Result<()> {
    match number {
        Some(number) => println!(rt; "{number}"),
        None => println!(rt; "none"),
    }
}

fn show_pat(rt: &HostRuntime, rows: &[Row], line: &str) -> io::Result<()> {
    let (counter, tsid) = cut(line);
    show_made(rt, pat(small_in(counter), number_in(tsid), rows), "none")
}

fn show_delivery(rt: &HostRuntime, rows: &[Row], line: &str) -> io::Result<()> {
    let (parent, hex) = cut(line);
    let bytes = bytes_in(rt.alloc(), hex)?;
    show_delivered(rt, deliver_by(rows, small_in(parent), bytes.as_slice()))
}

fn show_delivered(rt: &HostRuntime, delivered: Result<Delivered, BadPacket>) -> io::Result<()> {
    match delivered {
        Ok(Delivered::Unmapped) => println!(rt; "unmapped"),
        Ok(Delivered::Unpatchable) => println!(rt; "unpatchable"),
        Ok(Delivered::Deliverable(number, packet)) => {
            print!(rt; "{number} ")?;
            show_packet(rt, &packet)
        }
        Err(BadPacket) => println!(rt; "bad"),
    }
}

// A call that takes a checked configuration, and the rest of its line.
fn configured<F: FnOnce(&Config, &str) -> io::Result<()>>(
    rt: &HostRuntime,
    line: &str,
    show: F,
) -> io::Result<()>
    requires { F.IsAlwaysCallable show }
{
    let (hex, rest) = cut(line);
    let text = bytes_in(rt.alloc(), hex)?;
    match check(rt.alloc(), text.as_slice()) {
        Ok(config) => show(&config, rest),
        Err(_) => println!(rt; "refused"),
    }
}

fn show_copy(rt: &HostRuntime, config: &Config, line: &str) -> io::Result<()> {
    let (frame, copy) = cut(line);
    show_packet(rt, &pat_copy(config, number_in(frame), number_in(copy)))
}

fn show_number(rt: &HostRuntime, config: &Config, line: &str) -> io::Result<()> {
    let (parent, pid) = cut(line);
    show_found(rt, row_of(config, small_in(parent), number_in(pid)))
}

fn show_heard(rt: &HostRuntime, config: &Config, line: &str) -> io::Result<()> {
    let (parent, hex) = cut(line);
    let bytes = bytes_in(rt.alloc(), hex)?;
    show_delivered(rt, deliver(config, small_in(parent), bytes.as_slice()))
}
