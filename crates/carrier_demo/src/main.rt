// The same packets in a strip and in a folded carrier: what each holds, and in how many bytes.
#![tactic(auto)]

use anyhow::Context;
use carrier::{Carrier, Folded, PutFault, Strip};
use psi::packet::{Head, LENGTH, is_stuffing, stuffing};
use std::mem;

// Packets that come in a row.
#[derive(Clone, Copy)]
enum Run {
    Stuffing(usize),
    Pid(u16),
}

const RUNS: [Run; 7] = [
    Run::Pid(512),
    Run::Stuffing(2),
    Run::Pid(513),
    // of the stuffing's PID, and not stuffing
    Run::Pid(8191),
    Run::Stuffing(300),
    Run::Pid(512),
    Run::Stuffing(5),
];

// The bytes that each carrier is given.
const BYTES: usize = 60_480;

// A packet and its count in the bytes of a folded carrier.
const FOLD: usize = LENGTH + 1;

// A packet of this PID with an empty payload.
fn packet_of(pid: u16) -> [u8; LENGTH] {
    let [high, low] = pid.to_be_bytes();
    let mut packet = [0; LENGTH];
    packet[..4].copy_from_slice(&[0x47, high & 0x1f, low, 0x10]);
    packet
}

fn put_run<C: Carrier>(carrier: &mut C, run: Run) -> Result<(), PutFault> {
    match run {
        Run::Pid(pid) => carrier.put(&packet_of(pid)),
        Run::Stuffing(times) => {
            for _ in 0..times {
                carrier.put(&stuffing())?;
            }
            Ok(())
        }
    }
}

fn put_runs<C: Carrier>(carrier: &mut C) -> Result<(), PutFault> {
    for run in RUNS {
        put_run(carrier, run)?;
    }
    Ok(())
}

fn pid_of(packet: &[u8]) -> anyhow::Result<u16> {
    let head = Head::of(packet).context("what is held is no packet")?;
    Ok(head.pid)
}

// Prints the places and the packets that a carrier holds, stuffing in a row on one line.
fn show<C: Carrier>(rt: &HostRuntime, name: &str, carrier: &C, used: usize) -> anyhow::Result<()> {
    let held = carrier.held();
    let free = carrier.free();
    let capacity = carrier.capacity();
    println!(rt; "{name}: {held} packets in {used} bytes, {free} of {capacity} places free")?;
    let mut place = [0; LENGTH];
    let mut in_a_row = 0usize;
    // A carrier lends no packets: each is copied into a place, by its number.
    for i in 0..held {
        carrier
            .read(i, &mut place)
            .context("a packet that is held was not read")?;
        if is_stuffing(&place) {
            in_a_row = in_a_row.saturating_add(1);
        } else {
            show_stuffing(rt, mem::take(&mut in_a_row))?;
            println!(rt; "  PID {}", pid_of(&place)?)?;
        }
    }
    show_stuffing(rt, in_a_row)
}

fn show_stuffing(rt: &HostRuntime, times: usize) -> anyhow::Result<()> {
    if times > 0 {
        println!(rt; "  stuffing {times} times")?;
    }
    Ok(())
}

// Prints the bytes of a folded carrier, a line for each packet that was kept.
fn show_folds(rt: &HostRuntime, folded: &Folded) -> anyhow::Result<()> {
    println!(rt; "its bytes:")?;
    let (folds, _) = folded.bytes().as_chunks::<FOLD>();
    for fold in folds {
        let (packet, count) = (&fold[..LENGTH], fold[LENGTH]);
        println!(rt; "  PID {}, count {count}", pid_of(packet)?)?;
    }
    println!(rt; "  and {} pending", folded.pending())?;
    Ok(())
}

fn demonstrate(rt: &HostRuntime) -> anyhow::Result<()> {
    let mut strip = Strip::new(vec![in rt.alloc(); 0; BYTES]?);
    let mut folded = Folded::new(vec![in rt.alloc(); 0; BYTES]?);
    put_runs(&mut strip)?;
    put_runs(&mut folded)?;
    show(rt, "strip", &strip, strip.bytes().len())?;
    show(rt, "folded carrier", &folded, folded.bytes().len())?;
    show_folds(rt, &folded)
}

fn main(rt: HostRuntime) -> anyhow::Result<()> {
    demonstrate(&rt)
}
