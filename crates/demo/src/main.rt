#![tactic(auto)]

use addresses::{agreeing, from_bytes, to_bytes};
use booter::Booter;
use cryptmt::WideCover;
use fault::Fault;
use handover::Handover;
use mother::Mother;
use record::{BEFORE, FILLER, Piece, Record};
use trace::TRACE;

mod addresses;
mod fault;
mod record;
mod report;
mod trace;

const KEY: [u8; 16] = [0, 1, 2, 3, 4, 5, 6, 7, 8, 9, 10, 11, 12, 13, 14, 15];

const IV: [u8; 16] = [15, 14, 13, 12, 11, 10, 9, 8, 7, 6, 5, 4, 3, 2, 1, 0];

// The pieces in which the trace is covered after the filler.
const AFTER: [usize; 2] = [50, 73];

// The pieces in which the record is uncovered, other than those in which it was covered.
const UNCOVERED: [usize; 3] = [100, 1148, 95];

// Covers the trace piece by piece, with the filler after the first.
fn cover_record(rt: &HostRuntime, cover: &mut WideCover, record: &mut Record) -> Result<(), Fault> {
    cover.set_up(&KEY, &IV)?;
    println!(rt; "set up the wide cover")?;
    report::covered(rt, record.pass(cover, BEFORE)?)?;
    let Piece { first, bytes } = record.pass(cover, FILLER)?;
    let count = bytes.len();
    println!(rt; "covered {count} filler bytes at position {first}")?;
    for count in AFTER {
        report::covered(rt, record.pass(cover, count)?)?;
    }
    Ok(())
}

// Uncovers the record, filler and all.
fn uncover_record(
    rt: &HostRuntime,
    cover: &mut WideCover,
    record: &mut Record,
) -> Result<(), Fault> {
    cover.set_up(&KEY, &IV)?;
    println!(rt; "set up again")?;
    record.rewind();
    for count in UNCOVERED {
        let Piece { first, bytes } = record.pass(cover, count)?;
        let count = bytes.len();
        println!(rt; "uncovered {count} bytes at position {first}")?;
    }
    Ok(())
}

// The whole task: a trace is covered, uncovered and held to what it was.
fn run(rt: &HostRuntime) -> Result<(), Fault> {
    let trace = to_bytes(rt.alloc(), &TRACE)?;
    let addresses = TRACE.len();
    let bytes = trace.len();
    println!(rt; "trace: {addresses} branch addresses, {bytes} bytes")?;
    report::hex_line(rt, "key ", &KEY)?;
    report::hex_line(rt, "iv ", &IV)?;
    let mut cover = WideCover::new(Handover::new(Booter::new()));
    let mut record = Record::new(rt.alloc(), &trace)?;
    cover_record(rt, &mut cover, &mut record)?;
    uncover_record(rt, &mut cover, &mut record)?;
    let trace = record.trace(rt.alloc())?;
    let back = from_bytes(rt.alloc(), &trace)?;
    report::addresses(rt, &back)?;
    report::came_back(rt, agreeing(&TRACE, &back), TRACE.len())?;
    Ok(())
}

fn main(rt: HostRuntime) -> Result<(), Fault> {
    let done = run(&rt);
    if let Err(fault) = &done {
        fault.tell(&rt)?;
    }
    done
}
