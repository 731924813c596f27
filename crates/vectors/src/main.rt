//! Tries the decoder on cases from standard input, one a line: the bytes of a reception file in hexadecimal, a tab, and the
//! line that is due. Prints a line for each case that comes out otherwise, and counts the cases at the end.
#![tactic(auto)]

mod hexadecimal;

use hexadecimal::bytes_of;
use std::alloc::Global;
use std::io::{BufRead, BufReader};

/// Prints what came of a case in place of what was due.
fn say(rt: &HostRuntime, number: u32, due: &str, came: &str) -> anyhow::Result<()> {
    println!(rt; "line {number}: due: {due}; came: {came}")?;
    Ok(())
}

/// Whether the case comes out as is due; prints how it does not.
fn agrees(rt: &HostRuntime, heap: Global, number: u32, line: &str) -> anyhow::Result<bool> {
    let mut parts = line.split('\t');
    let (Some(written), Some(due), None) = (parts.next(), parts.next(), parts.next()) else {
        println!(rt; "line {number}: not two parts")?;
        return Ok(false);
    };
    let Some(bytes) = bytes_of(written.as_bytes(), heap)? else {
        println!(rt; "line {number}: not pairs of hexadecimal digits")?;
        return Ok(false);
    };
    let came = gateway::line(bytes.as_slice(), heap)?;
    if came.as_str() == due {
        return Ok(true);
    }
    say(rt, number, due, came.as_str())?;
    Ok(false)
}

fn run(rt: &HostRuntime) -> anyhow::Result<()> {
    let heap = rt.alloc();
    // stays: counted by hand, since a number from `enumerate` would need a bound of the lines, and none is known
    let mut cases: u32 = 0;
    let mut agree: u32 = 0;
    for line in BufReader::new(heap, rt.stdin())?.lines(heap) {
        cases = cases.saturating_add(1);
        if agrees(rt, heap, cases, line?.as_str())? {
            agree = agree.saturating_add(1);
        }
    }
    println!(rt; "{cases} cases, {agree} agree")?;
    Ok(())
}

fn main(rt: HostRuntime) -> anyhow::Result<()> {
    run(&rt)
}
