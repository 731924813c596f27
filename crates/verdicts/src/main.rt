//! Runs the search on named sums and on sums drawn at random, and compares it with the definition worked out message by message.
#![tactic(auto)]

mod definition;
mod draws;

use decoder::search::{Leader, search};
use draws::{Drawn, agreeing};
use kerdock::books::{CodeBook, make_book};
use samples::{Complex, Phase, Sample};

// One search with a book of the degree.
fn decided<S: Sample>(degree: u8, sums: &[S], work: &mut [S]) -> Option<Leader> {
    let mut book = CodeBook::blank();
    make_book(degree, &mut book).ok()?;
    search(degree, &book, sums, work)
}

fn report<S: Sample, const N: usize>(
    rt: &HostRuntime,
    name: &str,
    degree: u8,
    sums: [S; N],
) -> anyhow::Result<()> {
    match decided(degree, &sums, &mut [S::zero(); N]) {
        Some(leader) => println!(rt; "{name}: {leader}")?,
        None => println!(rt; "{name}: the lengths do not fit")?,
    }
    Ok(())
}

fn report_complex(rt: &HostRuntime) -> anyhow::Result<()> {
    let east = Complex { re: 100, im: 0 };
    report(rt, "eight (100, 0)", 3, [east; 8])?;
    report(rt, "eight (0, 100)", 3, [Complex { re: 0, im: 100 }; 8])?;
    let mut loud = [east; 8];
    loud[0] = Complex { re: 0, im: 1000 };
    report(rt, "(0, 1000) and seven (100, 0)", 3, loud)?;
    report(rt, "eight (0, 0)", 3, [Complex { re: 0, im: 0 }; 8])?;
    let both = Complex { re: 100, im: 101 };
    report(rt, "eight (100, 0) and eight (0, 101), added", 3, [both; 8])?;
    report(rt, "eight where 32 are due", 5, [both; 8])?;
    report(rt, "32 of (10, 0)", 5, [Complex { re: 10, im: 0 }; 32])?;
    let most = Complex { re: 524272, im: 0 };
    report(rt, "128 of sixteen times (32767, 0)", 7, [most; 128])
}

fn report_phase(rt: &HostRuntime) -> anyhow::Result<()> {
    let soft = Phase {
        at0: 0,
        at1: -1,
        at2: -2,
        at3: -1,
    };
    report(rt, "eight phase (0, -1, -2, -1)", 3, [soft; 8])
}

fn report_agreement<S: Drawn, const N: usize>(
    rt: &HostRuntime,
    kind: &str,
    degree: u8,
    runs: u32,
    sums: [S; N],
) -> anyhow::Result<()> {
    let count = agreeing(degree, runs, sums);
    println!(rt; "{kind}, degree {degree}: {count} of {runs} agree with the definition")?;
    Ok(())
}

fn main(rt: HostRuntime) -> anyhow::Result<()> {
    report_complex(&rt)?;
    report_phase(&rt)?;
    report_agreement(&rt, "complex", 3, 400, [Complex::zero(); 8])?;
    report_agreement(&rt, "phase", 3, 400, [Phase::zero(); 8])?;
    report_agreement(&rt, "complex", 5, 20, [Complex::zero(); 32])?;
    report_agreement(&rt, "phase", 5, 20, [Phase::zero(); 32])?;
    report_agreement(&rt, "complex", 7, 2, [Complex::zero(); 128])
}
