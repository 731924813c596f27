//! Runs the transform at every length, for both kinds, and compares it with its definition.
#![tactic(auto)]

ghost use Rattle.std.specs.Prelude.{◌≤◌, length};

mod definition;
mod draw;

use definition::defined;
use draw::{Drawn, fill};
use samples::{Complex, Phase, Sample, transform};
use std::io;
use std::io::Print;

// The lengths that have a transform.
const LENGTHS: [usize; 3] = [8, 32, 128];

// At how many places the transform of drawn samples is what the definition gives. Both lists are drawn alike, and
// one of them is transformed.
fn agreeing<D: Drawn + PartialEq>(old: &mut [D], new: &mut [D]) -> usize
    ensures { result ≤ length new.old }
{
    fill(old);
    fill(new);
    if transform(new).is_err() {
        return 0;
    }
    new.iter()
        .enumerate()
        .filter(|(v, x)| **x == defined(old, *v))
        .count()
}

// A line for each length, over lists as long as the longest.
fn lines<D: Drawn + PartialEq>(rt: &impl Print, name: &str, mut old: [D; 128]) -> io::Result<()> {
    let mut new = old;
    for n in LENGTHS {
        let places = agreeing(&mut old[..n], &mut new[..n]);
        println!(rt; "{name} {n}: {places} places agree")?;
    }
    Ok(())
}

fn main(rt: HostRuntime) -> io::Result<()> {
    lines(&rt, "complex", [Complex::zero(); 128])?;
    lines(&rt, "phase", [Phase::zero(); 128])
}
