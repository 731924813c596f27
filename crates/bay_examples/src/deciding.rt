//! What bays decide over receptions.
use crate::in_hand::{accepted, decided};
use crate::lines::say;
use bay_calls::{Bay, Denial, Numbers};
use samples::{Complex, Phase, Sample};
use std::io;

/// What the bay decides; its verdict is accepted.
pub(crate) fn told<S: Sample>(bay: &mut Bay<S>, work: &mut [S]) -> Result<Numbers, Denial> {
    let verdict = decided(bay, work)?;
    let numbers = verdict.numbers();
    let _message = accepted(bay, verdict);
    Ok(numbers)
}

/// What a bay of its own decides over receptions.
fn over<S: Sample, const N: usize>(degree: u8, receptions: &[[S; N]]) -> Result<Numbers, Denial> {
    let mut sums = [S::zero(); N];
    let mut work = [S::zero(); N];
    let mut bay = Bay::open(degree, &mut sums);
    for reception in receptions {
        let _held = bay.take(reception)?;
    }
    told(&mut bay, &mut work)
}

const fn at(re: i32, im: i32) -> Complex {
    Complex { re, im }
}

/// Verdicts of each degree and of both kinds.
pub(crate) fn say_verdicts(rt: &HostRuntime) -> io::Result<()> {
    let east = at(100, 0);
    let name = "eight (100, 0)";
    say(rt, name, over(3, &[[east; 8]]))?;
    let name = "eight (100, 0), then eight (0, 101)";
    say(rt, name, over(3, &[[east; 8], [at(0, 101); 8]]))?;
    let mut loud = [east; 8];
    loud[0] = at(0, 1000);
    let name = "(0, 1000) and seven (100, 0)";
    say(rt, name, over(3, &[loud]))?;
    let zero_likely = Phase {
        at0: 0,
        at1: -1,
        at2: -2,
        at3: -1,
    };
    let name = "eight phase (0, -1, -2, -1)";
    say(rt, name, over(3, &[[zero_likely; 8]]))?;
    say(rt, "32 of (10, 0)", over(5, &[[at(10, 0); 32]]))
}

/// The limits: how many receptions are held, and how large a part may be.
pub(crate) fn say_limits(rt: &HostRuntime) -> io::Result<()> {
    let most = [at(32767, 0); 128];
    let name = "sixteen times 128 of (32767, 0)";
    say(rt, name, over(7, &[most; 16]))?;
    let name = "seventeen times 128 of (32767, 0)";
    say(rt, name, over(7, &[most; 17]))?;
    for part in [32767, 32768, -32767, -32768] {
        let mut reception = [at(0, 0); 8];
        reception[3] = at(part, 0);
        print!(rt; "a part of {part} at index 3")?;
        say(rt, "", over(3, &[reception]))?;
    }
    Ok(())
}

/// Eight (100, 0) have margin 600. One more reception of size s moves a margin by at most 2 * 8 * s, and a margin above
/// that keeps its message. Eight (-s, s) lowers this one.
pub(crate) fn say_one_more(rt: &HostRuntime, size: u8) -> io::Result<()> {
    let bound = 2 * 8 * u32::from(size);
    let part = i32::from(size);
    print!(rt; "eight (100, 0), then eight (-{size}, {size}), at most {bound} lower")?;
    let receptions = [[at(100, 0); 8], [at(-part, part); 8]];
    say(rt, "", over(3, &receptions))
}
