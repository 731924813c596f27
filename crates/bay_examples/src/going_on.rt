//! How a bay goes on after repeat, drop and clear.
use crate::deciding::told;
use crate::in_hand::{decided, dropped, repeated};
use crate::lines::say;
use bay_calls::{Bay, Denial};
use samples::{Complex, Sample};
use std::io;

// stays: the two below differ in which answer the verdict gets; a closure in its place would have to state what that call asks
/// Decides, and has the verdict repeated: how many stay held.
fn kept<S: Sample>(bay: &mut Bay<S>, work: &mut [S]) -> Result<u8, Denial> {
    let verdict = decided(bay, work)?;
    Ok(repeated(bay, verdict))
}

/// Decides, and has the verdict dropped: how many were let go.
fn let_go<S: Sample>(bay: &mut Bay<S>, work: &mut [S]) -> Result<u8, Denial> {
    let verdict = decided(bay, work)?;
    Ok(dropped(bay, verdict))
}

pub(crate) fn say_going_on(rt: &HostRuntime) -> io::Result<()> {
    let mut sums = [Complex { re: 0, im: 0 }; 8];
    let mut work = sums;
    let mut bay = Bay::open(3, &mut sums);
    let east = [Complex { re: 100, im: 0 }; 8];
    say(rt, "take", bay.take(&east))?;
    say(rt, "decide, repeat", kept(&mut bay, &mut work))?;
    say(rt, "take", bay.take(&east))?;
    say(rt, "decide, accept", told(&mut bay, &mut work))?;
    say(rt, "take", bay.take(&east))?;
    say(rt, "take", bay.take(&east))?;
    say(rt, "decide, drop", let_go(&mut bay, &mut work))?;
    say(rt, "clear", bay.clear())?;
    say(rt, "take", bay.take(&east))?;
    say(rt, "clear", bay.clear())
}
