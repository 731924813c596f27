//! Worked examples on real bays: what they decide, what they deny, and how they go on. That a verdict is answered once only
//! needs no example here: to answer it twice cannot be written.
#![tactic(auto)]

mod deciding;
mod denying;
mod going_on;
mod in_hand;
mod lines;

use std::io;

fn main(rt: HostRuntime) -> io::Result<()> {
    deciding::say_verdicts(&rt)?;
    deciding::say_limits(&rt)?;
    for size in [37, 38, 50, 51] {
        deciding::say_one_more(&rt, size)?;
    }
    denying::say_shut(&rt)?;
    denying::say_lengths(&rt)?;
    denying::say_while_out(&rt)?;
    denying::say_handed_on(&rt)?;
    going_on::say_going_on(&rt)
}
