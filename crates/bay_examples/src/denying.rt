//! What bays deny.
use crate::deciding::told;
use crate::in_hand::{accepted, clear_denied, decide_denied, decided, take_denied};
use crate::lines::say;
use bay_calls::{Bay, Denial, Refused};
use samples::{Complex, Sample};
use std::io;

const ZERO: Complex = Complex { re: 0, im: 0 };

/// What a shut bay answers.
pub(crate) fn say_shut(rt: &HostRuntime) -> io::Result<()> {
    let mut sums = [ZERO; 8];
    let mut bay = Bay::open(4, &mut sums);
    say(rt, "degree 4, take", bay.take(&[ZERO; 8]))?;
    say(rt, "degree 4, decide", told(&mut bay, &mut [ZERO; 8]))?;
    say(rt, "degree 4, clear", bay.clear())
}

/// Lengths that do not fit, and nothing held.
pub(crate) fn say_lengths(rt: &HostRuntime) -> io::Result<()> {
    let mut sums = [ZERO; 8];
    let mut bay = Bay::open(3, &mut sums);
    say(rt, "seven samples, take", bay.take(&[ZERO; 7]))?;
    let name = "nothing held, decide";
    say(rt, name, told(&mut bay, &mut [ZERO; 8]))?;
    say(rt, "eight samples, take", bay.take(&[ZERO; 8]))?;
    let name = "work memory of seven, decide";
    say(rt, name, told(&mut bay, &mut [ZERO; 7]))
}

/// What take, decide and clear answer while a verdict is out, and the verdict's message once it is accepted.
#[derive(Clone, Copy)]
struct WhileOut {
    take: Denial,
    decide: Denial,
    clear: Denial,
    message: u32,
}

fn while_out<S: Sample>(
    bay: &mut Bay<S>,
    reception: &[S],
    work: &mut [S],
) -> Result<WhileOut, Denial> {
    let verdict = decided(bay, work)?;
    let take = take_denied(bay, reception, &verdict);
    let decide = decide_denied(bay, work, &verdict);
    let clear = clear_denied(bay, &verdict);
    let message = accepted(bay, verdict);
    Ok(WhileOut {
        take,
        decide,
        clear,
        message,
    })
}

pub(crate) fn say_while_out(rt: &HostRuntime) -> io::Result<()> {
    let mut sums = [ZERO; 8];
    let mut bay = Bay::open(3, &mut sums);
    let _ = bay.take(&[Complex { re: 0, im: 1 }; 8]);
    match while_out(&mut bay, &[ZERO; 8], &mut [ZERO; 8]) {
        Ok(
            WhileOut {
                take,
                decide,
                clear,
                message,
            },
        ) => println!(rt;
            "a verdict is out: take {take}, decide {decide}, clear {clear}; then it is accepted: message {message}"
        ),
        Err(denial) => println!(rt; "a verdict is out: {denial}"),
    }
}

/// What another bay answers to a verdict, if it does not take it, and the message once it is accepted at its own.
fn handed_on<S: Sample>(
    own: &mut Bay<S>,
    other: &mut Bay<S>,
    work: &mut [S],
) -> Result<(Option<Denial>, u32), Denial> {
    let verdict = decided(own, work)?;
    match other.accept(verdict) {
        Ok(message) => Ok((None, message)),
        Err(Refused { why, verdict }) => Ok((Some(why), accepted(own, verdict))),
    }
}

pub(crate) fn say_handed_on(rt: &HostRuntime) -> io::Result<()> {
    let mut sums = [ZERO; 8];
    let mut other_sums = [ZERO; 8];
    let mut own = Bay::open(3, &mut sums);
    let mut other = Bay::open(3, &mut other_sums);
    let _ = own.take(&[Complex { re: 0, im: 1 }; 8]);
    match handed_on(&mut own, &mut other, &mut [ZERO; 8]) {
        Ok((Some(why), message)) => println!(rt;
            "handed to another bay: {why}; back in hand and accepted at its own: message {message}"
        ),
        Ok((None, message)) => println!(rt; "handed to another bay: taken, message {message}"),
        Err(denial) => println!(rt; "handed to another bay: {denial}"),
    }
}
