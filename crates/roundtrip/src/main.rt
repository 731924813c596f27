//! Messages through the code and back: every message of degrees 3 and 5 and a spread of degree 7 is encoded and read back,
//! each word is damaged at one index and must be refused, and a report is printed.
#![tactic(auto)]

ghost use Rattle.std.specs.Prelude.{◌+◌, ◌<◌};

use kerdock::books::{CodeBook, make_book};
use kerdock::coding::encode;
use kerdock::messages::add_messages;
use kerdock::reading::read_back;
use kerdock::refusals::Refusal;
use std::fmt::{Debug, Display};

// What came of a run over many messages.
#[derive(Clone, Copy, Default)]
struct Tally {
    encoded: u64,
    read_back: u64,
    refused: u64,
}

impl Tally {
    ghost use Rattle.roundtrip.specs.Tallies.{IsAtMost};

    // One message: encoded, read back, then damaged at one index and read back again.
    fn carry(&mut self, degree: u8, message: u32, word: &mut [u8])
        requires { IsAtMost message self.old }
        ensures { IsAtMost (message + 1) self.new }
    {
        if encode(degree, message, word).is_err() {
            return;
        }
        self.encoded += 1;
        if read_back(degree, word) == Ok(message) {
            self.read_back += 1;
        }
        if word.is_empty() {
            return;
        }
        // stays: `as` is proved to lose nothing, and `usize::try_from(message).unwrap()` says the same at more length
        let index = message as usize % word.len();
        word[index] = (word[index] & 3) ^ 1;
        if read_back(degree, word) == Err(Refusal::NoWord) {
            self.refused += 1;
        }
    }
}

// Every message of a degree from 0 on, `step` apart.
fn sweep(degree: u8, messages: u32, step: usize, word: &mut [u8]) -> Tally
    requires { 0 < step }
{
    let mut tally = Tally::default();
    for message in (0..messages).step_by(step) {
        tally.carry(degree, message, word);
    }
    tally
}

fn report_sweep(rt: &HostRuntime, degree: u8, tally: Tally) -> anyhow::Result<()> {
    let Tally {
        encoded,
        read_back,
        refused,
    } = tally;
    println!(rt;
        "degree {degree}: {encoded} messages encoded, {read_back} read back, {refused} damaged words refused"
    )?;
    Ok(())
}

fn report_sweeps(rt: &HostRuntime) -> anyhow::Result<()> {
    report_sweep(rt, 3, sweep(3, 256, 1, &mut [0; 8]))?;
    report_sweep(rt, 5, sweep(5, 4096, 1, &mut [0; 32]))?;
    report_sweep(rt, 7, sweep(7, 65536, 7, &mut [0; 128]))
}

fn report_book(rt: &HostRuntime) -> anyhow::Result<()> {
    let mut book = CodeBook::blank();
    match make_book(3, &mut book) {
        Ok(()) => {
            let traces = &book.traces[..7];
            let places = &book.places[..8];
            println!(rt; "degree 3: traces {traces:?}, places {places:?}")?;
        }
        Err(refusal) => println!(rt; "degree 3: {refusal}")?,
    }
    match make_book(4, &mut book) {
        Ok(()) => println!(rt; "degree 4: made")?,
        Err(refusal) => println!(rt; "degree 4: {refusal}")?,
    }
    Ok(())
}

// A line with what was asked, and what is answered after the words that name it, or the refusal.
fn say<T: Debug + Drop>(
    rt: &HostRuntime,
    asked: &impl Display,
    named: &str,
    answer: Result<T, Refusal>,
) -> anyhow::Result<()> {
    match answer {
        Ok(told) => println!(rt; "{asked}: {named}{told:?}")?,
        Err(refusal) => println!(rt; "{asked}: {refusal}")?,
    }
    Ok(())
}

fn report_word(rt: &HostRuntime, degree: u8, message: u32, word: &mut [u8]) -> anyhow::Result<()> {
    let asked = format_args!("degree {degree}, message {message}");
    say(rt, &asked, "", encode(degree, message, word).map(|()| word))
}

fn report_reading(rt: &HostRuntime, degree: u8, list: &[u8]) -> anyhow::Result<()> {
    let asked = format_args!("degree {degree}, {list:?}");
    say(rt, &asked, "message ", read_back(degree, list))
}

fn report_sum(rt: &HostRuntime, degree: u8, first: u32, second: u32) -> anyhow::Result<()> {
    let asked = format_args!("degree {degree}, message {first} plus {second}");
    say(rt, &asked, "message ", add_messages(degree, first, second))
}

fn main(rt: HostRuntime) -> anyhow::Result<()> {
    report_book(&rt)?;
    let mut memory = [0u8; 8];
    report_word(&rt, 3, 13, &mut memory)?;
    report_word(&rt, 3, 255, &mut memory)?;
    report_word(&rt, 3, 256, &mut memory)?;
    report_word(&rt, 5, 1, &mut memory)?;
    report_reading(&rt, 3, &[1, 2, 3, 3, 0, 3, 0, 0])?;
    report_reading(&rt, 3, &[0, 1, 0, 0, 1, 0, 1, 1])?;
    report_reading(&rt, 3, &[0, 1, 0, 0, 4, 0, 9, 1])?;
    report_reading(&rt, 7, &[0, 1])?;
    report_sum(&rt, 3, 13, 7)?;
    report_sum(&rt, 3, 13, 256)?;
    report_sweeps(&rt)
}

#[cfg(test)]
mod tests {
    use super::*;

    #[test]
    fn last_message_is_encoded_and_the_next_refused(rt: HostRuntime) {
        let mut word = [0u8; 8];
        assert_eq!(rt; encode(3, 255, &mut word), Ok(()));
        assert_eq!(rt; read_back(3, &word), Ok(255));
        assert_eq!(rt; encode(3, 256, &mut word), Err(Refusal::Message));
        assert_eq!(rt;
            read_back(3, &word),
            Ok(255),
            "a refused call writes nothing"
        );
    }

    #[test]
    fn a_word_modulo_2_is_no_word(rt: HostRuntime) {
        assert_eq!(rt;
            read_back(3, &[0, 1, 0, 0, 1, 0, 1, 1]),
            Err(Refusal::NoWord)
        );
        assert_eq!(rt;
            read_back(3, &[0, 1, 0, 0, 4, 0, 9, 1]),
            Err(Refusal::Symbol(4))
        );
    }

    #[test]
    fn refusals_come_in_their_order(rt: HostRuntime) {
        let mut word = [0u8; 9];
        assert_eq!(rt; encode(4, 256, &mut word), Err(Refusal::Degree));
        assert_eq!(rt; encode(3, 256, &mut word), Err(Refusal::Message));
        assert_eq!(rt; encode(3, 255, &mut word), Err(Refusal::Memory));
    }
}
