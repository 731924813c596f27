//! Sums drawn at random, on which the search is compared with the definition.
ghost use Rattle.std.specs.Prelude.{◌≡◌};
ghost use Rattle.samples.specs.Meaning.{reads, asked};

use crate::decided;
use crate::definition::by_definition;
use samples::{Complex, Phase, Sample};

/// A kind of samples that is read by its symbols, and drawn from random bits.
// stays: the transforms draw loud samples, each number from a word of its own; here they are small, so that scores are often equal
pub(crate) trait Drawn: Sample {
    /// The reading of a symbol as the kind itself has it, by none of the steps by which the search reads a sample.
    fn read(self, symbol: u8) -> Option<i64>
        ensures { result ≡ asked (reads (Self.Sample.means self)) symbol };

    /// The sample that a word of random bits gives.
    fn drawn(word: u32) -> Self;
}

// From -8 to 7: few enough that equal scores come often.
fn small(word: u32) -> i32 {
    // stays: what is cast is below 16, so `as` loses nothing, and `try_from` would answer an error that cannot come
    (word % 16) as i32 - 8
}

impl Drawn for Complex {
    fn read(self, symbol: u8) -> Option<i64> {
        Complex::reading(self, symbol)
    }

    fn drawn(word: u32) -> Complex {
        Complex {
            re: small(word >> 8),
            im: small(word >> 16),
        }
    }
}

impl Drawn for Phase {
    fn read(self, symbol: u8) -> Option<i64> {
        Phase::reading(self, symbol)
    }

    fn drawn(word: u32) -> Phase {
        Phase {
            at0: small(word >> 8),
            at1: small(word >> 13),
            at2: small(word >> 18),
            at3: small(word >> 23),
        }
    }
}

// Random words, each made from the one before.
#[derive(Drop)]
struct Draws(u32);

impl Draws {
    fn fill<S: Drawn>(&mut self, sums: &mut [S]) {
        for x in sums.iter_mut() {
            self.0 = self.0.wrapping_mul(1_664_525).wrapping_add(1_013_904_223);
            *x = S::drawn(self.0);
        }
    }
}

/// On how many sums, drawn at random into the memory given, the search answers what the definition gives.
pub(crate) fn agreeing<S: Drawn, const N: usize>(degree: u8, runs: u32, mut sums: [S; N]) -> u32 {
    let mut draws = Draws(1);
    let mut work = sums;
    // stays: a tally of draws that follow on one another, which `filter` and `count` would hide
    let mut count = 0;
    for _ in 0..runs {
        draws.fill(&mut sums);
        let found = decided(degree, &sums, &mut work);
        if found.is_some() && found == by_definition(degree, &sums) {
            count += 1;
        }
    }
    count
}
