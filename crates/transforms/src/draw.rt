//! Samples drawn at random, the same in every run.
use samples::{Complex, Phase, Sample};

/// A kind of which samples can be drawn.
// stays: the verdicts draw small numbers from other bits, one word a sample; here each part has a word of its own, and any 16 bits
pub trait Drawn: Sample {
    /// The sample that a word of random bits gives.
    fn drawn(word: u32) -> Self;
}

// The next word: a linear congruence, whose upper bits look random.
fn next(word: u32) -> u32 {
    word.wrapping_mul(1664525).wrapping_add(1013904223)
}

// The upper half of a word, from -32,768 to 32,767.
fn number(word: u32) -> i32 {
    // stays: the half of a word is below 65,536, so `as` loses nothing, and `try_from` would answer an error that cannot come
    (word / 65536) as i32 - 32768
}

impl Drawn for Complex {
    fn drawn(word: u32) -> Complex {
        Complex {
            re: number(word),
            im: number(next(word)),
        }
    }
}

impl Drawn for Phase {
    fn drawn(word: u32) -> Phase {
        let second = next(word);
        let third = next(second);
        Phase {
            at0: number(word),
            at1: number(second),
            at2: number(third),
            at3: number(next(third)),
        }
    }
}

/// Draws each sample of the list.
pub(crate) fn fill<D: Drawn>(w: &mut [D]) {
    let mut word = 1;
    for x in w.iter_mut() {
        word = next(next(word));
        *x = D::drawn(word);
    }
}
