//! The complex kind of samples.
ghost use Rattle.std.specs.Prelude.{◌≡◌};
ghost use Rattle.samples.specs.Meaning.{reads, asked};
ghost use Rattle.samples.specs.ComplexKind.{complex_reading, complex_means, complex_zero, complex_added, complex_turned, complex_front};
ghost use Rattle.samples.specs.ComplexLaws.{complex_laws};

use crate::sample::Sample;

/// A sample of two numbers: symbol 0 reads `re`, 1 `im`, 2 and 3 their opposites.
#[derive(Clone, Copy, PartialEq, Eq, Debug)]
pub struct Complex {
    pub re: i32,
    pub im: i32,
}

impl Complex {
    /// The reading of a symbol; none above 3. An `i64`, since the opposite of an `i32` may not fit one.
    pub fn reading(self, symbol: u8) -> Option<i64>
        ensures means { result ≡ asked (reads (complex_means self)) symbol }
        ensures cases { result ≡ asked (complex_reading self) symbol }
    {
        // stays: the readings are a match on the symbol, by the rule of this kind
        match symbol {
            0 => Some(i64::from(self.re)),
            1 => Some(i64::from(self.im)),
            2 => Some(-i64::from(self.re)),
            3 => Some(-i64::from(self.im)),
            _ => None,
        }
    }

    /// The sample turned once, as `Sample::turn` does it.
    pub fn turned(self) -> Complex
        ensures { result ≡ complex_turned self }
    {
        self.turn()
    }
}

#[tactic(auto, using(std::proofs::lemmas::Int::wraps))]
impl Sample for Complex {
    ghost means = { complex_means };

    ghost zeroed = { complex_zero };

    ghost added = { complex_added };

    ghost turned = { complex_turned };

    ghost fronted = { complex_front };

    ghost laws = { complex_laws };

    fn zero() -> Complex {
        Complex { re: 0, im: 0 }
    }

    fn add(self, other: Complex) -> Complex {
        Complex {
            re: self.re.wrapping_add(other.re),
            im: self.im.wrapping_add(other.im),
        }
    }

    fn turn(self) -> Complex {
        let Complex { re, im } = self;
        Complex {
            re: im.wrapping_neg(),
            im: re,
        }
    }

    fn front(self) -> i32 {
        self.re
    }

    fn size(self) -> u32 {
        let re = self.re.unsigned_abs();
        re.max(self.im.unsigned_abs())
    }
}
