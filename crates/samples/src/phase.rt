//! The phase kind of samples.
ghost use Rattle.std.specs.Prelude.{◌≡◌};
ghost use Rattle.samples.specs.Meaning.{reads, asked};
ghost use Rattle.samples.specs.PhaseKind.{phase_reading, phase_means, phase_zero, phase_added, phase_turned, phase_front};
ghost use Rattle.samples.specs.PhaseLaws.{phase_laws};

use crate::sample::Sample;

/// A sample of four numbers, one for each symbol.
#[derive(Clone, Copy, PartialEq, Eq, Debug)]
pub struct Phase {
    pub at0: i32,
    pub at1: i32,
    pub at2: i32,
    pub at3: i32,
}

impl Phase {
    /// The reading of a symbol; none above 3.
    pub fn reading(self, symbol: u8) -> Option<i64>
        ensures means { result ≡ asked (reads (phase_means self)) symbol }
        ensures cases { result ≡ asked (phase_reading self) symbol }
    {
        // stays: the readings are a match on the symbol, by the rule of this kind
        match symbol {
            0 => Some(i64::from(self.at0)),
            1 => Some(i64::from(self.at1)),
            2 => Some(i64::from(self.at2)),
            3 => Some(i64::from(self.at3)),
            _ => None,
        }
    }

    /// The sample turned once, as `Sample::turn` does it.
    pub fn turned(self) -> Phase
        ensures { result ≡ phase_turned self }
    {
        self.turn()
    }
}

#[tactic(auto, using(std::proofs::lemmas::Int::wraps))]
impl Sample for Phase {
    ghost means = { phase_means };

    ghost zeroed = { phase_zero };

    ghost added = { phase_added };

    ghost turned = { phase_turned };

    ghost fronted = { phase_front };

    ghost laws = { phase_laws };

    fn zero() -> Phase {
        Phase {
            at0: 0,
            at1: 0,
            at2: 0,
            at3: 0,
        }
    }

    fn add(self, other: Phase) -> Phase {
        Phase {
            at0: self.at0.wrapping_add(other.at0),
            at1: self.at1.wrapping_add(other.at1),
            at2: self.at2.wrapping_add(other.at2),
            at3: self.at3.wrapping_add(other.at3),
        }
    }

    fn turn(self) -> Phase {
        Phase {
            at0: self.at3,
            at1: self.at0,
            at2: self.at1,
            at3: self.at2,
        }
    }

    fn front(self) -> i32 {
        self.at0
    }

    fn size(self) -> u32 {
        let low = self.at0.unsigned_abs().max(self.at1.unsigned_abs());
        let high = self.at2.unsigned_abs().max(self.at3.unsigned_abs());
        low.max(high)
    }
}
