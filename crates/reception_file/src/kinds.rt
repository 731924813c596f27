//! The two kinds of samples, as files hold them.
ghost use Rattle.reception_file.specs.ComplexParts.{complex_part, complex_put, complex_stored, complex_read, complex_bounded};
ghost use Rattle.reception_file.specs.PhaseParts.{phase_part, phase_put, phase_stored, phase_read, phase_bounded};

use crate::kind::Kind;
use crate::stored::Stored;
use samples::{Complex, Phase};

impl Stored for Complex {
    ghost code = { 1 };

    ghost width = { 2 };

    ghost part = { complex_part };

    ghost put = { complex_put };

    ghost laws = { complex_stored };

    ghost reading = { complex_read };

    ghost bounded = { complex_bounded };

    fn kind() -> Kind {
        Kind::Complex
    }

    fn part_of(self, number: usize) -> i32 {
        match number {
            0 => self.re,
            _ => self.im,
        }
    }

    fn with_part(mut self, number: usize, value: i32) -> Complex {
        match number {
            0 => self.re = value,
            _ => self.im = value,
        }
        self
    }
}

impl Stored for Phase {
    ghost code = { 2 };

    ghost width = { 4 };

    ghost part = { phase_part };

    ghost put = { phase_put };

    ghost laws = { phase_stored };

    ghost reading = { phase_read };

    ghost bounded = { phase_bounded };

    fn kind() -> Kind {
        Kind::Phase
    }

    fn part_of(self, number: usize) -> i32 {
        match number {
            0 => self.at0,
            1 => self.at1,
            2 => self.at2,
            _ => self.at3,
        }
    }

    fn with_part(mut self, number: usize, value: i32) -> Phase {
        match number {
            0 => self.at0 = value,
            1 => self.at1 = value,
            2 => self.at2 = value,
            _ => self.at3 = value,
        }
        self
    }
}
