//! How a refusal is told outside, whichever call refuses: by its number, and by the place that it speaks of.
#![tactic(auto)]

ghost use Rattle.std.specs.Prelude.{◌≡◌, Some};
ghost use Rattle.denials.specs.Denied.{told};

use std::fmt;

/// A refusal as it is told: its number, and the place that it speaks of, or 0.
#[derive(Clone, Copy, PartialEq, Eq, Debug)]
pub struct Denied {
    pub number: u8,
    // stays: 0 where there is no place, since it is printed so
    pub place: usize,
}

impl Denied {
    /// A refusal of this number at this place.
    pub fn new(number: u8, place: usize) -> Denied
        ensures number { result.number ≡ number }
        ensures place { result.place ≡ place }
    {
        Denied { number, place }
    }
}

impl fmt::Display for Denied {
    ghost output = { λ d. Some (told d.number d.place) };

    fn fmt<W: fmt::Write>(&self, f: &mut fmt::Formatter<W>) -> fmt::Result {
        let Denied { number, place } = *self;
        write!(f, "denied {number} at {place}")
    }
}
