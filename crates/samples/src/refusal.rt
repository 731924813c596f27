//! What a transform refuses.
ghost use Rattle.std.specs.Prelude.{◌≡◌};
ghost use Rattle.samples.specs.Refusals.{number, place};

/// Why a transform was not made.
#[derive(Clone, Copy, PartialEq, Eq, Debug)]
pub enum Refusal {
    /// The length is none of 8, 32 and 128; of `transform_sized`, it is not 2 to the degree, or the degree is above 7.
    Length,
    /// The first index whose sample is too large.
    Size(usize),
}

impl Refusal {
    /// The number of the refusal.
    pub fn number(self) -> u8
        ensures { result ≡ number self }
    {
        match self {
            // stays: a variant holds an index, so `as` does not give the number
            Refusal::Length => 14,
            Refusal::Size(_) => 15,
        }
    }

    /// The index that the refusal speaks of, or 0.
    pub fn place(self) -> usize
        ensures { result ≡ place self }
    {
        match self {
            Refusal::Length => 0,
            Refusal::Size(index) => index,
        }
    }
}
