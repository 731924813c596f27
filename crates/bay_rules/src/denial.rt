//! What a bay denies.
ghost use Rattle.std.specs.Prelude.{◌≡◌};
ghost use Rattle.bay_rules.specs.Denials.{number, place};

/// Why a dealing was denied.
#[derive(Clone, Copy, PartialEq, Eq, Debug)]
pub enum Denial {
    /// The bay is shut.
    Shut,
    /// A verdict is out.
    VerdictOut,
    /// The reception does not have one sample for each index.
    Length,
    /// A sample's size is above 32,767: the first such index.
    TooLarge(usize),
    /// Sixteen receptions are held.
    Full,
    /// Nothing is held.
    NothingHeld,
    /// The work memory does not have one sample for each index.
    Work,
    /// The verdict is not the one that is out.
    Misfit,
}

impl Denial {
    /// The number of the denial.
    pub fn number(self) -> u8
        ensures { result ≡ number self }
    {
        // stays: a variant holds an index, so `as` does not give the number
        match self {
            Denial::Shut => 1,
            Denial::VerdictOut => 2,
            Denial::Length => 3,
            Denial::TooLarge(_) => 4,
            Denial::Full => 5,
            Denial::NothingHeld => 6,
            Denial::Work => 7,
            Denial::Misfit => 8,
        }
    }

    /// The index that the denial speaks of, or 0.
    pub fn place(self) -> usize
        ensures { result ≡ place self }
    {
        match self {
            Denial::TooLarge(index) => index,
            Denial::Shut
            | Denial::VerdictOut
            | Denial::Length
            | Denial::Full
            | Denial::NothingHeld
            | Denial::Work
            | Denial::Misfit => 0,
        }
    }
}
