//! The degrees that a file can have.
ghost use Rattle.std.specs.Prelude.{◌≡◌, ◌≤◌};
ghost use Rattle.reception_file.specs.Layout.{samples_of};
ghost use Rattle.reception_file.specs.Numbers.{degree_number, ReadsDegree};

use crate::refusal::Refusal;

/// The degree of a file's receptions, with its number in the file.
#[derive(Clone, Copy, PartialEq, Eq, Debug)]
pub enum Degree {
    Three = 3,
    Five = 5,
    Seven = 7,
}

impl Degree {
    /// How many samples a reception of this degree has: 2 to the degree.
    pub fn samples(self) -> usize
        ensures is { result ≡ samples_of (degree_number self) }
        ensures most { result ≤ 128 }
    {
        // stays: the code, which has the same lengths, stands beside this crate and not below it
        match self {
            Degree::Three => 8,
            Degree::Five => 32,
            Degree::Seven => 128,
        }
    }
}

impl TryFrom<u8> for Degree {
    type Error = Refusal;

    ghost try_from_gives = { ReadsDegree };

    fn try_from(number: u8) -> Result<Self, Refusal> {
        match number {
            3 => Ok(Degree::Three),
            5 => Ok(Degree::Five),
            7 => Ok(Degree::Seven),
            _ => Err(Refusal::Degree),
        }
    }
}

impl From<Degree> for u8 {
    ghost from_gives = { λ degree number. number ≡ degree_number degree };

    fn from(degree: Degree) -> u8 {
        degree as u8
    }
}
