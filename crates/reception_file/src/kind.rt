//! The kinds of samples that a file can hold.
ghost use Rattle.std.specs.Prelude.{◌≡◌};
ghost use Rattle.reception_file.specs.Layout.{parts_of};
ghost use Rattle.reception_file.specs.Numbers.{kind_number, ReadsKind};

use crate::refusal::Refusal;

/// The kind of a file's samples, with its number in the file.
#[derive(Clone, Copy, PartialEq, Eq, Debug)]
pub enum Kind {
    Complex = 1,
    Phase = 2,
}

impl Kind {
    /// How many parts a sample of this kind has.
    pub fn parts(self) -> usize
        ensures { result ≡ parts_of (kind_number self) }
    {
        match self {
            Kind::Complex => 2,
            Kind::Phase => 4,
        }
    }
}

impl TryFrom<u8> for Kind {
    type Error = Refusal;

    ghost try_from_gives = { ReadsKind };

    fn try_from(number: u8) -> Result<Self, Refusal> {
        match number {
            1 => Ok(Kind::Complex),
            2 => Ok(Kind::Phase),
            _ => Err(Refusal::Kind),
        }
    }
}

impl From<Kind> for u8 {
    ghost from_gives = { λ kind number. number ≡ kind_number kind };

    fn from(kind: Kind) -> u8 {
        kind as u8
    }
}
