//! What stands in the first eight bytes of a file.
ghost use Rattle.reception_file.specs.Layout.{GoodCount};

use crate::degree::Degree;
use crate::kind::Kind;
use crate::refusal::Refusal;

/// The kind, the degree and the count of receptions of a file.
#[derive(Clone, Copy, PartialEq, Eq, Debug)]
pub struct Head {
    pub kind: Kind,
    pub degree: Degree,
    pub count: u8,
    pub ghost counted: { GoodCount count },
}

impl Head {
    ghost use Rattle.std.specs.Prelude.{◌≡◌, ◌≤◌};
    ghost use Rattle.reception_file.specs.Layout.{samples_of, head_bytes};
    ghost use Rattle.reception_file.specs.Numbers.{kind_number, degree_number};
    ghost use Rattle.reception_file.specs.Head.{Makes, total_in, size_in};

    /// The head of a file with this degree and this count, if there is one.
    pub(crate) fn new(kind: Kind, degree: u8, count: u8) -> Result<Head, Refusal>
        ensures { Makes kind degree count result }
    {
        let degree = Degree::try_from(degree)?;
        match count {
            1..=16 => Ok(Head {
                kind,
                degree,
                count,
            }),
            _ => Err(Refusal::Count),
        }
    }

    /// How many samples each reception has.
    pub fn samples(self) -> usize
        ensures is { result ≡ samples_of (degree_number self.degree) }
        ensures most { result ≤ 128 }
    {
        self.degree.samples()
    }

    /// How many parts all receptions have.
    pub(crate) fn parts(self) -> usize
        ensures is { result ≡ total_in self }
        ensures bound { result ≤ 8192 }
    {
        usize::from(self.count) * self.samples() * self.kind.parts()
    }

    /// How many bytes the file has.
    pub fn size(self) -> usize
        ensures { result ≡ size_in self }
    {
        8 + 2 * self.parts()
    }

    /// The first eight bytes of the file.
    pub(crate) fn to_bytes(self) -> [u8; 8]
        ensures { result ≡ head_bytes (kind_number self.kind) (degree_number self.degree) self.count }
    {
        [
            0x4B,
            0x57,
            0x52,
            0,
            1,
            self.kind.into(),
            self.degree.into(),
            self.count,
        ]
    }
}
