//! Why a file is refused, and why a call on files is.
ghost use Rattle.std.specs.Prelude.{◌≡◌};
ghost use Rattle.reception_file.specs.Refusals.{number, place};

/// Why a call of this crate was refused.
#[derive(Clone, Copy, PartialEq, Eq, Debug)]
pub enum Refusal {
    /// The memory is not one reception long, or the samples are not as many as the count says.
    Memory,
    /// Fewer than eight bytes: the length.
    Short(usize),
    /// A byte of the mark is wrong: the first such.
    Mark(usize),
    /// The version is not 1.
    Version,
    /// The kind is neither 1 nor 2, or not the one that was asked for.
    Kind,
    /// The degree is none of 3, 5 and 7.
    Degree,
    /// The count is not from 1 to 16.
    Count,
    /// The file is not exactly as long as its head says: the length.
    Length(usize),
    /// A part is outside ±32,767: the place of its first byte, for the first such part.
    Part(usize),
    /// The file has no reception of that number.
    Reception,
    /// There are fewer bytes to write into than the file has.
    Room,
}

impl Refusal {
    /// The number of the refusal.
    pub fn number(self) -> u8
        ensures { result ≡ number self }
    {
        match self {
            // stays: variants hold numbers, so `as` does not give the refusal's
            Refusal::Memory => 3,
            Refusal::Short(_) => 20,
            Refusal::Mark(_) => 21,
            Refusal::Version => 22,
            Refusal::Kind => 23,
            Refusal::Degree => 24,
            Refusal::Count => 25,
            Refusal::Length(_) => 26,
            Refusal::Part(_) => 27,
            Refusal::Reception => 28,
            Refusal::Room => 29,
        }
    }

    /// The byte place that the refusal speaks of, the file's length, or 0.
    pub fn place(self) -> usize
        ensures { result ≡ place self }
    {
        match self {
            Refusal::Short(length) | Refusal::Length(length) => length,
            Refusal::Mark(byte) | Refusal::Part(byte) => byte,
            Refusal::Version => 3,
            Refusal::Kind => 5,
            Refusal::Degree => 6,
            Refusal::Count => 7,
            Refusal::Memory | Refusal::Reception | Refusal::Room => 0,
        }
    }
}
