//! What a kind of samples adds so that a file can hold it.
ghost use Rattle.std.specs.Prelude.{◌≡◌, ℕ, ◌<◌, ◌≤◌, ℤ, unsigned_abs};
ghost use Rattle.samples.specs.Meaning.{reads};
ghost use Rattle.reception_file.specs.Numbers.{kind_number};
ghost use Rattle.reception_file.specs.StoredKind.{StoredLaws};

use crate::kind::Kind;
use samples::Sample;

/// A kind of samples that a file can hold: each sample is so many parts.
pub trait Stored: Sample {
    ghost code: { ℕ };

    ghost width: { ℕ };

    ghost part: { Self → ℕ → ℤ };

    ghost put: { Self → ℕ → ℤ → Self };

    ghost laws: { StoredLaws code width part put };

    /// The kind that the head of a file names.
    fn kind() -> Kind
        ensures { kind_number result ≡ code };

    /// How many parts a sample has.
    fn parts() -> usize
        ensures { result ≡ width }
    {
        Self::kind().parts()
    }

    /// The part of a number, from 0; of a number that is too large, the last part.
    fn part_of(self, number: usize) -> i32
        ensures { result ≡ part self number };

    /// The sample with one part changed; of a number that is too large, the last part.
    fn with_part(self, number: usize, value: i32) -> Self
        ensures { result ≡ put self number value };

    // a part is the sample's reading of the symbol of the same number
    ghost reading: { (x : Self) (k : ℕ) → k < width → part x k ≡ reads (Self.Sample.means x) k };

    // a sample is no larger than its largest part
    ghost bounded: { (x : Self) (b : ℕ) → ((k : ℕ) → k < width → unsigned_abs (part x k) ≤ b) → (Self.Sample.means x).size ≤ b };
}
