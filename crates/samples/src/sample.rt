//! What a kind of samples is: the one thing that all code above knows of a sample.
ghost use Rattle.std.specs.Prelude.{◌≡◌, min, ℤ};
ghost use Rattle.samples.specs.Meaning.{Meaning};
ghost use Rattle.samples.specs.Kind.{KindLaws};

/// A kind of samples. Each call answers the same for the same samples, whatever they are; the laws say what
/// that means for the readings where the sizes stay within the limit.
pub trait Sample: Copy {
    ghost means: { Self → Meaning };

    ghost zeroed: { Self };

    ghost added: { Self → Self → Self };

    ghost turned: { Self → Self };

    ghost fronted: { Self → ℤ };

    ghost laws: { KindLaws means zeroed added turned fronted };

    /// The sample that reads 0 at every symbol.
    fn zero() -> Self
        ensures { result ≡ zeroed };

    /// The sum of two samples.
    fn add(self, other: Self) -> Self
        ensures { result ≡ added self other };

    /// The sample with each reading moved on by one symbol.
    fn turn(self) -> Self
        ensures { result ≡ turned self };

    /// The reading of symbol 0.
    fn front(self) -> i32
        ensures { result ≡ fronted self };

    /// The size, or the largest `u32` where the size is larger still.
    fn size(self) -> u32
        ensures { result ≡ min (means self).size 4294967295 };
}
