//! A verdict in hand: owed exactly one answer.
ghost use Rattle.std.specs.Prelude.{◌≡◌};

use bay_rules::{Denial, Numbers};

/// What a decision hands out. It is no `Drop` and no `Copy`, and only a bay makes one, so whoever has it must have it
/// accepted, repeated or dropped, and only once.
pub struct Verdict {
    numbers: Numbers,
}

impl Verdict {
    /// The verdict's five numbers.
    pub fn numbers(&self) -> Numbers
        ensures { result ≡ self.now.numbers }
    {
        self.numbers
    }
}

/// A verdict that was not taken: why, and the verdict, still owed its answer.
pub struct Refused {
    pub why: Denial,
    pub verdict: Verdict,
}

/// A verdict of these numbers.
// stays: a `From` would be public, and make verdicts anywhere
pub(crate) fn issue(numbers: Numbers) -> Verdict
    ensures { result.numbers ≡ numbers }
{
    Verdict { numbers }
}

/// Ends a verdict that has had its answer.
// stays: a `From` would be public, and end verdicts anywhere
pub(crate) fn spend(verdict: Verdict) -> Numbers
    ensures { result ≡ verdict.numbers }
{
    let Verdict { numbers } = verdict;
    numbers
}
