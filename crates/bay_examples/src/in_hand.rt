//! Calls on a bay whose verdict is in hand. The verdict that is out is surely taken by its own bay, and until it is, take,
//! decide and clear are surely denied; so no case is left over here.
// stays: each call has a function whose contract hands the fact `Out` on, since it does not reach the next call from the bare
// one; a struct that lends the bay beside the verdict would owe `Out` of it after the answer, too
ghost use Rattle.bay_calls.specs.Seen.{state};
ghost use Rattle.bay_examples.specs.Owing.{Out, Owed};

use bay_calls::{Bay, Denial, Verdict};
use samples::Sample;

/// Decides; a verdict that is delivered is out.
pub(crate) fn decided<S: Sample>(bay: &mut Bay<S>, work: &mut [S]) -> Result<Verdict, Denial>
    ensures { Owed (state S.Sample bay.new) result }
{
    bay.decide(work)
}

/// Accepts the verdict that is out.
pub(crate) fn accepted<S: Sample>(bay: &mut Bay<S>, verdict: Verdict) -> u32
    requires { Out (state S.Sample bay.old) verdict }
{
    bay.accept(verdict).unwrap()
}

/// Repeats it: how many receptions stay held.
pub(crate) fn repeated<S: Sample>(bay: &mut Bay<S>, verdict: Verdict) -> u8
    requires { Out (state S.Sample bay.old) verdict }
{
    bay.repeat(verdict).unwrap()
}

/// Drops it: how many receptions were let go.
pub(crate) fn dropped<S: Sample>(bay: &mut Bay<S>, verdict: Verdict) -> u8
    requires { Out (state S.Sample bay.old) verdict }
{
    bay.drop(verdict).unwrap()
}

/// Why take is denied while the verdict is out.
pub(crate) fn take_denied<S: Sample>(bay: &mut Bay<S>, reception: &[S], verdict: &Verdict) -> Denial
    requires { Out (state S.Sample bay.old) verdict.now }
    ensures { Out (state S.Sample bay.new) verdict.now }
{
    bay.take(reception).unwrap_err()
}

/// Why decide is denied while the verdict is out.
pub(crate) fn decide_denied<S: Sample>(
    bay: &mut Bay<S>,
    work: &mut [S],
    verdict: &Verdict,
) -> Denial
    requires { Out (state S.Sample bay.old) verdict.now }
    ensures { Out (state S.Sample bay.new) verdict.now }
{
    bay.decide(work).unwrap_err()
}

/// Why clear is denied while the verdict is out.
pub(crate) fn clear_denied<S: Sample>(bay: &mut Bay<S>, verdict: &Verdict) -> Denial
    requires { Out (state S.Sample bay.old) verdict.now }
    ensures { Out (state S.Sample bay.new) verdict.now }
{
    bay.clear().unwrap_err()
}
