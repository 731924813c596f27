//! The receptions of a file in a bay of any one kind of samples, and the verdict over them.
ghost use Rattle.std.specs.Prelude.{◌≡◌, ◌+◌, ◌<◌, length};
ghost use Rattle.reception_file.specs.Layout.{at};
ghost use Rattle.bay_calls.specs.Seen.{state};
ghost use Rattle.gateway.specs.Receptions.{samples_at};
ghost use Rattle.gateway.specs.Partly.{Took, Ripe, Settles, Settled};

use bay_calls::{Bay, Numbers};
use reception_file::{CheckedFile, Stored};
use samples::Sample;

/// Picks the reception of a number and has the bay take it.
fn take_one<S: Stored>(file: CheckedFile<'_>, number: usize, bay: &mut Bay<'_, S>, memory: &mut [S])
    requires kind { at file.bytes.now 5 ≡ S.Stored.code }
    requires inside { number < at file.bytes.now 7 }
    requires long { length memory.old ≡ samples_at file.bytes.now }
    requires took { Took S.Sample S.Stored.own file.bytes.now number (state S.Sample bay.old) }
    ensures { Took S.Sample S.Stored.own file.entry.bytes.now (number + 1) (state S.Sample bay.new) }
{
    file.pick(number, memory).unwrap();
    let _held = bay.take(memory).unwrap();
}

/// Decides, and accepts the verdict.
fn settle<S: Sample>(bay: &mut Bay<'_, S>, work: &mut [S]) -> Numbers
    requires { Ripe (state S.Sample bay.old) (length work.old) }
    ensures { Settles (state S.Sample bay.old) result }
{
    let verdict = bay.decide(work).unwrap();
    let numbers = verdict.numbers();
    let _message = bay.accept(verdict).unwrap();
    numbers
}

/// The verdict over the receptions of a file, with memory of the longest reception each for the sums, the search and the
/// picking.
pub(crate) fn decode_as<S: Stored>(file: CheckedFile<'_>, zeros: [S; 128]) -> Numbers
    requires { at file.bytes.now 5 ≡ S.Stored.code }
    ensures { Settled S.Sample S.Stored.own file.entry.bytes.now result }
{
    let n = file.head.samples();
    let mut sums = zeros;
    let mut work = zeros;
    let mut memory = zeros;
    let mut bay = Bay::open(file.head.degree.into(), &mut sums[..n]);
    for number in 0..usize::from(file.head.count) {
        take_one(file, number, &mut bay, &mut memory[..n]);
    }
    settle(&mut bay, &mut work[..n])
}
