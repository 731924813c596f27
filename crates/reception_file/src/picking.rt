//! One reception out of a file.
ghost use Rattle.std.specs.Prelude.{◌≡◌, ℕ, ◌*◌, ◌<◌, length, Ok, OnOk};
ghost use Rattle.reception_file.specs.Layout.{at};
ghost use Rattle.reception_file.specs.Pairs.{part_in};
ghost use Rattle.reception_file.specs.Pick.{Reads, PicksFrom, Picks};
ghost use Rattle.reception_file.specs.Laws.{WrittenAgain};

use crate::checked_file::CheckedFile;
use crate::parts::{part_from, parts_of};
use crate::refusal::Refusal;
use crate::stored::Stored;

/// The sample of these parts.
fn sample_from<S: Stored>(parts: &[[u8; 2]]) -> S
    requires { length parts.now ≡ S.Stored.width }
    ensures { (k : ℕ) → k < S.Stored.width → S.Stored.part result k ≡ part_in parts.now k }
{
    let mut sample = S::zero();
    for (k, part) in parts.iter().enumerate() {
        sample = sample.with_part(k, part_from(*part));
    }
    sample
}

/// Fills the memory with the samples of these parts.
fn read_samples<S: Stored>(parts: &[[u8; 2]], memory: &mut [S])
    requires { length parts.now ≡ length memory.old * S.Stored.width }
    ensures { Reads S.Sample S.Stored.own parts.now memory.new }
{
    // stays: the parts go by index, since of `iter_mut().zip(..)` a proof knows no sample that it leaves
    for (i, sample) in memory.iter_mut().enumerate() {
        let first = i * S::parts();
        *sample = sample_from(&parts[first..first + S::parts()]);
    }
}

impl CheckedFile<'_> {
    /// Leaves one reception of the file in the memory. Receptions are numbered from 0.
    pub fn pick<S: Stored>(self, reception: usize, memory: &mut [S]) -> Result<(), Refusal>
        ensures picks { PicksFrom S.Sample S.Stored.own self.entry.bytes.now reception memory.old result memory.new }
        ensures written_again { OnOk result (WrittenAgain S.Sample S.Stored.own self.entry.bytes.now (Ok (at self.entry.bytes.now 6))) }
    {
        let head = self.head;
        if head.kind != S::kind() {
            return Err(Refusal::Kind);
        }
        if reception >= usize::from(head.count) {
            return Err(Refusal::Reception);
        }
        let samples = head.samples();
        if memory.len() != samples {
            return Err(Refusal::Memory);
        }
        let long = samples * S::parts();
        let first = reception * long;
        read_samples(&parts_of(self.bytes)[first..first + long], memory);
        Ok(())
    }
}

// stays: the answer is the degree's number, as the calls on the code and the bay take it
/// Leaves one reception of a file in the memory, and answers the degree. Receptions are numbered from 0.
pub fn pick<S: Stored>(bytes: &[u8], reception: usize, memory: &mut [S]) -> Result<u8, Refusal>
    ensures picks { Picks S.Sample S.Stored.own bytes.now reception memory.old result memory.new }
    ensures written_again { WrittenAgain S.Sample S.Stored.own bytes.now result }
{
    let file = CheckedFile::open(bytes)?;
    file.pick(reception, memory)?;
    Ok(u8::from(file.head.degree))
}
