//! The sums of a bay, sample by sample.
ghost use Rattle.std.specs.Prelude.{◌≡◌, length};
ghost use Rattle.decoder.specs.Search.{Zeros};
ghost use Rattle.bay_calls.specs.Sums.{Summed, emptied};

use crate::standing::{Stage, Standing};
use decoder::search::clean;
use samples::Sample;

/// Adds a reception to the sums.
pub(crate) fn add_into<S: Sample>(sums: &mut [S], reception: &[S])
    requires { length reception.now ≡ length sums.old }
    ensures { Summed S.Sample sums.old reception.now sums.new }
{
    // stays: the reception goes by index, since of a zip over iter_mut a proof knows no sample that it leaves
    for (i, sum) in sums.iter_mut().enumerate() {
        *sum = sum.add(reception[i]);
    }
}

impl Standing {
    /// Lets go of all that is held, and gathers: how many receptions that were.
    pub(crate) fn empty<S: Sample>(&mut self, sums: &mut [S]) -> u8
        ensures standing { self.new ≡ emptied self.old }
        ensures zeros { Zeros S.Sample sums.old sums.new }
        ensures held { result ≡ self.old.held }
    {
        clean(sums);
        let held = self.held;
        self.held = 0;
        self.stage = Stage::Gathering;
        held
    }
}
