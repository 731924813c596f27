//! Receptions taken into a bay, and let go again.
ghost use Rattle.std.specs.Prelude.{◌≡◌, OnOk, OnErr};
ghost use Rattle.decoder.specs.Search.{meanings, Zeros};
ghost use Rattle.bay.specs.Rules.Dealing.{Take, Clear};
ghost use Rattle.bay_rules.specs.Lived.{Deals};
ghost use Rattle.bay_rules.specs.Steps.{Steps};
ghost use Rattle.bay_calls.specs.Sums.{Summed};
ghost use Rattle.bay_calls.specs.Seen.{state, counted};

use crate::admission::Call;
use crate::bays::Bay;
use crate::sums::add_into;
use bay_rules::Denial;
use samples::{Sample, first_above};

impl<'a, S: Sample> Bay<'a, S> {
    /// Adds a reception to the sums, and answers how many are held.
    pub fn take(&mut self, reception: &[S]) -> Result<u8, Denial>
        ensures steps { Steps (state S.Sample self.old) (Take (meanings S.Sample reception.now)) (counted result) (state S.Sample self.new) }
        ensures deals { Deals (state S.Sample self.old) (Take (meanings S.Sample reception.now)) (counted result) (state S.Sample self.new) }
        ensures summed { OnOk result (Summed S.Sample self.old.sums.now reception.now self.new.sums.now) }
        ensures unmoved { OnErr result (self.new ≡ self.old) }
        ensures lent { self.new.sums.ghost_name ≡ self.old.sums.ghost_name }
    {
        self.standing.stage.admit(Call::Take)?;
        if reception.len() != self.sums.len() {
            return Err(Denial::Length);
        }
        // stays: what is found is denied here, midway; `map_or(Ok(()), ..)?` is no plainer
        if let Some(i) = first_above(reception, 32767) {
            return Err(Denial::TooLarge(i));
        }
        if self.standing.held >= 16 {
            return Err(Denial::Full);
        }
        add_into(self.sums, reception);
        self.standing.held += 1;
        Ok(self.standing.held)
    }

    /// Lets go of all that is held, and answers how many that were.
    pub fn clear(&mut self) -> Result<u8, Denial>
        ensures steps { Steps (state S.Sample self.old) Clear (counted result) (state S.Sample self.new) }
        ensures deals { Deals (state S.Sample self.old) Clear (counted result) (state S.Sample self.new) }
        ensures zeros { OnOk result (Zeros S.Sample self.old.sums.now self.new.sums.now) }
        ensures unmoved { OnErr result (self.new ≡ self.old) }
        ensures lent { self.new.sums.ghost_name ≡ self.old.sums.ghost_name }
    {
        self.standing.stage.admit(Call::Clear)?;
        Ok(self.standing.empty(self.sums))
    }
}
