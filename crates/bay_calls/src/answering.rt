//! The three answers to a verdict.
ghost use Rattle.std.specs.Prelude.{◌≡◌, OnOk, OnErr};
ghost use Rattle.decoder.specs.Search.{Zeros};
ghost use Rattle.bay.specs.Rules.Dealing.{Accept, Repeat};
ghost use Rattle.bay.specs.Rules.Dealing.{Drop as Dropping};
ghost use Rattle.bay_rules.specs.Lived.{Deals};
ghost use Rattle.bay_rules.specs.Steps.{Steps};
ghost use Rattle.bay_calls.specs.Seen.{five, state, accepted, let_go, Back};
ghost use Rattle.bay_calls.specs.Admission.{Answered};

use crate::admission::Call;
use crate::bays::Bay;
use crate::standing::Stage;
use crate::verdict::{Refused, Verdict, spend};
use bay_rules::Numbers;
use samples::Sample;

impl Stage {
    /// Lets the answer to a verdict in and ends the verdict, or hands it back.
    fn answer(self, verdict: Verdict) -> Result<Numbers, Refused>
        ensures { Answered self verdict result }
    {
        // stays: both arms use the verdict up, and a closure for map_err would take it from the first
        match self.admit(Call::Answer(verdict.numbers())) {
            Ok(()) => Ok(spend(verdict)),
            Err(why) => Err(Refused { why, verdict }),
        }
    }
}

impl<'a, S: Sample> Bay<'a, S> {
    /// Takes the verdict as the word that was sent: answers its message and lets go of all that is held.
    pub fn accept(&mut self, verdict: Verdict) -> Result<u32, Refused>
        ensures steps { Steps (state S.Sample self.old) (Accept (five verdict.numbers)) (accepted result) (state S.Sample self.new) }
        ensures deals { Deals (state S.Sample self.old) (Accept (five verdict.numbers)) (accepted result) (state S.Sample self.new) }
        ensures zeros { OnOk result (Zeros S.Sample self.old.sums.now self.new.sums.now) }
        ensures unmoved { OnErr result (self.new ≡ self.old) }
        ensures back { Back verdict result }
        ensures lent { self.new.sums.ghost_name ≡ self.old.sums.ghost_name }
    {
        let numbers = self.standing.stage.answer(verdict)?;
        self.standing.empty(self.sums);
        Ok(numbers.message)
    }

    /// Asks for the word again: answers how many receptions are held, and keeps them.
    pub fn repeat(&mut self, verdict: Verdict) -> Result<u8, Refused>
        ensures steps { Steps (state S.Sample self.old) (Repeat (five verdict.numbers)) (let_go result) (state S.Sample self.new) }
        ensures deals { Deals (state S.Sample self.old) (Repeat (five verdict.numbers)) (let_go result) (state S.Sample self.new) }
        ensures kept { self.new.sums.now ≡ self.old.sums.now }
        ensures unmoved { OnErr result (self.new ≡ self.old) }
        ensures back { Back verdict result }
        ensures lent { self.new.sums.ghost_name ≡ self.old.sums.ghost_name }
    {
        self.standing.stage.answer(verdict)?;
        self.standing.stage = Stage::Gathering;
        Ok(self.standing.held)
    }

    /// Gives the word up: lets go of all that is held, and answers how many receptions that were.
    pub fn drop(&mut self, verdict: Verdict) -> Result<u8, Refused>
        ensures steps { Steps (state S.Sample self.old) (Dropping (five verdict.numbers)) (let_go result) (state S.Sample self.new) }
        ensures deals { Deals (state S.Sample self.old) (Dropping (five verdict.numbers)) (let_go result) (state S.Sample self.new) }
        ensures zeros { OnOk result (Zeros S.Sample self.old.sums.now self.new.sums.now) }
        ensures unmoved { OnErr result (self.new ≡ self.old) }
        ensures back { Back verdict result }
        ensures lent { self.new.sums.ghost_name ≡ self.old.sums.ghost_name }
    {
        self.standing.stage.answer(verdict)?;
        Ok(self.standing.empty(self.sums))
    }
}
