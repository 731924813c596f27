//! The decision of a bay.
ghost use Rattle.std.specs.Prelude.{◌≡◌, length, OnErr};
ghost use Rattle.decoder.specs.Search.{Searched};
ghost use Rattle.bay.specs.Rules.Dealing.{Decide};
ghost use Rattle.bay_rules.specs.Lived.{Deals, OnlyTheScore};
ghost use Rattle.bay_rules.specs.Steps.{Steps};
ghost use Rattle.bay_calls.specs.Seen.{state, delivered, Worked};

use crate::admission::Call;
use crate::bays::Bay;
use crate::standing::Stage;
use crate::verdict::{Verdict, issue};
use bay_rules::{Denial, Numbers};
use decoder::search::{Leader, search};
use samples::Sample;

impl<'a, S: Sample> Bay<'a, S> {
    /// The search over the sums.
    fn look(&self, work: &mut [S]) -> Option<Leader>
        ensures { Searched S.Sample self.now.standing.degree self.now.book self.now.sums.now work.old result work.new }
    {
        search(self.standing.degree, &self.book, self.sums, work)
    }

    /// Decides which word was sent, and hands out the verdict. The work memory is left as zeros.
    pub fn decide(&mut self, work: &mut [S]) -> Result<Verdict, Denial>
        ensures steps { Steps (state S.Sample self.old) (Decide (length work.old)) (delivered result) (state S.Sample self.new) }
        ensures deals { Deals (state S.Sample self.old) (Decide (length work.old)) (delivered result) (state S.Sample self.new) }
        ensures law { OnlyTheScore (state S.Sample self.old) (delivered result) }
        ensures kept { self.new.sums.now ≡ self.old.sums.now }
        ensures worked { Worked S.Sample result work.old work.new }
        ensures unmoved { OnErr result (self.new ≡ self.old) }
        ensures lent { self.new.sums.ghost_name ≡ self.old.sums.ghost_name }
    {
        self.standing.stage.admit(Call::Decide)?;
        if self.standing.held == 0 {
            return Err(Denial::NothingHeld);
        }
        if work.len() != self.sums.len() {
            return Err(Denial::Work);
        }
        // stays: no bay that was opened comes to this denial, but a bay's fields may hold any values, and each has its answer
        let leader = self.look(work).ok_or(Denial::Shut)?;
        // stays: the five numbers are one plain record, two of them the bay's and three the search's
        let numbers = Numbers {
            degree: self.standing.degree,
            held: self.standing.held,
            message: leader.message,
            score: leader.score,
            margin: leader.margin,
        };
        self.standing.stage = Stage::Waiting(numbers);
        Ok(issue(numbers))
    }
}
