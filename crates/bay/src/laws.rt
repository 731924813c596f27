//! The laws of a bay's runs, for every run and every kind of samples.
ghost use Rattle.std.specs.Prelude.{◌≡◌, ℕ, true, List};
ghost use Rattle.std.specs.List.Sorted.{IsPermutation};
ghost use Rattle.kerdock.specs.Code.{Row};
ghost use Rattle.decoder.specs.Scores.{Reception, scores};
ghost use Rattle.bay.specs.Rules.{Run, Dealing, Answer, Opening, Rightly, Lawful, shut};
ghost use Rattle.bay.specs.Rules.Run.{Opened};
ghost use Rattle.bay.specs.Rules.Answer.{Denied};
ghost use Rattle.bay.specs.Law.{Law};
ghost use Rattle.bay.specs.Lived.{State, Lived, Deals, OnlyTheScore};
ghost use Rattle.bay.specs.Steps.{Steps, Opens};
ghost use Rattle.bay.specs.Replay.{made, Carries};

/// A call that does what its state says is a dealing of whatever run the bay has lived.
pub fn steps_are_dealings()
    ensures { (b : State) (d : Dealing) (a : Answer) (b' : State) → Steps b d a b' → Deals b d a b' }
{}

/// A bay as an opening leaves it has lived the run of no dealings.
pub fn opening_starts_a_run()
    ensures { (o : Opening) (b : State) → Opens o b → Lived o Opened b }
{}

/// Scores are the same in whatever order receptions are held.
pub fn order_keeps_scores()
    ensures { (row : Row) (rs ts : List Reception) → IsPermutation rs ts → (m : ℕ) → scores row ts m ≡ scores row rs m }
{}

/// Between two words only the score chooses.
pub fn law_stands()
    ensures { Law }
{}

/// A lawful run carries the law at each of its verdicts.
pub fn runs_carry_the_law()
    ensures { (o : Opening) (ds : ℕ → Dealing) (ans : ℕ → Answer) (n : ℕ) → Lawful o (made ds ans n) → Carries o ds ans n }
{}

/// A dealing that delivers a verdict delivers it under the law, whatever run the bay has lived.
pub fn dealings_carry_the_law()
    ensures { (b : State) (d : Dealing) (a : Answer) (b' : State) → Deals b d a b' → OnlyTheScore b a }
{}

/// A bay that opened shut denies every dealing by 1.
pub fn shut_bays_deny()
    ensures { (o : Opening) (h : Run) (d : Dealing) (a : Answer) → shut o ≡ true → Rightly o h d a → a ≡ Denied 1 0 }
{}
