//! The laws of a bay with its code book, for every run and every kind of samples; and that the rules give one answer.
//! The first three are laws of the crate `bay`, too, over its state, which has no book.
ghost use Rattle.std.specs.Prelude.{◌≡◌};
ghost use Rattle.bay.specs.Rules.{Run, Dealing, Answer, Opening, Rightly};
ghost use Rattle.bay.specs.Rules.Run.{Opened};
ghost use Rattle.bay_rules.specs.Lived.{State, Lived, Deals, OnlyTheScore};
ghost use Rattle.bay_rules.specs.Steps.{Steps, Opens};

/// A call that does what its state says is a dealing of whatever run the bay has lived.
pub fn steps_are_dealings()
    ensures { (b : State) (d : Dealing) (a : Answer) (b' : State) → Steps b d a b' → Deals b d a b' }
{}

/// A bay as an opening leaves it has lived the run of no dealings.
pub fn opening_starts_a_run()
    ensures { (o : Opening) (b : State) → Opens o b → Lived o Opened b }
{}

/// A dealing that delivers a verdict delivers it under the law, whatever run the bay has lived.
pub fn dealings_carry_the_law()
    ensures { (b : State) (d : Dealing) (a : Answer) (b' : State) → Deals b d a b' → OnlyTheScore b a }
{}

/// The rules give one answer to each dealing.
pub fn rules_give_one_answer()
    ensures { (o : Opening) (h : Run) (d : Dealing) (a b : Answer) → Rightly o h d a → Rightly o h d b → a ≡ b }
{}
