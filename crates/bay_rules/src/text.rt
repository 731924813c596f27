//! How a denial is written, and how the numbers of a verdict are.
ghost use Rattle.bay_rules.specs.Denials.{line};
ghost use Rattle.bay_rules.specs.Lines.{verdict_line};
ghost use Rattle.std.specs.Prelude.{Some};

use crate::denial::Denial;
use crate::numbers::Numbers;
use denials::Denied;
use std::fmt;

// stays: each type has a Display of its own; the words stand once, in that of `Denied`
impl fmt::Display for Denial {
    ghost output = { λ e. Some (line e) };

    fn fmt<W: fmt::Write>(&self, f: &mut fmt::Formatter<W>) -> fmt::Result {
        Denied::new(self.number(), self.place()).fmt(f)
    }
}

impl fmt::Display for Numbers {
    ghost output = { λ n. Some (verdict_line n) };

    fn fmt<W: fmt::Write>(&self, f: &mut fmt::Formatter<W>) -> fmt::Result {
        let Numbers {
            degree: _,
            held,
            message,
            score,
            margin,
        } = *self;
        write!(
            f,
            "message {message} score {score} margin {margin} held {held}"
        )
    }
}
