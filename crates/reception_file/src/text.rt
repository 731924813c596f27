//! How a refusal is written.
ghost use Rattle.reception_file.specs.Refusals.{line};
ghost use Rattle.std.specs.Prelude.{Some};

use crate::refusal::Refusal;
use denials::Denied;
use std::fmt;

// stays: each type has a Display of its own; the words stand once, in that of `Denied`
impl fmt::Display for Refusal {
    ghost output = { λ e. Some (line e) };

    fn fmt<W: fmt::Write>(&self, f: &mut fmt::Formatter<W>) -> fmt::Result {
        Denied::new(self.number(), self.place()).fmt(f)
    }
}
