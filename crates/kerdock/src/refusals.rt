//! Why a call of this crate is refused.
ghost use Rattle.std.specs.Prelude.{◌≡◌, IfOk, Some, string_bytes};
ghost use Rattle.kerdock.specs.Refusals.{number, place, line};

use denials::Denied;
use std::alloc::{AllocError, Global};
use std::fmt;

/// A refusal of one of this crate's calls.
#[derive(Clone, Copy, PartialEq, Eq, Debug)]
pub enum Refusal {
    /// The degree has no row in the table.
    Degree,
    /// The message is not below 4·N·N.
    Message,
    /// The memory or the list is not N long.
    Memory,
    /// The symbol at this index, the first such, is above 3.
    Symbol(usize),
    /// No message has these symbols as its word.
    NoWord,
}

impl Refusal {
    /// The number by which the refusal is known outside.
    // stays: a variant holds an index, so `as` does not give the number
    pub fn number(self) -> u8
        ensures { result ≡ number self }
    {
        match self {
            Refusal::Degree => 9,
            Refusal::Message => 10,
            Refusal::Memory => 11,
            Refusal::Symbol(_) => 12,
            Refusal::NoWord => 13,
        }
    }

    /// The index that the refusal points at, or 0.
    pub fn place(self) -> usize
        ensures { result ≡ place self }
    {
        match self {
            Refusal::Symbol(index) => index,
            Refusal::Degree | Refusal::Message | Refusal::Memory | Refusal::NoWord => 0,
        }
    }

    /// The refusal as a line of text.
    pub fn line(self, heap: Global) -> Result<String, AllocError>
        ensures { IfOk result (λ s. string_bytes s ≡ line self) }
    {
        format!(in heap; "{self}")
    }
}

// stays: each type has a Display of its own; the words stand once, in that of `Denied`
impl fmt::Display for Refusal {
    ghost output = { λ e. Some (line e) };

    fn fmt<W: fmt::Write>(&self, f: &mut fmt::Formatter<W>) -> fmt::Result {
        Denied::new(self.number(), self.place()).fmt(f)
    }
}
