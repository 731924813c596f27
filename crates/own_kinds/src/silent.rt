//! A kind whose samples read 0 at every symbol.
ghost use Rattle.own_kinds.specs.SilentKind.{silent_means, silent_zero, silent_added, silent_turned, silent_front, silent_laws};

use samples::Sample;

/// A sample of which nothing was heard; the slot says where it was listened for, and no reading depends on it.
#[derive(Clone, Copy, PartialEq, Eq, Debug)]
pub struct Silent {
    pub slot: u8,
}

impl Sample for Silent {
    ghost means = { silent_means };

    ghost zeroed = { silent_zero };

    ghost added = { silent_added };

    ghost turned = { silent_turned };

    ghost fronted = { silent_front };

    ghost laws = { silent_laws };

    fn zero() -> Silent {
        Silent { slot: 0 }
    }

    fn add(self, _other: Silent) -> Silent {
        self
    }

    fn turn(self) -> Silent {
        self
    }

    fn front(self) -> i32 {
        0
    }

    fn size(self) -> u32 {
        0
    }
}
