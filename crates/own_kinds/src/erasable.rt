//! A kind over another kind: a sample may have been erased on its way.
ghost use Rattle.own_kinds.specs.ErasableKind.{erasable_means, erasable_zero, erasable_added, erasable_turned, erasable_front, erasable_laws};

use samples::Sample;

/// A sample of another kind, or none where it was erased. A struct around the option, since a crate can give a trait of
/// another one to types of its own alone.
#[derive(Clone, Copy, PartialEq, Eq, Debug)]
pub struct Erasable<S> {
    pub heard: Option<S>,
}

impl<S: Sample> Sample for Erasable<S> {
    ghost means = { erasable_means S.Sample };

    ghost zeroed = { erasable_zero };

    ghost added = { erasable_added S.Sample };

    ghost turned = { erasable_turned S.Sample };

    ghost fronted = { erasable_front S.Sample };

    ghost laws = { erasable_laws S.Sample };

    fn zero() -> Erasable<S> {
        Erasable { heard: None }
    }

    fn add(self, other: Erasable<S>) -> Erasable<S> {
        match (self.heard, other.heard) {
            (Some(a), Some(b)) => Erasable {
                heard: Some(a.add(b)),
            },
            (Some(_), None) => self,
            (None, _) => other,
        }
    }

    fn turn(self) -> Erasable<S> {
        Erasable {
            heard: self.heard.map(|x| x.turn()),
        }
    }

    fn front(self) -> i32 {
        self.heard.map_or(0, |x| x.front())
    }

    fn size(self) -> u32 {
        self.heard.map_or(0, |x| x.size())
    }
}
