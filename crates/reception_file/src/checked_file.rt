//! A file that was checked.
ghost use Rattle.reception_file.specs.Check.{Accepted, Heads};
ghost use Rattle.reception_file.specs.Props.{Accepted-prop, Heads-prop};

use crate::head::Head;

/// The bytes of a file that is one, and its head.
#[derive(Clone, Copy)]
pub struct CheckedFile<'a> {
    pub bytes: &'a [u8],
    pub head: Head,
    pub ghost accepted: { Accepted bytes.now } by { Accepted-prop bytes.now },
    pub ghost heads: { Heads bytes.now head } by { Heads-prop bytes.now head },
}
