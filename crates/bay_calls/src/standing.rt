//! What a bay keeps beside its sums and its book.
use bay_rules::Numbers;

/// What a bay is at: shut for good, gathering receptions, or waiting for the answer to the verdict that is out.
#[derive(Clone, Copy, PartialEq, Eq, Debug)]
pub enum Stage {
    Shut,
    Gathering,
    Waiting(Numbers),
}

/// A bay's plain numbers: the degree that it was opened with, how many receptions it holds, and its stage, with the record
/// of the verdict that is out.
#[derive(Clone, Copy, PartialEq, Eq, Debug)]
pub struct Standing {
    // stays: a shut bay keeps the number that it was opened with, whichever it was
    pub degree: u8,
    pub held: u8,
    pub stage: Stage,
}
