//! The five numbers of a verdict.

/// What a decision comes to: the degree, how many receptions were held, the message that leads, its score, and its lead
/// over the best other word.
#[derive(Clone, Copy, PartialEq, Eq, Debug)]
pub struct Numbers {
    // stays: a verdict that a list hands in may have any number here, so that it can be denied
    pub degree: u8,
    pub held: u8,
    pub message: u32,
    pub score: i32,
    pub margin: u32,
}
