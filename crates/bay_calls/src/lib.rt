//! The bay: it gathers the receptions of one word, decides which word it was, and hands out verdicts. The rules of its
//! dealings, and the law of its verdicts, stand in the crate `bay_rules`.
#![tactic(auto)]

mod admission;
mod answering;
mod bays;
mod deciding;
mod gathering;
mod playing;
mod standing;
mod sums;
mod verdict;

pub use bay_rules::{Denial, Numbers};
pub use bays::Bay;
pub use playing::{Answer, Dealing, Reply, play};
pub use verdict::{Refused, Verdict};
