//! The rules of a bay: its dealings and denials, the five numbers of a verdict, and the law of its verdicts over runs.
#![tactic(auto)]

mod denial;
pub mod laws;
mod numbers;
mod text;

pub use denial::Denial;
pub use numbers::Numbers;
