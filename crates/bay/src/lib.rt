//! The bay: the rules of its dealings, and the law of its verdicts.
#![tactic(auto)]

pub mod laws;
