//! The best of every word: scores, rankings, and the search for the word that leads.
#![tactic(auto)]

pub mod examples;
pub mod laws;
mod ranking;
pub mod search;
mod tables;
