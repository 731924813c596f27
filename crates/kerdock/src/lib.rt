//! The Z4 Kerdock code: code books, encoding, reading back, and sums of messages.
#![tactic(auto)]

pub mod books;
mod code;
pub mod coding;
pub mod messages;
pub mod reading;
pub mod refusals;
mod rows;
pub mod table;
