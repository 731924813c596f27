//! From a reception file to the word that was sent: the bytes are checked, a bay takes each reception, and decides.
#![tactic(auto)]

mod decoding;
pub mod laws;
mod printing;
mod taking;

pub use decoding::decode;
pub use printing::line;
