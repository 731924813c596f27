//! What a sample means, two kinds of samples, and the transform over every kind.
#![tactic(auto)]

mod complex;
mod crossing;
mod examples;
mod phase;
mod refusal;
mod sample;
mod sizes;
mod text;
mod transforms;

pub use complex::Complex;
pub use crossing::step;
pub use examples::examples_stand;
pub use phase::Phase;
pub use refusal::Refusal;
pub use sample::Sample;
pub use sizes::first_above;
pub use transforms::{transform, transform_sized};
