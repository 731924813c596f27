//! Reception files: bytes checked, a reception picked out of them, and receptions written as bytes.
#![tactic(auto)]

mod checked_file;
mod checking;
mod degree;
mod head;
mod kind;
mod kinds;
mod parts;
mod picking;
mod refusal;
mod stored;
mod text;
mod writing;

pub use checked_file::CheckedFile;
pub use checking::check;
pub use degree::Degree;
pub use head::Head;
pub use kind::Kind;
pub use picking::pick;
pub use refusal::Refusal;
pub use stored::Stored;
pub use writing::write;
