//! The check of a whole file.
ghost use Rattle.reception_file.specs.Check.{Measured, Checked};
ghost use Rattle.reception_file.specs.Opening.{Opens};

use crate::checked_file::CheckedFile;
use crate::head::Head;
use crate::kind::Kind;
use crate::parts::{check_parts, parts_of};
use crate::refusal::Refusal;

/// The head of a file that is exactly as long as its head says. The first arm refuses the kind, the degree, the count and the
/// length, in this order; the others stand in the order of their refusals, the last first.
fn measure(bytes: &[u8]) -> Result<Head, Refusal>
    ensures { Measured bytes.now result }
{
    match bytes {
        [0x4B, 0x57, 0x52, 0, 1, kind, degree, count, rest @ ..] => {
            match Head::new(Kind::try_from(*kind)?, *degree, *count)? {
                head if rest.len() == 2 * head.parts() => Ok(head),
                _ => Err(Refusal::Length(bytes.len())),
            }
        }
        [0x4B, 0x57, 0x52, _, _, _, _, _, ..] => Err(Refusal::Version),
        [0x4B, 0x57, _, _, _, _, _, _, ..] => Err(Refusal::Mark(2)),
        [0x4B, _, _, _, _, _, _, _, ..] => Err(Refusal::Mark(1)),
        [_, _, _, _, _, _, _, _, ..] => Err(Refusal::Mark(0)),
        short => Err(Refusal::Short(short.len())),
    }
}

impl<'a> CheckedFile<'a> {
    /// The file that the bytes are, if they are one.
    pub fn open(bytes: &'a [u8]) -> Result<CheckedFile<'a>, Refusal>
        ensures { Opens bytes.now result }
    {
        let head = measure(bytes)?;
        check_parts(parts_of(bytes))?;
        Ok(CheckedFile { bytes, head })
    }
}

/// The head of a file, if the bytes are one.
pub fn check(bytes: &[u8]) -> Result<Head, Refusal>
    ensures { Checked bytes.now result }
{
    Ok(CheckedFile::open(bytes)?.head)
}
