//! A file decoded, by the kind of its samples.
ghost use Rattle.gateway.specs.Decoded.{Decoded};

use crate::taking::decode_as;
use bay_calls::Numbers;
use reception_file::{CheckedFile, Kind, Refusal};
use samples::{Complex, Phase, Sample};

/// The verdict's five numbers over the receptions of a file, or why the bytes are refused.
pub fn decode(bytes: &[u8]) -> Result<Numbers, Refusal>
    ensures { Decoded bytes.now result }
{
    let file = CheckedFile::open(bytes)?;
    Ok(match file.head.kind {
        Kind::Complex => decode_as(file, [Complex::zero(); 128]),
        Kind::Phase => decode_as(file, [Phase::zero(); 128]),
    })
}
