//! The line that is printed for a file.
ghost use Rattle.std.specs.Prelude.{IfOk, string_bytes};
ghost use Rattle.gateway.specs.Lines.{Printed};

use crate::decoding::decode;
use std::alloc::{AllocError, Global};

/// Decodes a file and answers the outcome as a line of text: the verdict's numbers, or the refusal.
pub fn line(bytes: &[u8], heap: Global) -> Result<String, AllocError>
    ensures { IfOk result (λ s. Printed bytes.now (string_bytes s)) }
{
    match decode(bytes) {
        Ok(numbers) => format!(in heap; "{numbers}"),
        Err(refusal) => format!(in heap; "{refusal}"),
    }
}
