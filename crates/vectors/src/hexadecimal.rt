//! Bytes that are written in hexadecimal, two digits a byte.
ghost use Rattle.std.specs.Prelude.{◌≡◌, ℕ, ◌<◌, length, IfSome, IfOk, MatchOption, ◌≢◌};
ghost use Rattle.vectors.specs.Hexadecimal.{digit, high, low, Writes};

use std::alloc::{AllocError, Global};

/// The value of a digit; none where the character is no digit, or a capital letter.
fn value(character: u8) -> Option<u8>
    ensures { MatchOption result ((d : ℕ) → d < 16 → character ≢ digit d) (λ d. (d < 16) × (character ≡ digit d)) }
{
    match character {
        b'0'..=b'9' => Some(character - b'0'),
        b'a'..=b'f' => Some(character - b'a' + 10),
        _ => None,
    }
}

/// The byte that two digits write.
fn byte(first: u8, second: u8) -> Option<u8>
    ensures { MatchOption result ((b : ℕ) → b < 256 → first ≡ high b → second ≢ low b) (λ b. (first ≡ high b) × (second ≡ low b)) }
{
    Some(16 * value(first)? + value(second)?)
}

/// The bytes that a text writes; none where it is not pairs of digits.
pub(crate) fn bytes_of(text: &[u8], heap: Global) -> Result<Option<Vec<u8>>, AllocError>
    ensures { IfOk result (λ o. IfSome o (λ v. Writes text.now v.items)) }
{
    if text.len() % 2 != 0 {
        return Ok(None);
    }
    let mut bytes = Vec::new(heap);
    for pair in text.chunks_exact(2) {
        let Some(b) = byte(pair[0], pair[1]) else {
            return Ok(None);
        };
        bytes.push(b)?;
    }
    Ok(Some(bytes))
}
