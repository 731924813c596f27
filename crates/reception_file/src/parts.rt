//! Parts, each of two bytes.
ghost use Rattle.std.specs.Prelude.{◌≡◌, ℕ, ◌-◌, ◌/◌, ◌^◌, ◌<◌, ◌≤◌, length};
ghost use Rattle.reception_file.specs.Layout.{at};
ghost use Rattle.reception_file.specs.Check.{Quiet};
ghost use Rattle.reception_file.specs.Pairs.{pair_part, part_in, PairsOf};

use crate::refusal::Refusal;

/// The largest absolute value of a part.
pub(crate) const LARGEST: u32 = 32767;

/// The part that two bytes stand for, the high one first.
pub(crate) fn part_from(bytes: [u8; 2]) -> i32
    ensures { result ≡ pair_part bytes }
{
    i32::from(i16::from_be_bytes(bytes))
}

/// The parts of a file, behind the first eight bytes. Each byte of the file is below 256, which a proof cannot see of a slice in a struct.
pub(crate) fn parts_of(bytes: &[u8]) -> &[[u8; 2]]
    requires { 8 ≤ length bytes.now }
    ensures parts { PairsOf bytes.now result.now }
    ensures many { length result.now ≡ (length bytes.now - 8) / 2 }
    ensures small { (i : ℕ) → at bytes.now i < 256 }
{
    bytes[8..].as_chunks().0
}

/// Refuses the first part that is not allowed.
pub(crate) fn check_parts(parts: &[[u8; 2]]) -> Result<(), Refusal>
    requires { length parts.now < 2 ^ 32 }
    ensures { Quiet (part_in parts.now) (length parts.now) result }
{
    let loud = parts
        .iter()
        .position(|part| part_from(*part).unsigned_abs() > LARGEST);
    loud.map_or(Ok(()), |j| Err(Refusal::Part(8 + 2 * j)))
}
