//! Receptions as the bytes of a file.
ghost use Rattle.std.specs.Prelude.{◌≡◌, ℕ, ◌+◌, ◌*◌, ◌/◌, ◌%◌, ◌^◌, ◌<◌, ◌≤◌, length, slice_set, unsigned_abs};
ghost use Rattle.reception_file.specs.Layout.{place_of, raw, allowed};
ghost use Rattle.reception_file.specs.Check.{Quiet};
ghost use Rattle.reception_file.specs.Write.{part_of, Weighed, Writes};
ghost use Rattle.reception_file.specs.Laws.{ComesBack};
ghost use Rattle.reception_file.specs.Partly.{Laid};

use crate::head::Head;
use crate::parts::LARGEST;
use crate::refusal::Refusal;
use crate::stored::Stored;

/// Refuses the first part of the samples that is not allowed.
// stays: the check of a file asks the same of pairs of bytes, which are no samples yet
fn check_samples<S: Stored>(samples: &[S]) -> Result<(), Refusal>
    requires { length samples.now * S.Stored.width < 2 ^ 32 }
    ensures { Quiet (part_of S.Sample S.Stored.own samples.now) (length samples.now * S.Stored.width) result }
{
    let parts = S::parts();
    for (i, sample) in samples.iter().enumerate() {
        // stays: a sample's parts are no slice, only numbered
        for k in 0..parts {
            if sample.part_of(k).unsigned_abs() > LARGEST {
                return Err(Refusal::Part(8 + 2 * (i * parts + k)));
            }
        }
    }
    Ok(())
}

/// The head of the file to write.
fn weigh<S: Stored>(degree: u8, count: u8, samples: &[S]) -> Result<Head, Refusal>
    ensures { Weighed S.Sample S.Stored.own degree count samples.now result }
{
    let head = Head::new(S::kind(), degree, count)?;
    if samples.len() != usize::from(count) * head.samples() {
        return Err(Refusal::Memory);
    }
    check_samples(samples)?;
    Ok(head)
}

/// Writes the two bytes of a part, the high one first.
fn write_part(number: usize, part: i32, bytes: &mut [u8])
    requires inside { place_of number + 1 < length bytes.old }
    requires within { unsigned_abs part ≤ allowed }
    ensures { bytes.new ≡ slice_set (slice_set bytes.old (place_of number) (raw part / 256)) (place_of number + 1) (raw part % 256) }
{
    let place = 8 + 2 * number;
    // stays: the part fits, so `as` loses nothing, and `try_from` would answer an error that cannot come
    bytes[place..place + 2].copy_from_slice(&(part as i16).to_be_bytes());
}

/// Writes all parts behind the head.
fn write_parts<S: Stored>(samples: &[S], bytes: &mut [u8])
    requires within { (j : ℕ) → j < length samples.now * S.Stored.width → unsigned_abs (part_of S.Sample S.Stored.own samples.now j) ≤ allowed }
    requires room { place_of (length samples.now * S.Stored.width) ≤ length bytes.old }
    ensures { Laid (part_of S.Sample S.Stored.own samples.now) (length samples.now * S.Stored.width) bytes.old bytes.new }
{
    let parts = S::parts();
    for (i, sample) in samples.iter().enumerate() {
        // stays: a sample's parts are no slice, and `chunks_exact_mut` tells a proof nothing of what it leaves in the bytes
        for k in 0..parts {
            write_part(i * parts + k, sample.part_of(k), bytes);
        }
    }
}

// stays: any degree can be handed in, so that it can be refused
/// Writes a file: the samples of all receptions, one reception after the other. Answers the file's length.
pub fn write<S: Stored>(
    degree: u8,
    count: u8,
    samples: &[S],
    bytes: &mut [u8],
) -> Result<usize, Refusal>
    ensures writes { Writes S.Sample S.Stored.own degree count samples.now bytes.old result bytes.new }
    ensures comes_back { ComesBack S.Sample S.Stored.own degree count samples.now bytes.new result }
{
    let head = weigh(degree, count, samples)?;
    let size = head.size();
    if bytes.len() < size {
        return Err(Refusal::Room);
    }
    bytes[..8].copy_from_slice(&head.to_bytes());
    write_parts(samples, bytes);
    Ok(size)
}
