//! Samples with parts of all sizes.

use reception_file::Stored;

/// Parts of all sizes, the lowest for 0.
fn spread(i: usize) -> i32 {
    // stays: what is cast is below 65,535, so `as` is proved to lose nothing, and `try_from` would answer an error that cannot come
    (i % 64 * 2849 % 65535) as i32 - 32767
}

/// Fills the memory with samples whose parts differ.
pub(crate) fn fill<S: Stored>(samples: &mut [S]) {
    for (i, sample) in samples.iter_mut().enumerate() {
        for (k, step) in [1, 5, 11, 7].into_iter().take(S::parts()).enumerate() {
            *sample = sample.with_part(k, spread(i % 64 * step));
        }
    }
}

/// Changes a part of a sample, if there is one; of a number that is too large, the last part.
pub(crate) fn put<S: Stored>(sample: Option<&mut S>, part: usize, value: i32) {
    if let Some(sample) = sample {
        *sample = sample.with_part(part, value);
    }
}
