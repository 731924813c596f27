//! The passes of the transform: pairs of samples are crossed in place.
ghost use Rattle.std.specs.Prelude.{◌≡◌, ℕ, ◌+◌, ◌*◌, ◌^◌, ◌<◌, ◌≤◌, length};
ghost use Rattle.samples.specs.Kind.{limit};
ghost use Rattle.samples.specs.Passes.{crossed, after, Halves};
ghost use Rattle.samples.specs.Sizes.{at, Within};
ghost use Rattle.samples.specs.Transform.{Transformed};

use crate::sample::Sample;

/// One step of the transform: the sum of two samples, and the sum with the second turned twice.
pub fn step<S: Sample>(a: S, b: S) -> (S, S)
    ensures { result ≡ (S.added a b, S.added a (S.turned (S.turned b))) }
{
    (a.add(b), a.add(b.turn().turn()))
}

// Crosses the first half of the block at `start` with its second half. The loop runs over samples in a row and
// tests nothing, so that it can be compiled to vector code.
fn cross_block<S: Sample>(w: &mut [S], start: usize, h: usize)
    requires { start + (h + h) ≤ length w.old }
    ensures { Halves S.Sample h start w.old w.new }
{
    // stays: the pairs go by index. No contract of the library says what a zip of two `iter_mut` leaves in the slices,
    // and with halves from `split_at_mut`, one of them by index, the search takes 7 in 100 more instructions
    for j in start..start + h {
        (w[j], w[j + h]) = step(w[j], w[j + h]);
    }
}

// Crosses the halves of each of the blocks, which fill the slice.
fn pass<S: Sample>(w: &mut [S], h: usize, blocks: usize)
    requires { blocks * (h + h) ≡ length w.old }
    ensures { (v : ℕ) → v < length w.old → at S.Sample w.new v ≡ crossed S.Sample h (at S.Sample w.old) v }
{
    // stays: the blocks go by number, since no contract of the library says what `chunks_exact_mut` leaves in the slice
    for n in 0..blocks {
        cross_block(w, n * (h + h), h);
    }
}

// The passes over a list of 2 ^ degree samples, from neighbours to halves.
pub(crate) fn passes<S: Sample>(w: &mut [S], degree: usize)
    requires { length w.old ≡ 2 ^ degree }
    ensures exact { (v : ℕ) → v < length w.old → at S.Sample w.new v ≡ after S.Sample w.old degree v }
    ensures sums { (b : ℕ) → Within S.Sample b w.old → length w.old * b ≤ limit → Transformed S.Sample w.old w.new }
{
    // stays: a width that doubles says what one pass hands the next; a shift by the number of the pass would be no shorter
    let mut h = 1;
    for _ in 0..degree {
        let width = 2 * h;
        pass(w, h, w.len() / width);
        h = width;
    }
}
