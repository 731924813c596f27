//! The transform straight from its definition, one place at a time.
use samples::Sample;

/// The sum over all places of their samples, each turned twice where the two places share an odd number of one bits.
pub(crate) fn defined<S: Sample>(w: &[S], v: usize) -> S {
    let mut sum = S::zero();
    for (p, x) in w.iter().enumerate() {
        let odd = (v & p).count_ones() % 2 == 1;
        sum = sum.add(if odd { x.turn().turn() } else { *x });
    }
    sum
}
