//! The transform of a list of samples, in place.
ghost use Rattle.std.specs.Prelude.{◌≡◌, ℕ, ◌*◌, ◌^◌, ◌<◌, ◌≤◌, ◌≢◌, length, OnOk, OnErr, IsOkUnless};
ghost use Rattle.samples.specs.Kind.{limit};
ghost use Rattle.samples.specs.Outcome.{Answered};
ghost use Rattle.samples.specs.Passes.{after};
ghost use Rattle.samples.specs.Sizes.{at, Within};
ghost use Rattle.samples.specs.Transform.{Transformed};

use crate::crossing::passes;
use crate::refusal::Refusal;
use crate::sample::Sample;
use crate::sizes::first_above;

// The largest size that a sample may have: 128 of them sum to at most 67,106,816, up to which every kind is exact.
const LOUDEST: u32 = 524_272;

/// Leaves at each place the sum over all places of their samples, each turned twice where the two places share an
/// odd number of one bits.
///
/// Refused where the length is none of 8, 32 and 128, and where a size is above 524,272; nothing is written then.
pub fn transform<S: Sample>(w: &mut [S]) -> Result<(), Refusal>
    ensures { Answered S.Sample w.old result w.new }
{
    // each length is 2 to the power of its degree
    // stays: this crate stands below those of the code and of files, which have the same lengths in tables of their own
    let degree = match w.len() {
        8 => 3,
        32 => 5,
        128 => 7,
        _ => return Err(Refusal::Length),
    };
    // stays: what is found is refused here, midway; `map_or(Ok(()), ..)?` is no plainer
    if let Some(i) = first_above(w, LOUDEST) {
        return Err(Refusal::Size(i));
    }
    passes(w, degree);
    Ok(())
}

/// The transform of 2 ^ degree samples, at most 128, without a look at their sizes: for a caller that knows them.
///
/// Refused where the length does not fit the degree; nothing is written then. What the places read is promised where
/// the length times the largest size stays within the limit of a kind.
pub fn transform_sized<S: Sample>(w: &mut [S], degree: usize) -> Result<(), Refusal>
    ensures fits { OnOk result ((degree ≤ 7) × (length w.old ≡ 2 ^ degree)) }
    ensures unfit { OnErr result (degree ≤ 7 → length w.old ≢ 2 ^ degree) }
    ensures refusal { IsOkUnless result Refusal.Length }
    ensures kept { OnErr result (w.new ≡ w.old) }
    ensures exact { OnOk result ((v : ℕ) → v < length w.old → at S.Sample w.new v ≡ after S.Sample w.old degree v) }
    ensures sums { OnOk result ((b : ℕ) → Within S.Sample b w.old → length w.old * b ≤ limit → Transformed S.Sample w.old w.new) }
{
    if degree > 7 || w.len() != 1 << degree {
        return Err(Refusal::Length);
    }
    passes(w, degree);
    Ok(())
}

#[cfg(test)]
mod tests {
    use crate::phase::Phase;
    use crate::transforms::transform;

    // The reading of a symbol, taken modulo 4.
    fn read(x: &Phase, symbol: u8) -> i64 {
        x.reading(symbol % 4).unwrap_or(0)
    }

    // Straight from the definition: the reading of a symbol at place v. What a sample gives whose place shares an odd
    // number of one bits with v is left open: turned twice, or, for comparison, subtracted.
    fn summed<F: Fn(&Phase) -> i64>(w: &[Phase], v: usize, symbol: u8, odd: F) -> i64
        requires { F.IsAlwaysCallable odd }
    {
        let mut sum: i64 = 0;
        for (p, x) in w.iter().enumerate() {
            let reading = if (v & p).count_ones() % 2 == 1 {
                odd(x)
            } else {
                read(x, symbol)
            };
            sum = sum.wrapping_add(reading);
        }
        sum
    }

    // A phase sample turned twice is not its opposite, so a transform that subtracted would read otherwise.
    #[test]
    fn turns_and_does_not_subtract(rt: HostRuntime) {
        let mut w = [Phase {
            at0: 1,
            at1: -2,
            at2: 30,
            at3: 400,
        }; 8];
        w[3] = Phase {
            at0: 5,
            at1: 60,
            at2: -7,
            at3: 8,
        };
        w[6] = Phase {
            at0: -90,
            at1: 1,
            at2: 2,
            at3: 3,
        };
        let mut t = w;
        assert!(rt; transform(&mut t).is_ok());
        for (v, x) in t.iter().enumerate() {
            for symbol in 0..4u8 {
                let turned = summed(&w, v, symbol, |y| read(y, symbol % 4 + 2));
                assert_eq!(rt; x.reading(symbol), Some(turned));
            }
        }
        let subtracted = summed(&w, 1, 0, |y| read(y, 0).wrapping_neg());
        assert_ne!(rt; t[1].reading(0), Some(subtracted));
    }
}
