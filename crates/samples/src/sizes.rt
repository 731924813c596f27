//! The check of a reception's sizes.
ghost use Rattle.samples.specs.Sizes.{FirstAbove};

use crate::sample::Sample;

/// The index of the first sample whose size is above the limit.
pub fn first_above<S: Sample>(samples: &[S], limit: u32) -> Option<usize>
    ensures { FirstAbove S.Sample limit samples.now result }
{
    // stays: the rule of this check is a loop over the samples with their index, which answers the first offender
    for (i, x) in samples.iter().enumerate() {
        if x.size() > limit {
            return Some(i);
        }
    }
    None
}
