//! The best word by the definition: every message is encoded, and the readings at its symbols are added.
use crate::draws::Drawn;
use decoder::search::Leader;
use kerdock::coding::encode;
use std::num::TryFromIntError;

// The score of a word over the sums.
fn score<S: Drawn>(sums: &[S], word: &[u8]) -> i64 {
    sums.iter().zip(word).fold(0i64, |total, (x, symbol)| {
        total.wrapping_add(x.read(*symbol).unwrap_or(0))
    })
}

// The best message so far, its score, and the best score of any other.
// stays: like what the search keeps, but what checks the search uses nothing of it
#[derive(Clone, Copy, PartialEq, Eq, Debug)]
struct Ranked {
    message: u32,
    score: i64,
    rival: i64,
}

impl TryFrom<Ranked> for Leader {
    type Error = TryFromIntError;

    // The ranking as the search answers it, where its numbers fit.
    fn try_from(best: Ranked) -> Result<Leader, TryFromIntError> {
        Ok(Leader {
            message: best.message,
            score: i32::try_from(best.score)?,
            margin: u32::try_from(best.score.abs_diff(best.rival))?,
        })
    }
}

/// Every message in turn; the first of equals stays.
pub(crate) fn by_definition<S: Drawn>(degree: u8, sums: &[S]) -> Option<Leader> {
    let n = sums.len();
    let mut memory = [0u8; 128];
    let word = memory.get_mut(..n)?;
    // stays: two scores below all others, so that the first message takes the lead as any other does, with no `Option` to ask
    let mut top = Ranked {
        message: 0,
        score: i64::MIN,
        rival: i64::MIN,
    };
    for message in 0..u32::try_from(4 * n * n).ok()? {
        encode(degree, message, word).ok()?;
        let score = score(sums, word);
        if score > top.score {
            top = Ranked {
                message,
                score,
                rival: top.score,
            };
        } else {
            top.rival = top.rival.max(score);
        }
    }
    Leader::try_from(top).ok()
}
