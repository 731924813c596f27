//! The search over all cosets: the word that leads, its score and its margin.
ghost use Rattle.std.specs.Prelude.{Some};
ghost use Rattle.decoder.specs.Leaders.{LeaderOf, line};
ghost use Rattle.decoder.specs.Search.{Zeros, Searched};

use crate::ranking::Best;
use crate::tables::Tables;
use kerdock::books::CodeBook;
use kerdock::coding::word_length;
use samples::{Sample, transform_sized};
use std::fmt;

/// The message that leads, its score, and its lead over the best other word.
#[derive(Clone, Copy, PartialEq, Eq, Debug)]
pub struct Leader {
    pub message: u32,
    pub score: i32,
    pub margin: u32,
}

impl From<Best> for Leader {
    ghost from_gives = { LeaderOf };

    // The best with its lead over its rival.
    fn from(best: Best) -> Leader {
        Leader {
            message: best.message,
            score: best.score,
            margin: best.score.abs_diff(best.rival),
        }
    }
}

impl fmt::Display for Leader {
    ghost output = { λ leader. Some (line leader) };

    fn fmt<W: fmt::Write>(&self, f: &mut fmt::Formatter<W>) -> fmt::Result {
        let Leader {
            message,
            score,
            margin,
        } = *self;
        write!(f, "message {message} score {score} margin {margin}")
    }
}

/// Makes every sample the zero sample.
pub fn clean<S: Sample>(work: &mut [S])
    ensures { Zeros S.Sample work.old work.new }
{
    work.fill_with(|| S::zero());
}

/// The leading message over the sums, or nothing where the degree is not in the table or a length is not its words'.
///
/// The sums stay as they are, and the work memory is left as zeros; where nothing is answered, nothing is written.
/// Any number may be handed in as the degree: to one that is not in the table the answer is `None`.
// stays: so the degree is a number
pub fn search<S: Sample>(degree: u8, book: &CodeBook, sums: &[S], work: &mut [S]) -> Option<Leader>
    ensures { Searched S.Sample degree book.now sums.now work.old result work.new }
{
    let n = word_length(degree)?;
    if sums.len() != n || work.len() != n {
        return None;
    }
    let mut tables = Tables::blank(usize::from(degree));
    tables.fill(book);
    let mut best = Best::nobody();
    // stays: u is the number of a coset, which the tables and the ranking are both handed
    for u in 0..n {
        tables.lay(u, sums, work);
        transform_sized(work, usize::from(degree)).unwrap();
        best.rank_coset(work, u);
    }
    clean(work);
    Some(best.into())
}
