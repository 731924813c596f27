//! A bay, and how one is opened.
ghost use Rattle.std.specs.Prelude.{◌≡◌, length};
ghost use Rattle.decoder.specs.Search.{Zeros};
ghost use Rattle.bay_calls.specs.declared.standing.Stage.TheVariants.{Shut, Gathering};
ghost use Rattle.bay.specs.Rules.Run.{Opened};
ghost use Rattle.bay_rules.specs.Lived.{Lived};
ghost use Rattle.bay_rules.specs.Steps.{Opens};
ghost use Rattle.bay_calls.specs.Seen.{opening, state};

use crate::standing::{Stage, Standing};
use decoder::search::clean;
use kerdock::books::{CodeBook, make_book};
use kerdock::coding::word_length;
use samples::Sample;

/// A bay of any one kind of samples: the sums in memory that it is lent, beside the code book of its degree and its plain
/// numbers.
// stays: what the calls promise alike is of the bay before and after, so no ghost field of one bay says it
#[derive(Drop)]
pub struct Bay<'a, S> {
    pub(crate) sums: &'a mut [S],
    pub(crate) book: CodeBook,
    pub(crate) standing: Standing,
}

impl<'a, S: Sample> Bay<'a, S> {
    // stays: any degree can be handed in, so that a bay can open shut on it
    /// Opens a bay on a degree and memory for its sums. Where the degree is not in the table, or the memory does not have
    /// one sample for each index, the bay is shut and nothing is written; otherwise the sums are zeros and it gathers.
    pub fn open(degree: u8, memory: &'a mut [S]) -> Bay<'a, S>
        ensures opens { Opens (opening degree (length memory.old)) (state S.Sample result) }
        ensures lends { result.sums.ghost_name ≡ memory.entry.ghost_name }
        ensures untouched { result.standing.stage ≡ Shut → result.sums.now ≡ memory.old }
        ensures zeros { result.standing.stage ≡ Gathering → Zeros S.Sample memory.old result.sums.now }
        ensures long { length result.sums.now ≡ length memory.old }
        ensures lived { Lived (opening degree (length memory.old)) Opened (state S.Sample result) }
    {
        let mut book = CodeBook::blank();
        let stage = if word_length(degree) == Some(memory.len()) {
            make_book(degree, &mut book).unwrap();
            clean(memory);
            Stage::Gathering
        } else {
            Stage::Shut
        };
        Bay {
            sums: memory,
            book,
            standing: Standing {
                degree,
                held: 0,
                stage,
            },
        }
    }
}
