//! Reading back: a list of symbols to the message whose word it is.
ghost use Rattle.std.specs.Prelude.{◌≡◌, ℕ, suc, ◌+◌, ◌-◌, ◌*◌, ◌/◌, ◌%◌, ◌^◌, ◌<◌, ◌≤◌, ◌↔◌, IsTrue, MatchOption, length, slice_index};
ghost use Rattle.kerdock.specs.Code.{size, symbol, messages, place, sum_to};
ghost use Rattle.kerdock.specs.Table.{row_of};
ghost use Rattle.kerdock.specs.Books.{Lawful};
ghost use Rattle.kerdock.specs.Calls.{Spells, FirstAbove, ReadBack, WrittenAgain};

use crate::books::CodeBook;
use crate::code::Code;
use crate::refusals::Refusal;
use crate::rows::row_of;

// The first index of a symbol above 3.
fn first_above(list: &[u8]) -> Option<usize>
    ensures { MatchOption result ((k : ℕ) → slice_index list.now k ≤ 3) (λ i. FirstAbove list.now i) }
{
    list.iter().position(|&symbol| symbol > 3)
}

// A list of N symbols, none above 3, beside the code that it is read in and the book of its degree.
#[derive(Clone, Copy)]
struct Reading<'a> {
    code: &'a Code,
    book: CodeBook,
    list: &'a [u8],
    ghost lawful: { Lawful (row_of code.now.row.degree) book },
    ghost long: { length list.now ≡ size (row_of code.now.row.degree) },
    ghost small: { (k : ℕ) → slice_index list.now k ≤ 3 },
}

impl Reading<'_> {
    // The index of a place.
    fn index_of(&self, wanted: u8) -> usize
        requires { wanted < size (row_of self.now.code.now.row.degree) }
        ensures inside { result < size (row_of self.now.code.now.row.degree) }
        ensures found { place (row_of self.now.code.now.row.degree) result ≡ wanted }
    {
        let places = &self.book.places[..self.code.row.length];
        places.iter().position(|&place| place == wanted).unwrap()
    }

    // How far the list lies above the word of `known` at the index whose place is one bit, read as one bit for each bit of a place:
    // the quotient by `divisor` modulo 2. Bit k stands as the base-4 digit k + 1 of the answer.
    fn bits_above(&self, known: u32, divisor: u8) -> u32
        requires { 0 < divisor }
        ensures bound { 3 * result + 4 ≤ 4 ^ suc self.now.code.now.row.degree }
        ensures bits { (bit : ℕ → ℕ) → ((k i : ℕ) → k < self.now.code.now.row.degree → i < size (row_of self.now.code.now.row.degree) → place (row_of self.now.code.now.row.degree) i ≡ 2 ^ k → (slice_index self.now.list.now i + 4 - symbol (row_of self.now.code.now.row.degree) known i) % 4 / divisor % 2 ≡ bit k) → result ≡ sum_to (λ k. 4 ^ suc k * bit k) self.now.code.now.row.degree }
    {
        let mut sum = 0;
        // stays: k is a bit of a place, and there is no slice to go along
        for k in 0..self.code.row.degree {
            let at = self.index_of(1 << k);
            let above = (self.list[at] + 4 - self.code.symbol(known, at)) % 4;
            sum += u32::from(above / divisor % 2) << (2 * (k + 1));
        }
        sum
    }

    // The only message that can have this list as its word: e from index 0, then the lower bit of each L(k), then the upper one.
    fn candidate(&self) -> u32
        ensures range { result < messages (row_of self.now.code.now.row.degree) }
        ensures only { (m : ℕ) → m < messages (row_of self.now.code.now.row.degree) → Spells (row_of self.now.code.now.row.degree) m self.now.list.now → m ≡ result }
    {
        let e = u32::from(self.list[0]);
        let lower = e + self.bits_above(e, 1);
        lower + 2 * self.bits_above(lower, 2)
    }

    // Whether the list is the word of the message.
    fn is_word_of(&self, message: u32) -> bool
        ensures { IsTrue result ↔ Spells (row_of self.now.code.now.row.degree) message self.now.list.now }
    {
        self.list
            .iter()
            .enumerate()
            .all(|(i, &symbol)| symbol == self.code.symbol(message, i))
    }
}

/// The message whose word the list is.
pub fn read_back(degree: u8, list: &[u8]) -> Result<u32, Refusal>
    ensures answer { ReadBack degree list.now result }
    ensures written_again { WrittenAgain degree list.now result }
{
    let row = row_of(degree).ok_or(Refusal::Degree)?;
    if list.len() != row.length {
        return Err(Refusal::Memory);
    }
    // stays: what is found is refused here, midway; `map_or(Ok(()), ..)?` is no plainer
    if let Some(index) = first_above(list) {
        return Err(Refusal::Symbol(index));
    }
    let code = Code::new(row);
    let mut book = CodeBook::blank();
    book.fill(&code);
    let reading = Reading {
        code: &code,
        book,
        list,
    };
    let message = reading.candidate();
    if reading.is_word_of(message) {
        Ok(message)
    } else {
        Err(Refusal::NoWord)
    }
}
