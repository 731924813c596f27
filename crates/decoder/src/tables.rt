//! Tables of one search: the index of each place, and the leader of each coset by place.
ghost use Rattle.std.specs.Prelude.{◌≡◌, ℕ, ◌+◌, ◌-◌, ◌%◌, ◌^◌, ◌<◌, ◌≤◌, [], length, slice_index, slice_index_or};
ghost use Rattle.kerdock.specs.Code.{Row, size, symbol, place};
ghost use Rattle.kerdock.specs.Sound.{Sound};
ghost use Rattle.kerdock.specs.Books.{Lawful};
ghost use Rattle.decoder.specs.Cosets.{message as message_of};
ghost use Rattle.decoder.specs.Visits.{times};

use kerdock::books::CodeBook;
use samples::Sample;

// The index of each place, as a lawful book has it; whatever the book holds, an index below n.
fn indices(book: &CodeBook, n: usize) -> [u8; 256]
    requires some { 0 < n }
    requires few { n ≤ 128 }
    ensures below { (p : ℕ) → slice_index result p < n }
    ensures found { (row : Row) → Sound row → size row ≡ n → Lawful row book.now → (i : ℕ) → i < n → slice_index result (place row i) ≡ i }
{
    let mut at = [0; 256];
    for (i, place) in book.places[..n].iter().enumerate() {
        // stays: `as` is proved to lose nothing here, and `try_from` would answer an error that cannot come
        at[usize::from(*place)] = i as u8;
    }
    at
}

// A row of symbols plus another, place by place.
fn sum_of(mut row: [u8; 128], unit: &[u8; 128]) -> [u8; 128]
    requires row { (p : ℕ) → slice_index row p < 4 }
    requires unit { (p : ℕ) → slice_index unit.now p < 4 }
    ensures { (p : ℕ) → slice_index result p ≡ (slice_index row p + slice_index unit.now p) % 4 }
{
    // stays: the other row by index, since a proof knows nothing of what is written through `iter_mut().zip(..)`; and all 128
    // places at every degree, since a row of fixed length is added in a few wide steps
    for (p, symbol) in row.iter_mut().enumerate() {
        *symbol = (*symbol + unit[p]) & 3;
    }
    row
}

// What the search looks up, for words of 2 ^ degree symbols.
#[derive(Drop)]
pub(crate) struct Tables {
    degree: usize,
    // the index of each place
    at: [u8; 256],
    // row u: the leader of coset u, which is the word of e = 0 and L(k) = bit k of u, by place
    leaders: [[u8; 128]; 128],
    ghost two: { 2 ≤ degree },
    ghost seven: { degree ≤ 7 },
    ghost within: { (p : ℕ) → slice_index at p < 2 ^ degree },
    ghost small: { (u p : ℕ) → slice_index (slice_index_or leaders u []) p < 4 },
}

impl Tables {
    ghost use Rattle.decoder.specs.Tables.{Holds};

    // Tables to be filled.
    // stays: zeros are made where the tables lie; a `new` that filled them first was measured to copy 16,384 bytes as it returned
    pub(crate) fn blank(degree: usize) -> Tables
        requires two { 2 ≤ degree }
        requires seven { degree ≤ 7 }
        ensures { result.degree ≡ degree }
    {
        Tables {
            degree,
            at: [0; 256],
            leaders: [[0; 128]; 128],
        }
    }

    // Fills the tables in their place: the leaders' rows from that of coset 0, since a coset with bit k added has the leader of
    // 2 ^ k added.
    pub(crate) fn fill(&mut self, book: &CodeBook)
        ensures degree { self.new.degree ≡ self.old.degree }
        ensures holds { (row : Row) → Sound row → row.degree ≡ self.old.degree → Lawful row book.now → Holds row self.new }
    {
        self.at = indices(book, 1 << self.degree);
        self.leaders[0] = [0; 128];
        for k in 0..self.degree {
            let unit = self.unit_row(book, k);
            let half = 1 << k;
            // stays: rows by index and by value. Of two parts of a field by `split_at_mut` a proof knows no row that the loop
            // leaves in them; and copied into its place first and added to there, a row takes more instructions
            for u in 0..half {
                self.leaders[half + u] = sum_of(self.leaders[u], &unit);
            }
        }
    }

    // The leader of the coset 2 ^ k, by place: the traces k on from each index.
    fn unit_row(&self, book: &CodeBook, k: usize) -> [u8; 128]
        requires { k < self.now.degree }
        ensures small { (p : ℕ) → slice_index result p < 4 }
        ensures is { (row : Row) → Sound row → row.degree ≡ self.now.degree → Lawful row book.now → (p : ℕ) → p < 2 ^ self.now.degree → slice_index result p ≡ symbol row (message_of row 0 (2 ^ k) 0) (slice_index self.now.at p) }
    {
        let n = 1 << self.degree;
        let period = n - 1;
        let mut unit = [0; 128];
        // stays: the row goes by index, since of `iter_mut().zip(..)` a proof knows no symbol that it leaves; and `array::from_fn` would
        // work out all 128 places
        for (p, index) in self.at[..n].iter().enumerate() {
            if *index > 0 {
                let j = usize::from(*index) - 1 + k;
                // stays: counted round by hand, since a book has each trace once, and any bytes may stand in it
                unit[p] = book.traces[if j < period { j } else { j - period }] & 3;
            }
        }
        unit
    }

    // Lays the sums by place, each turned back along the leader of coset u: back by s is forward by 4 - s.
    pub(crate) fn lay<S: Sample>(&self, u: usize, sums: &[S], work: &mut [S])
        requires sums { length sums.now ≡ 2 ^ self.now.degree }
        requires coset { u < 128 }
        requires room { length work.old ≤ 128 }
        ensures { (p : ℕ) → p < length work.new → slice_index_or work.new p S.zeroed ≡ times S.Sample ((4 - slice_index (slice_index_or self.now.leaders u []) p) % 4) (slice_index_or sums.now (slice_index self.now.at p) S.zeroed) }
    {
        let leader = &self.leaders[u];
        // stays: leader and index go by place, since of `iter_mut().zip(..)` a proof knows no sample that it leaves
        for (p, sample) in work.iter_mut().enumerate() {
            let x = sums[usize::from(self.at[p])];
            let y = x.turn();
            let z = y.turn();
            let turned = [x, z.turn(), z, y];
            *sample = turned[usize::from(leader[p])];
        }
    }
}
