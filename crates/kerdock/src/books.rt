//! Code books: the traces and places of one degree, filled into the caller's memory.
ghost use Rattle.std.specs.Prelude.{◌≡◌, ℕ, IsTrue, if◌then◌else◌, Ok, Err, slice_index};
ghost use Rattle.kerdock.specs.Table.{row_of, known};
ghost use Rattle.kerdock.specs.Books.{Lawful};

use crate::code::Code;
use crate::refusals::Refusal;
use crate::rows::row_of;

/// A plain record: any values may stand in it, and a lawful one holds a degree's N - 1 traces and N places, then zeros.
// stays: two arrays as long as the largest degree needs, filled in the caller's place with no heap
#[derive(Clone, Copy)]
pub struct CodeBook {
    pub traces: [u8; 127],
    pub places: [u8; 128],
}

impl CodeBook {
    /// A book of zeros, to be filled.
    pub fn blank() -> CodeBook
        ensures { (k : ℕ) → (slice_index result.traces k ≡ 0) × (slice_index result.places k ≡ 0) }
    {
        CodeBook {
            traces: [0; 127],
            places: [0; 128],
        }
    }

    // Fills the book of a code's degree.
    pub(crate) fn fill(&mut self, code: &Code)
        ensures { Lawful (row_of code.now.row.degree) self.new }
    {
        let period = code.row.length - 1;
        self.traces = [0; 127];
        self.traces[..period].copy_from_slice(&code.traces[..period]);
        self.places = [0; 128];
        for (j, place) in self.places[1..code.row.length].iter_mut().enumerate() {
            *place = code.place(j);
        }
    }
}

/// Makes the book of a degree in the caller's place; refused, it leaves the place as it was.
pub fn make_book(degree: u8, book: &mut CodeBook) -> Result<(), Refusal>
    ensures answer { result ≡ (if known degree then Ok tt else Err Refusal.Degree) }
    ensures made { IsTrue (known degree) → Lawful (row_of degree) book.new }
    ensures kept { ¬ IsTrue (known degree) → book.new ≡ book.old }
{
    let row = row_of(degree).ok_or(Refusal::Degree)?;
    book.fill(&Code::new(row));
    Ok(())
}
