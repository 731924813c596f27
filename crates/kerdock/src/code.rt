//! The code of one degree: its traces, the places of its indices, and the words of its messages.
ghost use Rattle.std.specs.Prelude.{◌≡◌, ℕ, suc, ◌+◌, ◌<◌, length, slice_index};
ghost use Rattle.kerdock.specs.Code.{t, period, size, symbol, place};
ghost use Rattle.kerdock.specs.Table.{row_of};
ghost use Rattle.kerdock.specs.Calls.{Spells};

use crate::messages::digit;
use crate::rows::TableRow;

// A row of the table and its traces, as far as places and symbols read them: the N - 1, and then the first ones again.
#[derive(Drop)]
pub(crate) struct Code {
    pub(crate) row: TableRow,
    pub(crate) traces: [u8; 134],
    ghost filled: { (k : ℕ) → k < period (row_of row.degree) + row.degree → slice_index traces k ≡ t (row_of row.degree) k },
}

impl Code {
    pub(crate) fn new(row: TableRow) -> Code
        ensures { result.row ≡ row }
    {
        Code {
            traces: row.traces(),
            row,
        }
    }

    // The traces from number j on, as many as the degree says.
    fn traces_from(&self, j: usize) -> &[u8]
        requires { j < period (row_of self.now.row.degree) }
        ensures long { length result.now ≡ self.now.row.degree }
        ensures each { (k : ℕ) → k < self.now.row.degree → slice_index result.now k ≡ t (row_of self.now.row.degree) (j + k) }
    {
        &self.traces[j..j + self.row.degree]
    }

    // The place of index j + 1: bit k is the lowest bit of trace j + k.
    pub(crate) fn place(&self, j: usize) -> u8
        requires { j < period (row_of self.now.row.degree) }
        ensures { result ≡ place (row_of self.now.row.degree) (suc j) }
    {
        self.traces_from(j)
            .iter()
            .enumerate()
            .map(|(k, &trace)| (trace % 2) << k)
            .sum()
    }

    // The symbol of a message's word at one index, by the trace rule.
    pub(crate) fn symbol(&self, message: u32, index: usize) -> u8
        requires { index < size (row_of self.now.row.degree) }
        ensures { result ≡ symbol (row_of self.now.row.degree) message index }
    {
        let first = digit(message, 0);
        if index == 0 {
            return first;
        }
        let others: u8 = self
            .traces_from(index - 1)
            .iter()
            .enumerate()
            .map(|(k, &trace)| digit(message, k + 1) * trace)
            .sum();
        (first + others) % 4
    }

    // Writes the word of a message into memory of just its length.
    pub(crate) fn write_word(&self, message: u32, word: &mut [u8])
        requires { length word.old ≡ size (row_of self.now.row.degree) }
        ensures { Spells (row_of self.now.row.degree) message word.new }
    {
        for (index, symbol) in word.iter_mut().enumerate() {
            *symbol = self.symbol(message, index);
        }
    }
}
