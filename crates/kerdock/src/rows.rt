//! The degree table, as the code reads it.
ghost use Rattle.std.specs.Prelude.{◌≡◌, ℕ, ◌+◌, ◌*◌, ◌%◌, ◌<◌, ◌≤◌, IsTrue, length, MatchOption, slice_index};
ghost use Rattle.kerdock.specs.Code.{t, period, messages, sum_to};
ghost use Rattle.kerdock.specs.Table.{row_of, known};
ghost use Rattle.kerdock.specs.Rows.{RowIs};

// One degree: N, the first traces, and the coefficients of the recurrence, lowest first, as many of each as the degree says.
// stays: the degree stands beside slices of its length, since it names the row
#[derive(Clone, Copy)]
pub(crate) struct TableRow {
    pub(crate) degree: usize,
    pub(crate) length: usize,
    pub(crate) first: &'static [u8],
    pub(crate) rule: &'static [u8],
    ghost of_the_table: { RowIs degree length first.now rule.now },
}

impl TableRow {
    // How many messages the degree has.
    pub(crate) fn messages(&self) -> u32
        ensures { result ≡ messages (row_of self.now.degree) }
    {
        // stays: `as` is proved to lose nothing, and `u32::try_from(..).unwrap()` says the same at more length
        let length = self.length as u32;
        4 * length * length
    }

    // The trace that the recurrence gives from those before it.
    fn next_trace(&self, before: &[u8]) -> u8
        requires long { length before.now ≡ self.now.degree }
        requires small { (k : ℕ) → k < self.now.degree → slice_index before.now k < 4 }
        ensures { result ≡ sum_to (λ k. slice_index self.now.rule.now k * slice_index before.now k) self.now.degree % 4 }
    {
        self.rule
            .iter()
            .zip(before)
            .map(|(&rule, &trace)| rule * trace)
            .sum::<u8>()
            % 4
    }

    // The traces, the N - 1 and then the first ones again, as many as the degree says.
    pub(crate) fn traces(&self) -> [u8; 134]
        ensures { (j : ℕ) → j < period (row_of self.now.degree) + self.now.degree → slice_index result j ≡ t (row_of self.now.degree) j }
    {
        let degree = self.first.len();
        let mut traces = [0; 134];
        traces[..degree].copy_from_slice(self.first);
        // stays: each trace is worked out from those just before it in the same array, so the loop goes by index
        for j in degree..self.length - 1 + degree {
            traces[j] = self.next_trace(&traces[j - degree..j]);
        }
        traces
    }
}

// The row of a degree.
// stays: any number may be asked for; for a degree that the table lacks there is no row
#[tactic(auto, unfolding(crate::specs::Table::known, crate::specs::Table::row_of))]
pub(crate) fn row_of(degree: u8) -> Option<TableRow>
    ensures { MatchOption result (¬ IsTrue (known degree)) (λ row. row.degree ≡ degree) }
{
    match degree {
        3 => Some(TableRow {
            degree: 3,
            length: 8,
            first: &[3, 2, 2],
            rule: &[1, 3, 2],
        }),
        5 => Some(TableRow {
            degree: 5,
            length: 32,
            first: &[1, 0, 0, 3, 0],
            rule: &[1, 2, 1, 0, 0],
        }),
        7 => Some(TableRow {
            degree: 7,
            length: 128,
            first: &[3, 0, 0, 2, 0, 0, 2],
            rule: &[1, 3, 0, 0, 2, 0, 0],
        }),
        _ => None,
    }
}
