//! The ranking of messages by their scores.
ghost use Rattle.std.specs.Prelude.{◌≡◌, ℕ, ◌+◌, ◌*◌, ◌^◌, ◌<◌, ◌≤◌, ◌↔◌, IsTrue, length, ℤ, ◌≤ℤ◌, ◌<ℤ◌, unsigned_abs};
ghost use Rattle.samples.specs.Kind.{limit};
ghost use Rattle.samples.specs.Meaning.{reads};
ghost use Rattle.samples.specs.Sizes.{Within};
ghost use Rattle.samples.specs.Transform.{reading_at};
ghost use Rattle.kerdock.specs.Code.{Row, size, messages, sum_to};
ghost use Rattle.kerdock.specs.Sound.{Sound};
ghost use Rattle.decoder.specs.Cosets.{bit, message as message_of};
ghost use Rattle.decoder.specs.Visits.{Ranked, Apart, visit, Here};

use samples::Sample;

// The best message so far, its score, and the best score of any other.
// stays: that it is the ranking so far (`Ranked`) is no invariant of it, since the search takes any book and any sums, lawful or not
#[derive(Clone, Copy, PartialEq, Eq, Debug)]
pub(crate) struct Best {
    pub(crate) message: u32,
    pub(crate) score: i32,
    pub(crate) rival: i32,
}

impl Best {
    // No message so far: every score within the kinds' limit is above these, so that the first message takes the lead as any
    // other does.
    // stays: two scores below all within the limit, since an `Option<Best>` would be asked anew at every place
    pub(crate) fn nobody() -> Best
        ensures { (n : ℕ) (f : ℕ → ℤ) (key : ℕ → ℕ) → ((k : ℕ) → k < n → unsigned_abs (f k) ≤ limit) → Ranked n f key 0 result }
    {
        Best {
            message: 0,
            score: i32::MIN,
            rival: i32::MIN,
        }
    }

    // One message more: it takes the lead with a higher score, or an equal one and a smaller number.
    fn consider(&mut self, message: u32, score: i32)
        ensures { (n : ℕ) (f : ℕ → ℤ) (key : ℕ → ℕ) (t : ℕ) → Ranked n f key t self.old → Apart n key → message < n → key message ≡ t → f message ≡ score → Ranked n f key (t + 1) self.new }
    {
        if score > self.score || score == self.score && message < self.message {
            *self = Best {
                message,
                score,
                rival: self.score,
            };
        } else if score > self.rival {
            self.rival = score;
        }
    }

    // Whether no score up to `top` can change the ranking. At the best score itself a smaller message still could.
    fn passes_over(&self, top: i32) -> bool
        ensures { IsTrue result ↔ ((top ≤ℤ self.now.rival) × (top <ℤ self.now.score)) }
    {
        top <= self.rival && top < self.score
    }

    // Ranks the four messages that the sample at one place reads, by the symbols 0, 3, 2, 1.
    fn rank_place<S: Sample>(&mut self, mut x: S, base: u32)
        requires { base ≤ 65532 }
        ensures { (n : ℕ) (f : ℕ → ℤ) (key : ℕ → ℕ) (t : ℕ) → Ranked n f key t self.old → Apart n key → (S.means x).size ≤ limit → ((e : ℕ) → e < 4 → Here n f key t base (S.means x) e) → Ranked n f key (t + 4) self.new }
    {
        for symbol in [0, 3, 2, 1] {
            self.consider(base + symbol, x.front());
            x = x.turn();
        }
    }

    // Ranks the messages of coset u, whose scores the transformed samples read. A coset whose greatest reading cannot change
    // the ranking is passed over whole, and so is such a place.
    pub(crate) fn rank_coset<S: Sample>(&mut self, work: &[S], u: usize)
        requires few { length work.now ≤ 128 }
        requires coset { u < 128 }
        ensures { (row : Row) (f : ℕ → ℤ) → Sound row → length work.now ≡ size row → u < size row → Ranked (messages row) f (visit row) (4 * (u * size row)) self.old → Within S.Sample limit work.now → ((v e : ℕ) → v < size row → e < 4 → f (message_of row e u v) ≡ reading_at S.Sample work.now v e) → Ranked (messages row) f (visit row) (4 * ((u + 1) * size row)) self.new }
    {
        if self.passes_over(peak(work)) {
            return;
        }
        // stays: `as` is proved to lose nothing at u and v, and `try_from` would answer an error that cannot come
        let lower = spread(u as u32);
        for (v, x) in work.iter().enumerate() {
            if !self.passes_over(peak_of(*x)) {
                self.rank_place(*x, 4 * (lower + 2 * spread(v as u32)));
            }
        }
    }
}

// The greatest of the four readings of a sample.
fn peak_of<S: Sample>(x: S) -> i32
    ensures { (S.means x).size ≤ limit → (e : ℕ) → e < 4 → reads (S.means x) e ≤ℤ result }
{
    let y = x.turn();
    let z = y.turn();
    let w = z.turn();
    x.front().max(y.front()).max(z.front().max(w.front()))
}

// The greatest reading of all samples.
fn peak<S: Sample>(work: &[S]) -> i32
    ensures { Within S.Sample limit work.now → (v e : ℕ) → v < length work.now → e < 4 → reading_at S.Sample work.now v e ≤ℤ result }
{
    work.iter().map(|x| peak_of(*x)).max().unwrap_or(i32::MIN)
}

// The seven lowest bits of a number, bit k as the base-4 digit k.
fn spread(x: u32) -> u32
    ensures is { result ≡ sum_to (λ k. 4 ^ k * bit x k) 7 }
    ensures below { 3 * result < 4 ^ 7 }
{
    let mut sum = 0;
    for k in (0..7u32).rev() {
        sum = 4 * sum + (x >> k) % 2;
    }
    sum
}
