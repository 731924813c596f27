//! Sums of messages.
ghost use Rattle.std.specs.Prelude.{◌≡◌, ℕ, suc, ◌+◌, ◌*◌, ◌%◌, ◌^◌, ◌<◌, ◌≤◌};
ghost use Rattle.kerdock.specs.Code.{sum_to, digit};
ghost use Rattle.kerdock.specs.Calls.{adds, WordsAdd};

use crate::refusals::Refusal;
use crate::rows::row_of;

// The base-4 digit k of a message.
pub(crate) fn digit(message: u32, k: usize) -> u8
    requires { k < 16 }
    ensures { result ≡ digit message k }
{
    // stays: `as` is proved to lose nothing, and `u8::try_from(..).unwrap()` says the same at more length
    ((message >> (2 * k)) % 4) as u8
}

// The sum of the lowest digits, each modulo 4, without carry.
fn sum_digits(count: usize, first: u32, second: u32) -> u32
    requires { count ≤ 8 }
    ensures { result ≡ sum_to (λ k. 4 ^ k * ((digit first k + digit second k) % 4)) count }
{
    (0..count)
        .map(|k| u32::from((digit(first, k) + digit(second, k)) % 4) << (2 * k))
        .sum()
}

/// The message whose word is the sum of two messages' words.
pub fn add_messages(degree: u8, first: u32, second: u32) -> Result<u32, Refusal>
    ensures answer { result ≡ adds degree first second }
    ensures words_add { WordsAdd degree first second result }
{
    let row = row_of(degree).ok_or(Refusal::Degree)?;
    let messages = row.messages();
    if first >= messages || second >= messages {
        return Err(Refusal::Message);
    }
    Ok(sum_digits(row.degree + 1, first, second))
}
