//! Encoding: a message to its word.
ghost use Rattle.std.specs.Prelude.{◌≡◌, length, if◌then◌else◌, Some, None};
ghost use Rattle.kerdock.specs.Code.{size};
ghost use Rattle.kerdock.specs.Table.{row_of, known};
ghost use Rattle.kerdock.specs.Calls.{encodes, Written, ComesBack, Alone};

use crate::code::Code;
use crate::refusals::Refusal;
use crate::rows::row_of;

/// How many symbols a word of the degree has.
pub fn word_length(degree: u8) -> Option<usize>
    ensures { result ≡ (if known degree then Some (size (row_of degree)) else None) }
{
    row_of(degree).map(|row| row.length)
}

/// The word of a message, in the caller's memory.
pub fn encode(degree: u8, message: u32, word: &mut [u8]) -> Result<(), Refusal>
    ensures answer { result ≡ encodes degree message (length word.old) }
    ensures written { Written degree message word.old word.new result }
    ensures comes_back { ComesBack degree message word.new result }
    ensures alone { Alone degree message word.new result }
{
    let row = row_of(degree).ok_or(Refusal::Degree)?;
    if message >= row.messages() {
        return Err(Refusal::Message);
    }
    if word.len() != row.length {
        return Err(Refusal::Memory);
    }
    Code::new(row).write_word(message, word);
    Ok(())
}
