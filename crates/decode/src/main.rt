//! Decodes a reception file from standard input, and prints the outcome as one line.
#![tactic(auto)]

ghost use Rattle.std.specs.Prelude.{◌≤◌, length, IfOk};

use gateway::line;
use std::io;
use std::io::Read;

/// The most that is read: one byte more than the longest file has, so that a longer one is refused by its length.
const MOST: usize = 16393;

/// Reads until the input ends or the buffer is full, and answers how many bytes came. A turn that does not end it reads one
/// byte at least, so there are no more turns than bytes.
// stays: the buffer lies in the program, since reading into a `Vec` would be a second way to run out of memory
fn fill(input: &mut impl Read, buffer: &mut [u8]) -> io::Result<usize>
    ensures { IfOk result (λ n. n ≤ length buffer.old) }
{
    let mut filled = 0;
    for _ in 0..buffer.len() {
        let came = input.read(&mut buffer[filled..])?;
        if came == 0 {
            break;
        }
        filled += came;
    }
    Ok(filled)
}

fn main(rt: HostRuntime) -> io::Result<()> {
    let mut buffer = [0; MOST];
    let count = fill(&mut rt.stdin(), &mut buffer)?;
    let text = line(&buffer[..count], rt.alloc())?;
    println!(rt; "{text}")
}
