//! How answers are printed, one a line.
use bay_calls::Denial;
use std::fmt::Display;
use std::io;

/// A line with what was answered, the numbers of a verdict or a count of receptions, or why there is none.
pub(crate) fn say<T: Display + Drop>(
    rt: &HostRuntime,
    name: &str,
    answer: Result<T, Denial>,
) -> io::Result<()> {
    match answer {
        Ok(told) => println!(rt; "{name}: {told}"),
        Err(denial) => println!(rt; "{name}: {denial}"),
    }
}
