//! The worked examples of the definitions.
ghost use Rattle.std.specs.Prelude.{◌≡◌, length};
ghost use Rattle.samples.specs.Examples.{rows, Examples};

/// How many worked examples there are; each of them stands.
// stays: this public call answers the number; its contract has it equal to the length of the list
pub fn examples_stand() -> u8
    ensures count { result ≡ length rows }
    ensures all { Examples }
{
    14
}
