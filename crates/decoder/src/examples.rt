//! The worked examples of the definitions.
ghost use Rattle.std.specs.List.{AllByRecursion};
ghost use Rattle.decoder.specs.Examples.{Stands, examples};

/// Every worked example stands.
pub fn examples_hold()
    ensures { AllByRecursion Stands examples }
{}
