//! What decoding answers is determined by the file.
ghost use Rattle.std.specs.Prelude.{◌≡◌, ℕ, List};
ghost use Rattle.gateway.specs.Decoded.{FromFile};

use bay_calls::Numbers;

/// A file has one verdict.
pub fn files_have_one_verdict()
    ensures { (bs : List ℕ) (n k : Numbers) → FromFile bs n → FromFile bs k → n ≡ k }
{}
