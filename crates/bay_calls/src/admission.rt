//! Which calls a bay lets in at which stage.
ghost use Rattle.std.specs.Prelude.{◌≡◌};
ghost use Rattle.bay_calls.specs.Admission.{admitted};

use crate::standing::Stage;
use bay_rules::{Denial, Numbers};

/// The call that arrives; the answers to a verdict, accept, repeat and drop, are let in alike.
#[derive(Clone, Copy)]
pub(crate) enum Call {
    Take,
    Decide,
    Clear,
    Answer(Numbers),
}

impl Stage {
    /// Whether the call is let in; the denials that depend on the stage alone.
    pub(crate) fn admit(self, call: Call) -> Result<(), Denial>
        ensures { result ≡ admitted self call }
    {
        // stays: by the rule of the bay the stage is matched together with the call that arrives
        match (self, call) {
            (Stage::Shut, _) => Err(Denial::Shut),
            (Stage::Gathering, Call::Take | Call::Decide | Call::Clear) => Ok(()),
            (Stage::Waiting(_), Call::Take | Call::Decide | Call::Clear) => Err(Denial::VerdictOut),
            (Stage::Waiting(noted), Call::Answer(given)) if given == noted => Ok(()),
            (Stage::Gathering | Stage::Waiting(_), Call::Answer(_)) => Err(Denial::Misfit),
        }
    }
}
