//! What an event does that is not refused.
ghost use Rattle.std.specs.Prelude.{◌≡◌, true, false};

use rm_rules::answer::Answer;

/// How the event is answered, and whether it changed anything.
#[derive(Clone, Copy, Debug, PartialEq, Eq)]
pub struct Done {
    pub answer: Answer,
    pub changed: bool,
}

impl Done {
    /// An event that changes nothing.
    pub fn quiet(answer: Answer) -> Done
        ensures { result ≡ record { answer = answer; changed = false } }
    {
        Done {
            answer,
            changed: false,
        }
    }

    /// An event that leaves another state.
    pub fn changing(answer: Answer) -> Done
        ensures { result ≡ record { answer = answer; changed = true } }
    {
        Done {
            answer,
            changed: true,
        }
    }
}
