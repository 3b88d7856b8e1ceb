ghost use Rattle.std.specs.Prelude.{◌≡◌};
ghost use Rattle.pool_sql.specs.Text.{refusal_at};

use rm_base::refusal::{Parameter, Refusal};

/// Why a word ends the reading of a statement.
#[derive(Clone, Copy)]
pub enum Stop {
    Syntax,
    Unknown,
    Repeated(Parameter),
    NotSupported,
    Range(Parameter),
}

/// Why a word gives no amount: it has another form, or it is outside its range.
#[derive(Clone, Copy)]
pub enum Fault {
    Form,
    Outside,
}

impl Stop {
    /// The refusal at a word that starts at this place.
    pub fn at(self, place: u64) -> Refusal
        ensures { result ≡ refusal_at place self }
    {
        match self {
            Stop::Syntax => Refusal::Syntax(place),
            Stop::Unknown => Refusal::UnknownParameter(place),
            Stop::Repeated(parameter) => Refusal::Repeated(parameter),
            Stop::NotSupported => Refusal::NotSupported(place),
            Stop::Range(parameter) => Refusal::Range(parameter),
        }
    }
}
