//! The numbers of a script.

ghost use Rattle.std.specs.Prelude.{◌≡◌, ◌^◌, ◌<◌, option_map};
ghost use Rattle.rm_base.specs.declared.limits.TheConstants.{DIGITS_MOST};
ghost use Rattle.sessions.specs.Numbers.{script_number, positive_of, cap_of};

use options::numeral::numeral_of;
use rm_base::limits::DIGITS_MOST;

/// A number of a script, as a type that knows how many digits it has at most. So it is a moment.
#[derive(Clone, Copy, PartialEq, Eq, Debug)]
pub struct Number {
    pub value: u64,
    ghost short: { value < 10 ^ DIGITS_MOST },
}

/// A number of a script.
pub fn script_number(word: &str) -> Option<u64>
    ensures { result ≡ script_number word.now }
{
    if word.len() > DIGITS_MOST {
        return None;
    }
    numeral_of(word)
}

/// A moment: a number of a script from 0 on.
pub fn moment_of(word: &str) -> Option<Number>
    ensures { option_map (λ n. n.value) result ≡ script_number word.now }
{
    let value = script_number(word)?;
    Some(Number { value })
}

/// A number of a script from 1 on: a floor, or a cap.
pub fn positive_of(word: &str) -> Option<u64>
    ensures { result ≡ positive_of word.now }
{
    script_number(word).filter(|number| *number >= 1)
}

/// A runtime cap in milliseconds, or `none`.
pub fn cap_of(word: &str) -> Option<Option<u64>>
    ensures { result ≡ cap_of word.now }
{
    match word {
        "none" => Some(None),
        _ => positive_of(word).map(Some),
    }
}
