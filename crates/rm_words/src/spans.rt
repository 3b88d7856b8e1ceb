use std::alloc::AllocError;
use std::marker::Model;

/// A part of a text: from a byte's place to the place behind the last.
#[derive(Clone, Copy, Debug, PartialEq, Eq)]
pub struct Span {
    pub start: u64,
    pub end: u64,
}

/// The words of a text, in order.
#[derive(Debug, Drop)]
pub struct Words {
    spans: Vec<Span>,
}

impl Model for Words {
    ghost use Rattle.std.specs.Prelude.{List};
    ghost use Rattle.rm_words.specs.declared.spans.Span.{Span};

    ghost Value = { List Span };

    ghost view = { λ w. w.spans.items };
}

impl Words {
    ghost use Rattle.std.specs.Prelude.{◌≡◌};

    pub(crate) fn of(spans: Vec<Span>) -> Self
        ensures { result ≡ spans.items }
    {
        Words { spans }
    }

    pub fn as_slice(&self) -> &[Span]
        ensures { result.now ≡ self.now }
    {
        &self.spans
    }
}

/// What the cut of a text gives: its words before the first place without a word, and that place.
#[derive(Debug, Drop)]
pub struct Cut {
    pub words: Words,
    pub stuck: Option<u64>,
}

/// Why a text is not cut into words from its first byte to its last.
#[derive(Clone, Copy, Debug, PartialEq, Eq)]
pub enum WordsError {
    /// The first place where there is no word.
    At(u64),
    Memory,
}

impl From<AllocError> for WordsError {
    ghost use Rattle.std.specs.Prelude.{◌≡◌};
    ghost use Rattle.rm_words.specs.declared.spans.WordsError.TheVariants.{Memory};

    ghost from_gives = { λ _ e. e ≡ Memory };

    fn from(_error: AllocError) -> WordsError {
        WordsError::Memory
    }
}
