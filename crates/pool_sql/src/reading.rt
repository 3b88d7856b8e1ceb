ghost use Rattle.std.specs.Prelude.{◌≡◌, true, Ok, All, IfOk, IfErr};
ghost use Rattle.rm_base.specs.Ranges.{is_statement_in_range};
ghost use Rattle.rm_base.specs.WellFormed.{IsWellFormed};
ghost use Rattle.rm_words.specs.Cut.{IsWordOf};
ghost use Rattle.pool_sql.specs.declared.progress.Progress.TheVariants.{Start};
ghost use Rattle.pool_sql.specs.Reading.{IsReadAsNone, IsReadError, ends, read_of, read_on};
ghost use Rattle.pool_sql.specs.Text.{SpellsText};

use crate::progress::Progress;
use rm_base::refusal::Refusal;
use rm_base::statement::Statement;
use rm_words::cutting::cut;
use rm_words::spans::{Cut, Span};
use rm_words::token::token_at;
use std::alloc::{AllocError, Global};

/// Why a text is not read.
#[derive(Clone, Copy, Debug, PartialEq, Eq)]
pub enum ReadError {
    Refused(Refusal),
    Memory,
}

impl From<AllocError> for ReadError {
    ghost use Rattle.std.specs.Prelude.{◌≡◌};
    ghost use Rattle.pool_sql.specs.declared.reading.ReadError.TheVariants.{Memory};

    ghost from_gives = { λ _ e. e ≡ Memory };

    fn from(_error: AllocError) -> ReadError {
        ReadError::Memory
    }
}

/// Where the words end: with the text, or at a place without a word.
fn end_of(progress: Progress, text: &str, stuck: Option<u64>) -> Result<Statement, Refusal>
    ensures { result ≡ ends text.now stuck progress }
{
    match (stuck, progress.finish()) {
        (Some(place), _) => Err(Refusal::Syntax(place)),
        (None, Some(statement)) => Ok(statement),
        (None, None) => Err(Refusal::Syntax(text.len() as u64)),
    }
}

fn read_words(text: &str, words: &[Span], stuck: Option<u64>) -> Result<Statement, Refusal>
    requires { All (IsWordOf text.now) words.now }
    ensures { result ≡ read_on text.now stuck Start words.now }
{
    let mut progress = Progress::Start;
    for span in words {
        progress = match progress.step(&token_at(text, *span)) {
            Ok(next) => next,
            Err(stop) => return Err(stop.at(span.start)),
        };
    }
    end_of(progress, text, stuck)
}

/// Reads a statement on pools, users, roles or grants.
pub fn read_statement(alloc: Global, text: &str) -> Result<Statement, ReadError>
    ensures statement { IfOk result (SpellsText text.now) }
    ensures refused { IfErr result (IsReadError text.now) }
    ensures read { IfOk result (λ statement. read_of text.now ≡ Ok statement) }
    ensures read_as_none { IfErr result (IsReadAsNone text.now) }
    ensures well_formed { IfOk result IsWellFormed }
    ensures in_range { IfOk result (λ statement. is_statement_in_range statement ≡ true) }
{
    let Cut { words, stuck } = cut(alloc, text.as_bytes())?;
    match read_words(text, words.as_slice(), stuck) {
        Ok(statement) => Ok(statement),
        Err(refusal) => Err(ReadError::Refused(refusal)),
    }
}
