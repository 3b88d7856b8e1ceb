ghost use Rattle.std.specs.Prelude.{◌≡◌, Ok, All, IfOk, IfErr};
ghost use Rattle.rm_words.specs.Cut.{IsWordOf};
ghost use Rattle.query_plan.specs.declared.progress.Progress.TheVariants.{Start};
ghost use Rattle.query_plan.specs.Reading.{IsReadAsNone, IsReadError, ends, raw_of, read_of, read_on};
ghost use Rattle.query_plan.specs.Resolving.{IsAnswer};
ghost use Rattle.query_plan.specs.Text.{SpellsText};

use crate::plan::Plan;
use crate::progress::Progress;
use crate::raw::RawSelect;
use crate::resolving::resolved;
use rm_base::catalog::Catalog;
use rm_base::refusal::Refusal;
use rm_words::cutting::cut;
use rm_words::spans::{Cut, Span};
use rm_words::token::token_at;
use std::alloc::{AllocError, Global};

/// Why a text is not read.
#[derive(Clone, Copy, Debug, PartialEq, Eq)]
pub enum ReadError {
    Refused(Refusal),
    Memory,
}

impl From<AllocError> for ReadError {
    ghost use Rattle.std.specs.Prelude.{◌≡◌};
    ghost use Rattle.query_plan.specs.declared.reading.ReadError.TheVariants.{Memory};

    ghost from_gives = { λ _ e. e ≡ Memory };

    fn from(_error: AllocError) -> ReadError {
        ReadError::Memory
    }
}

/// Where the words end: with the text, or at a place without a word.
fn end_of(
    catalog: &Catalog,
    progress: Progress,
    text: &str,
    stuck: Option<u64>,
) -> Result<RawSelect, ReadError>
    ensures { IsAnswer (ends catalog.now text.now stuck progress) result }
{
    if let Some(place) = stuck {
        return Err(ReadError::Refused(Refusal::Syntax(place)));
    }
    match progress.finish() {
        Ok(Some(raw)) => Ok(raw),
        Ok(None) => Err(ReadError::Refused(Refusal::Syntax(text.len() as u64))),
        Err(_) => Err(ReadError::Memory),
    }
}

fn read_words(
    alloc: Global,
    catalog: &Catalog,
    text: &str,
    words: &[Span],
    stuck: Option<u64>,
) -> Result<RawSelect, ReadError>
    requires { All (IsWordOf text.now) words.now }
    ensures { IsAnswer (read_on catalog.now text.now stuck Start words.now) result }
{
    let mut progress = Progress::Start;
    for span in words {
        progress = match progress.step(alloc, catalog, span.start, &token_at(text, *span)) {
            Ok(Some(next)) => next,
            Ok(None) => return Err(ReadError::Refused(Refusal::Syntax(span.start))),
            Err(_) => return Err(ReadError::Memory),
        };
    }
    end_of(catalog, progress, text, stuck)
}

/// The SELECT that the words of a text are.
fn read_raw(alloc: Global, catalog: &Catalog, text: &str) -> Result<RawSelect, ReadError>
    ensures { IsAnswer (raw_of catalog.now text.now) result }
{
    let Cut { words, stuck } = cut(alloc, text.as_bytes())?;
    read_words(alloc, catalog, text, words.as_slice(), stuck)
}

/// Reads a SELECT over the tables of a catalog.
pub fn read_select(alloc: Global, text: &str, catalog: &Catalog) -> Result<Plan, ReadError>
    ensures plan { IfOk result (SpellsText catalog.now text.now) }
    ensures refused { IfErr result (IsReadError catalog.now text.now) }
    ensures read { IfOk result (λ plan. read_of catalog.now text.now ≡ Ok plan) }
    ensures read_as_none { IfErr result (IsReadAsNone catalog.now text.now) }
{
    match read_raw(alloc, catalog, text) {
        Ok(raw) => resolved(alloc, catalog, &raw),
        Err(error) => Err(error),
    }
}
