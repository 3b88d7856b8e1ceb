ghost use Rattle.std.specs.Prelude.{◌≡◌, All, IfErr, IfOk, None};
ghost use Rattle.rm_words.specs.Cut.{IsCut, IsWordOf, Stops};
ghost use Rattle.rm_words.specs.CutOf.{cut_of};

use crate::class::class_of;
use crate::scan::longest;
use crate::spans::{Cut, Span, Words, WordsError};
use std::alloc::{AllocError, Global};

/// Cuts a text into its words, up to the first place without one.
pub fn cut(alloc: Global, text: &[u8]) -> Result<Cut, AllocError>
    ensures cut { IfOk result (λ c. IsCut 0 text.now c.words c.stuck) }
    ensures hold { IfOk result (λ c. All (IsWordOf text.now) c.words) }
    ensures value { IfOk result (λ c. c ≡ cut_of text.now) }
{
    let mut spans = Vec::new(alloc);
    let mut at = 0;
    while at < text.len() {
        if class_of(text[at]).is_blank() {
            at += 1;
        } else if let Some(count) = longest(&text[at..]) {
            spans.push(Span {
                start: at as u64,
                end: (at + count) as u64,
            })?;
            at += count;
        } else {
            return Ok(Cut {
                words: Words::of(spans),
                stuck: Some(at as u64),
            });
        }
    }
    Ok(Cut {
        words: Words::of(spans),
        stuck: None,
    })
}

/// Cuts a text into its words, where it has words from its first byte to its last.
pub fn words(alloc: Global, text: &str) -> Result<Words, WordsError>
    ensures ok { IfOk result (λ spans. IsCut 0 text.now spans None) }
    ensures hold { IfOk result (λ spans. All (IsWordOf text.now) spans) }
    ensures err { IfErr result (Stops text.now) }
{
    let Cut { words, stuck } = cut(alloc, text.as_bytes())?;
    match stuck {
        None => Ok(words),
        Some(at) => Err(WordsError::At(at)),
    }
}
