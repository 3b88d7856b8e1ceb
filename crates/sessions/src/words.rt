//! The words of a line.

ghost use Rattle.std.specs.Prelude.{◌≡◌, map, option_map, IfOk};
ghost use Rattle.sessions.specs.Words.{has_outer_space, line_words, one_behind, two_behind, three_behind};

use std::alloc::{AllocError, Global};

/// The words of a line; none for a line that begins or ends with a space.
pub fn line_words(alloc: Global, line: &str) -> Result<Vec<&str>, AllocError>
    ensures { IfOk result (λ parts. map (λ part. part.now) parts.items ≡ line_words line.now) }
{
    if has_outer_space(line) {
        return Ok(Vec::new(alloc));
    }
    line.split(' ')
        .filter(|piece| !piece.is_empty())
        .collect(alloc)
}

/// Whether a line begins or ends with a space.
fn has_outer_space(line: &str) -> bool
    ensures { result ≡ has_outer_space line.now }
{
    line.starts_with(' ') || line.ends_with(' ')
}

/// The one word behind the first, where there are two words.
pub fn one_behind<'a>(words: &[&'a str]) -> Option<&'a str>
    ensures { option_map (λ word. word.now) result
        ≡ one_behind (map (λ word. word.now) words.now) }
{
    match words {
        [_, second] => Some(second),
        _ => None,
    }
}

/// The two words behind the first, where there are three words.
pub fn two_behind<'a>(words: &[&'a str]) -> Option<(&'a str, &'a str)>
    ensures { option_map (λ pair. (pair.0.now, pair.1.now)) result
        ≡ two_behind (map (λ word. word.now) words.now) }
{
    match words {
        [_, second, third] => Some((second, third)),
        _ => None,
    }
}

/// The three words behind the first, where there are four words.
pub fn three_behind<'a>(words: &[&'a str]) -> Option<(&'a str, &'a str, &'a str)>
    ensures { option_map (λ triple. (triple.0.now, triple.1.now, triple.2.now)) result
        ≡ three_behind (map (λ word. word.now) words.now) }
{
    match words {
        [_, second, third, fourth] => Some((second, third, fourth)),
        _ => None,
    }
}
