//! The lines of a script.

ghost use Rattle.std.specs.Prelude.{◌≡◌, ◌<◌, [], ◌∷◌, length, is_some, IfSome, MatchOption};
ghost use Rattle.std.specs.Str.Lines.{lines, strip_carriage_return};
ghost use Rattle.sessions.specs.Lines.{is_readable};

use memchr::memchr;
use rm_base::limits::LINE_MOST;

/// The first line of a text and what follows it, if the text has a line.
///
/// It looks at each byte of the line once and copies none.
pub fn cut_line(text: &[u8]) -> Option<(&[u8], &[u8])>
    ensures line { MatchOption result (lines text.now ≡ [])
        (λ cut. lines text.now ≡ cut.0.now ∷ lines cut.1.now) }
    ensures shorter { IfSome result (λ cut. length cut.1.now < length text.now) }
{
    if text.is_empty() {
        return None;
    }
    match memchr(b'\n', text) {
        None => Some((text, &[])),
        Some(end) => Some((without_return(&text[..end]), &text[end + 1..])),
    }
}

/// The text of a line that is not too long and is UTF-8.
pub fn readable(line: &[u8]) -> Option<&str>
    ensures readable { is_some result ≡ is_readable line.now }
    ensures text { IfSome result (λ text. text.now ≡ line.now) }
{
    if line.len() > LINE_MOST {
        return None;
    }
    std::str::from_utf8(line).ok()
}

/// The bytes before a line feed, without the one carriage return at their end.
fn without_return(line: &[u8]) -> &[u8]
    ensures { result.now ≡ strip_carriage_return line.now }
{
    line.strip_suffix(b"\r").unwrap_or(line)
}
