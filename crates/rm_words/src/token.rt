ghost use Rattle.std.specs.Prelude.{◌≡◌, IfOk, min};
ghost use Rattle.std.specs.String.{string_bytes};
ghost use Rattle.std.specs.Str.Parse.{digits_value};
ghost use Rattle.rm_words.specs.Cut.{IsWordOf, word_at};
ghost use Rattle.rm_words.specs.Names.{name_of};
ghost use Rattle.rm_words.specs.Token.{AreDigits, capped, is_key, most, token_told, symbol_bytes, symbol_of, token_of, undoubled};

use crate::class::{Class, class_of};
use crate::spans::Span;
use rm_base::name::Name;
use std::alloc::{AllocError, Global};

/// A symbol of the statements' grammars.
#[derive(Clone, Copy, Debug, PartialEq, Eq)]
pub enum Symbol {
    AtMost,
    AtLeast,
    Unequal,
    Open,
    Close,
    Comma,
    Dot,
    Star,
    Equal,
    Less,
    Greater,
    Semicolon,
    Minus,
}

/// What a word of a text says.
#[derive(Clone, Copy, Debug)]
pub enum Token<'a> {
    /// A bare word as it stands, so in any case.
    Bare(&'a str),
    /// A number, or the greatest `u64` where it is greater.
    Number(u64),
    /// What stands between the quotes, with each `''` as it stands.
    Quoted(&'a str),
    Sign(Symbol),
}

impl Symbol {
    fn of(word: &str) -> Symbol
        ensures { result ≡ symbol_of word.now }
    {
        match word.as_bytes() {
            b"<=" => Symbol::AtMost,
            b">=" => Symbol::AtLeast,
            b"<>" => Symbol::Unequal,
            b"(" => Symbol::Open,
            b")" => Symbol::Close,
            b"," => Symbol::Comma,
            b"." => Symbol::Dot,
            b"*" => Symbol::Star,
            b"=" => Symbol::Equal,
            b"<" => Symbol::Less,
            b">" => Symbol::Greater,
            b";" => Symbol::Semicolon,
            _ => Symbol::Minus,
        }
    }

    /// How the symbol is written.
    pub fn text(self) -> &'static str
        ensures { result.now ≡ symbol_bytes self }
    {
        match self {
            Symbol::AtMost => "<=",
            Symbol::AtLeast => ">=",
            Symbol::Unequal => "<>",
            Symbol::Open => "(",
            Symbol::Close => ")",
            Symbol::Comma => ",",
            Symbol::Dot => ".",
            Symbol::Star => "*",
            Symbol::Equal => "=",
            Symbol::Less => "<",
            Symbol::Greater => ">",
            Symbol::Semicolon => ";",
            Symbol::Minus => "-",
        }
    }
}

impl Token<'_> {
    /// Whether the token is this key word, in any case.
    pub fn is_key(&self, key: &[u8]) -> bool
        ensures { result ≡ is_key (token_told self.now) key.now }
    {
        match self {
            Token::Bare(word) => word.as_bytes().eq_ignore_ascii_case(key),
            _ => false,
        }
    }

    /// The name that the token is.
    pub fn name(&self) -> Option<Name>
        ensures { result ≡ name_of (token_told self.now) }
    {
        match self {
            Token::Bare(word) => Name::of(word),
            _ => None,
        }
    }
}

/// The number that digits write, or the greatest `u64` where it is greater.
pub fn digits_value(digits: &[u8]) -> u64
    requires { AreDigits digits.now }
    ensures { result ≡ min (digits_value 10 digits.now) most }
{
    let mut value: u64 = 0;
    for byte in digits {
        value = value
            .saturating_mul(10)
            .saturating_add(u64::from(*byte - b'0'));
    }
    value
}

/// What the word at the span says.
pub fn token_at<'a>(text: &'a str, span: Span) -> Token<'a>
    requires { IsWordOf text.now span }
    ensures { token_told result ≡ capped (token_of (word_at text.now span)) }
{
    let (start, end) = (span.start as usize, span.end as usize);
    let word = &text[start..end];
    match class_of(text.as_bytes()[start]) {
        Class::Letter => Token::Bare(word),
        Class::Digit => Token::Number(digits_value(word.as_bytes())),
        Class::Quote => Token::Quoted(&text[start + 1..end - 1]),
        _ => Token::Sign(Symbol::of(word)),
    }
}

/// The text that a quoted word holds, with one `'` for each `''`.
pub fn undoubled(alloc: Global, text: &str) -> Result<String, AllocError>
    ensures { IfOk result (λ plain. string_bytes plain ≡ undoubled text.now) }
{
    let mut plain = String::new(alloc);
    let mut half = false;
    for c in text.chars() {
        if half && c == '\'' {
            half = false;
        } else {
            plain.push(c)?;
            half = c == '\'';
        }
    }
    Ok(plain)
}
