ghost use Rattle.std.specs.Prelude.{◌≡◌, ◌≤◌, ◌-◌, ◌++◌, ◌↔◌, true, length, replicate, IsSome, IfSome};
ghost use Rattle.std.specs.List.{list_all, list_any};
ghost use Rattle.std.specs.Str.{bytes_eq, str_to_ascii_lowercase};
ghost use Rattle.rm_base.specs.NameText.{keeps_name, begins_name, continues_name, is_bare, is_reserved, is_name_text, text_in};

use crate::limits::NAME_MOST;
use std::{fmt, str};

/// A name of a pool, a user, a role, a table or a column: 1 to 32 bytes, in lower case.
#[derive(Clone, Copy, Debug, PartialEq, Eq, PartialOrd, Ord, Hash)]
pub struct Name {
    bytes: [u8; NAME_MOST],
    ghost kept: { keeps_name bytes ≡ true },
}

impl Name {
    ghost use Rattle.rm_base.specs.Name.{name_text, name_of, same_name, general, dbadmin};

    /// The name that a text spells, in any case.
    pub fn of(text: &str) -> Option<Name>
        ensures valid { IsSome result ↔ (is_name_text (str_to_ascii_lowercase text.now) ≡ true) }
        ensures text { IfSome result (λ name. name_text name ≡ str_to_ascii_lowercase text.now) }
        ensures name { result ≡ name_of text.now }
    {
        Name::spelled(text)
    }

    fn spelled(text: &str) -> Option<Name>
        ensures valid { IsSome result ↔ (is_name_text (str_to_ascii_lowercase text.now) ≡ true) }
        ensures text { IfSome result (λ name. name_text name ≡ str_to_ascii_lowercase text.now) }
    {
        let text = text.as_bytes();
        if text.len() > NAME_MOST {
            return None;
        }
        let bytes = lowered(text);
        if is_name_text(&bytes[..text.len()]) {
            Some(Name { bytes })
        } else {
            None
        }
    }

    /// The name in lower case.
    pub fn as_str(&self) -> &str
        ensures { result.now ≡ name_text self.now }
    {
        let len = text_len(&self.bytes);
        str::from_utf8(&self.bytes[..len]).unwrap()
    }

    /// The pool that all others borrow from.
    pub fn general() -> Name
        ensures { result ≡ general }
    {
        Name {
            bytes: *b"general\0\0\0\0\0\0\0\0\0\0\0\0\0\0\0\0\0\0\0\0\0\0\0\0\0",
        }
    }

    /// The user that is there from the start, and may use every pool.
    pub fn dbadmin() -> Name
        ensures { result ≡ dbadmin }
    {
        Name {
            bytes: *b"dbadmin\0\0\0\0\0\0\0\0\0\0\0\0\0\0\0\0\0\0\0\0\0\0\0\0\0",
        }
    }

    /// Whether two names are one.
    pub fn same(self, other: Name) -> bool
        ensures { result ≡ same_name self other }
    {
        self.bytes == other.bytes
    }

    /// Names whose texts are equal are one.
    pub fn one_name()
        ensures { (a b : Name) → name_text a ≡ name_text b → a ≡ b }
    {}
}

impl fmt::Display for Name {
    ghost use Rattle.std.specs.Prelude.{Some};
    ghost use Rattle.rm_base.specs.Name.{name_text};

    ghost output = { λ name. Some (name_text name) };

    fn fmt<W: fmt::Write>(&self, f: &mut fmt::Formatter<W>) -> fmt::Result {
        f.write_str(self.as_str())
    }
}

/// The words that are no names.
const RESERVED: [&str; 22] = [
    "and", "as", "asc", "auto", "by", "count", "default", "desc", "from", "group", "hold", "join",
    "left", "limit", "max", "min", "none", "on", "order", "select", "sum", "where",
];

/// The text in lower case, with zeros behind it.
fn lowered(text: &[u8]) -> [u8; NAME_MOST]
    requires { length text.now ≤ NAME_MOST }
    ensures { result ≡ str_to_ascii_lowercase text.now ++ replicate (NAME_MOST - length text.now) 0 }
{
    let mut bytes = [0; NAME_MOST];
    let front = &mut bytes[..text.len()];
    front.copy_from_slice(text);
    front.make_ascii_lowercase();
    bytes
}

fn begins_name(byte: u8) -> bool
    ensures { result ≡ begins_name byte }
{
    byte.is_ascii_lowercase() || byte == b'_'
}

fn continues_name(byte: u8) -> bool
    ensures { result ≡ continues_name byte }
{
    begins_name(byte) || byte.is_ascii_digit()
}

fn is_bare(text: &[u8]) -> bool
    ensures { result ≡ is_bare text.now }
{
    match text {
        [] => false,
        [first, rest @ ..] => begins_name(*first) && all_continue(rest),
    }
}

fn all_continue(text: &[u8]) -> bool
    ensures { result ≡ list_all continues_name text.now }
{
    text.iter().all(|byte| continues_name(*byte))
}

fn is_reserved(text: &[u8]) -> bool
    ensures { result ≡ is_reserved text.now }
{
    is_among(text, &RESERVED)
}

fn is_among(text: &[u8], words: &[&str]) -> bool
    ensures { result ≡ list_any (λ word. bytes_eq text.now word.now) words.now }
{
    words.iter().any(|word| text == word.as_bytes())
}

fn is_name_text(text: &[u8]) -> bool
    ensures { result ≡ is_name_text text.now }
{
    is_bare(text) && text.len() <= NAME_MOST && !is_reserved(text)
}

/// How many bytes stand before the first zero.
fn text_len(bytes: &[u8]) -> usize
    ensures { result ≡ length (text_in bytes.now) }
{
    for (i, byte) in bytes.iter().enumerate() {
        if *byte == 0 {
            return i;
        }
    }
    bytes.len()
}
