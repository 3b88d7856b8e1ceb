//! Texts, and how they are cut into words.

use crate::tests::whole_text;
use rm_words::cutting::{cut, words};
use rm_words::spans::{Cut, Span, WordsError};
use rm_words::token::{Token, token_at, undoubled};
use std::alloc::{AllocError, Global};
use std::process::Abort;
use std::test::Fail;

/// A text, and where its words start and end, and the place where there is no word.
static CUTS: &str = "\
CREATE RESOURCE POOL a1 => 0-6 7-15 16-20 21-23 whole
 => whole
 ␉␍␊ => whole
␉x␍␊ y  => 1-2 5-6 whole
a<=b>=c<>d => 0-1 1-3 3-4 4-6 6-7 7-9 9-10 whole
>== => 0-2 2-3 whole
<>> => 0-2 2-3 whole
<<= => 0-1 1-3 whole
=> => 0-1 1-2 whole
(),.*;- => 0-1 1-2 2-3 3-4 4-5 5-6 6-7 whole
12ab_3 _x9 => 0-2 2-6 7-10 whole
10 -5 => 0-2 3-4 4-5 whole
'it''s' 'a b' => 0-7 8-13 whole
'' '''' => 0-2 3-7 whole
'é' b => 0-4 5-6 whole
''' => 0-2 stuck 2
'a'' => 0-3 stuck 3
x 'abc => 0-1 stuck 2
a!=b => 0-1 stuck 1
a § b => 0-1 stuck 2
a\u{a0}b => 0-1 stuck 1
\u{b}a => stuck 0
a, b => 0-1 1-2 3-4 whole
a \"b\" => 0-1 stuck 2
'a' 'b => 0-3 stuck 4
? => stuck 0
";

/// A word, and what it says.
static TOKENS: &str = "\
Select => Bare(\"Select\")
007 => Number(7)
18446744073709551615 => Number(18446744073709551615)
18446744073709551616 => Number(18446744073709551615)
'it''s' => Quoted(\"it''s\")
'' => Quoted(\"\")
<= => Sign(AtMost)
>= => Sign(AtLeast)
<> => Sign(Unequal)
( => Sign(Open)
) => Sign(Close)
, => Sign(Comma)
. => Sign(Dot)
* => Sign(Star)
= => Sign(Equal)
< => Sign(Less)
> => Sign(Greater)
; => Sign(Semicolon)
- => Sign(Minus)
";

/// What stands between two quotes, and the text that it holds.
static QUOTED: &str = "\
it''s => it's
 => 
''''a'' => ''a'
é''§ => é'§
";

/// A text of a million pieces and more, how many words it has, and the place where there is no word.
static LONG: &str = "\
{  } => 0 whole
{a } => 1000000 whole
{''} => 1 whole
{abc} => 1 whole
{'a}'a => 1000000 stuck 2000000
";

/// Where a cut ends, as the cases write it.
fn end_of(alloc: Global, stuck: Option<u64>) -> Result<String, AllocError> {
    match stuck {
        None => String::from_str(alloc, "whole"),
        Some(place) => format!(in alloc; "stuck {place}"),
    }
}

/// The places of the words and where the cut ends, as the cases write them.
fn places(alloc: Global, cut: &Cut) -> Result<String, AllocError> {
    let mut told = String::new(alloc);
    for Span { start, end } in cut.words.as_slice() {
        told.push_str(format!(in alloc; "{start}-{end} ")?.as_str())?;
    }
    told.push_str(end_of(alloc, cut.stuck)?.as_str())?;
    Ok(told)
}

fn check_cut(rt: &impl Abort, alloc: Global, case: &str) -> Result<(), Fail> {
    let (text, expected) = case.rsplit_once(" => ").ok_or("no =>")?;
    let text = whole_text(alloc, text)?;
    let found = cut(alloc, text.as_bytes())?;
    assert_eq!(rt; places(alloc, &found)?.as_str(), expected, "{case}");
    match words(alloc, text.as_str()) {
        Ok(all) => {
            assert_eq!(rt; found.stuck, None, "{case}");
            assert!(rt; all.as_slice() == found.words.as_slice(), "{case}");
        }
        Err(error) => assert_eq!(rt; Some(error), found.stuck.map(WordsError::At), "{case}"),
    }
    Ok(())
}

#[test]
fn texts_are_cut_into_words(rt: HostRuntime) -> Result<(), Fail> {
    for case in CUTS.lines() {
        check_cut(&rt, rt.alloc(), case)?;
    }
    Ok(())
}

fn check_token(rt: &impl Abort, alloc: Global, case: &str) -> Result<(), Fail> {
    let (word, expected) = case.split_once(" => ").ok_or("no =>")?;
    let found = words(alloc, word).ok().ok_or("no words")?;
    let [span] = found.as_slice() else {
        return Err("not one word")?;
    };
    let token = token_at(word, *span);
    assert_eq!(rt;
        format!(in alloc; "{token:?}")?.as_str(),
        expected,
        "{case}"
    );
    assert_eq!(rt; token.is_key(b"SELECT"), word == "Select", "{case}");
    if let Token::Sign(symbol) = token {
        assert_eq!(rt; symbol.text(), word, "{case}");
    }
    Ok(())
}

#[test]
fn words_say_what_they_write(rt: HostRuntime) -> Result<(), Fail> {
    for case in TOKENS.lines() {
        check_token(&rt, rt.alloc(), case)?;
    }
    Ok(())
}

#[test]
fn quotes_are_undoubled(rt: HostRuntime) -> Result<(), Fail> {
    for case in QUOTED.lines() {
        let (text, expected) = case.split_once(" => ").ok_or("no =>")?;
        let plain = undoubled(rt.alloc(), text)?;
        assert_eq!(rt; plain.as_str(), expected, "{case}");
    }
    Ok(())
}

/// A scan that read on behind each word would not end here.
#[test]
fn long_texts_are_cut(rt: HostRuntime) -> Result<(), Fail> {
    for case in LONG.lines() {
        let (text, expected) = case.rsplit_once(" => ").ok_or("no =>")?;
        let text = whole_text(rt.alloc(), text)?;
        let found = cut(rt.alloc(), text.as_bytes())?;
        let count = found.words.as_slice().len();
        let end = end_of(rt.alloc(), found.stuck)?;
        let told = format!(in rt.alloc(); "{count} {end}")?;
        assert_eq!(rt; told.as_str(), expected, "{case}");
    }
    Ok(())
}
