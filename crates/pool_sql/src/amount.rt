ghost use Rattle.std.specs.Prelude.{◌≡◌, ◌-◌, ◌*◌, ◌^◌, ◌<◌, ◌≤◌, length};
ghost use Rattle.std.specs.List.{list_any};
ghost use Rattle.std.specs.Str.{bytes_eq};
ghost use Rattle.rm_words.specs.Class.{class_of};
ghost use Rattle.rm_words.specs.Word.{is_digit};
ghost use Rattle.rm_words.specs.Token.{token_told};
ghost use Rattle.pool_sql.specs.Amount.{bytes_in, digit_count, ms_in, number_between, percent_in, size_in, size_in_text, size_of, span_in, span_in_text, span_of, timeout_of, unit_bytes, unit_ms, within};

use crate::stop::Fault;
use rm_base::limits::{
    GIBI, HOUR_MS, KIBI, MEBI, MEMORY_MOST, MINUTE_MS, PERCENT_MOST, SECOND_MS, SPAN_MOST, TEBI,
};
use rm_base::statement::Size;
use rm_words::token::{Token, digits_value};

fn within(least: u64, most: u64, number: u64) -> Result<u64, Fault>
    ensures { result ≡ within least most number }
{
    if least <= number && number <= most {
        Ok(number)
    } else {
        Err(Fault::Outside)
    }
}

/// So many of a unit.
fn scaled(least: u64, most: u64, number: u64, unit: u64) -> Result<u64, Fault>
    requires { most < 2 ^ 64 - 1 }
    ensures { result ≡ within least most (number * unit) }
{
    match number.checked_mul(unit) {
        Some(product) => within(least, most, product),
        None => Err(Fault::Outside),
    }
}

/// The number that a word writes, where it is between a least and a greatest one.
pub fn number_between(least: u64, most: u64, token: &Token) -> Result<u64, Fault>
    ensures { result ≡ number_between least most (token_told token.now) }
{
    match token {
        Token::Number(number) => within(least, most, *number),
        _ => Err(Fault::Form),
    }
}

fn is_digit(byte: u8) -> bool
    ensures { result ≡ is_digit (class_of byte) }
{
    byte.is_ascii_digit()
}

/// With how many digits the text begins.
fn digit_count(text: &[u8]) -> usize
    ensures count { result ≡ digit_count text.now }
    ensures within { result ≤ length text.now }
{
    for (i, byte) in text.iter().enumerate() {
        if !is_digit(*byte) {
            return i;
        }
    }
    text.len()
}

fn unit_bytes(byte: u8) -> Option<u64>
    ensures { result ≡ unit_bytes byte }
{
    match byte.to_ascii_lowercase() {
        b'k' => Some(KIBI),
        b'm' => Some(MEBI),
        b'g' => Some(GIBI),
        b't' => Some(TEBI),
        _ => None,
    }
}

fn percent_in(number: u64) -> Result<Size, Fault>
    ensures { result ≡ percent_in number }
{
    let number = within(0, PERCENT_MOST, number)?;
    Ok(Size::Percent(number as u8))
}

fn bytes_in(number: u64, unit: Option<u64>) -> Result<Size, Fault>
    ensures { result ≡ bytes_in number unit }
{
    match unit {
        None => Err(Fault::Form),
        Some(unit) => scaled(0, MEMORY_MOST, number, unit).map(Size::Bytes),
    }
}

fn size_in(number: u64, unit: &[u8]) -> Result<Size, Fault>
    ensures { result ≡ size_in number unit.now }
{
    match unit {
        [b'%'] => percent_in(number),
        [byte] => bytes_in(number, unit_bytes(*byte)),
        _ => Err(Fault::Form),
    }
}

/// A size: digits and a unit between quotes.
pub fn size_of(token: &Token) -> Result<Size, Fault>
    ensures { result ≡ size_of (token_told token.now) }
{
    match token {
        Token::Quoted(text) => size_in_text(text.as_bytes()),
        _ => Err(Fault::Form),
    }
}

fn size_in_text(text: &[u8]) -> Result<Size, Fault>
    ensures { result ≡ size_in_text text.now }
{
    let count = digit_count(text);
    if count == 0 {
        return Err(Fault::Form);
    }
    let (digits, unit) = text.split_at(count);
    size_in(digits_value(digits), unit)
}

fn is_among(text: &[u8], words: &[&str]) -> bool
    ensures { result ≡ list_any (λ word. bytes_eq text.now word.now) words.now }
{
    words.iter().any(|word| text == word.as_bytes())
}

fn unit_ms(unit: &[u8]) -> Option<u64>
    ensures { result ≡ unit_ms unit.now }
{
    if is_among(unit, &["ms", "millisecond", "milliseconds"]) {
        Some(1)
    } else if is_among(unit, &["second", "seconds"]) {
        Some(SECOND_MS)
    } else if is_among(unit, &["minute", "minutes"]) {
        Some(MINUTE_MS)
    } else if is_among(unit, &["hour", "hours"]) {
        Some(HOUR_MS)
    } else {
        None
    }
}

fn ms_in(least: u64, number: u64, unit: Option<u64>) -> Result<u64, Fault>
    ensures { result ≡ ms_in least number unit }
{
    match unit {
        None => Err(Fault::Form),
        Some(unit) => scaled(least, SPAN_MOST, number, unit),
    }
}

fn span_in(least: u64, number: u64, unit: &[u8]) -> Result<u64, Fault>
    ensures { result ≡ span_in least number unit.now }
{
    match unit {
        [b' ', unit @ ..] => ms_in(least, number, unit_ms(unit)),
        _ => Err(Fault::Form),
    }
}

/// A span in milliseconds, at least so long: digits, a space and a unit between quotes.
pub fn span_of(least: u64, token: &Token) -> Result<u64, Fault>
    ensures { result ≡ span_of least (token_told token.now) }
{
    match token {
        Token::Quoted(text) => span_in_text(least, text.as_bytes()),
        _ => Err(Fault::Form),
    }
}

fn span_in_text(least: u64, text: &[u8]) -> Result<u64, Fault>
    ensures { result ≡ span_in_text least text.now }
{
    let count = digit_count(text);
    if count == 0 {
        return Err(Fault::Form);
    }
    let (digits, unit) = text.split_at(count);
    span_in(least, digits_value(digits), unit)
}

/// A timeout in milliseconds: a number of seconds, or a span.
pub fn timeout_of(token: &Token) -> Result<u64, Fault>
    ensures { result ≡ timeout_of (token_told token.now) }
{
    match token {
        Token::Number(seconds) => scaled(0, SPAN_MOST, *seconds, SECOND_MS),
        _ => span_of(0, token),
    }
}
