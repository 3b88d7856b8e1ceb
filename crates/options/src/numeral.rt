//! Numbers that are written in decimal digits alone.

ghost use Rattle.std.specs.Prelude.{◌≡◌, ◌^◌, Some};
ghost use Rattle.options.specs.Numeral.{numeral_of, below, in_range, number_within};

/// The number that a word of digits writes, where 64 bits hold it.
///
/// `parse` alone would let a `+` in.
pub fn numeral_of(word: &str) -> Option<u64>
    ensures { result ≡ below (2 ^ 64) (numeral_of word.now) }
{
    if word.starts_with('+') {
        return None;
    }
    word.parse().ok()
}

/// The number, if it lies in a range, both ends counted.
pub fn in_range(least: u64, most: u64, number: u64) -> Option<u64>
    ensures { result ≡ in_range least most (Some number) }
{
    (least <= number && number <= most).then_some(number)
}

/// A number of an option: it lies in a range, and is written with no leading zero.
pub fn number_within(least: u64, most: u64, word: &str) -> Option<u64>
    ensures { result ≡ number_within least most word.now }
{
    if word.len() > 1 && word.starts_with('0') {
        return None;
    }
    in_range(least, most, numeral_of(word)?)
}

/// A number of an option that is no greater than one of 32 bits.
pub fn small_within(least: u32, most: u32, word: &str) -> Option<u32>
    ensures { result ≡ number_within least most word.now }
{
    u32::try_from(number_within(u64::from(least), u64::from(most), word)?).ok()
}
