//! What holds of every cut, each law a function that does nothing.

ghost use Rattle.std.specs.Prelude.{◌≡◌, ℕ, ◌≤◌, ◌<◌, ◌⊎◌, List, Option, Some, None, All, map, slice_index, true, ◌^◌};
ghost use Rattle.std.specs.Fmt.{decimal};
ghost use Rattle.std.specs.Str.{IsUtf8};
ghost use Rattle.rm_words.specs.declared.class.Class.TheVariants.{Blank};
ghost use Rattle.rm_words.specs.declared.spans.Span.{Span};
ghost use Rattle.rm_words.specs.Class.{class_of};
ghost use Rattle.rm_words.specs.declared.token.Symbol.{Symbol};
ghost use Rattle.rm_words.specs.Cut.{AreWords, IsCut, IsIn, IsStuckAt, IsWordOf, OnCharacters, Rise, cut_end, joined, spans_from, words_at};
ghost use Rattle.rm_words.specs.CutOf.{cut_of};
ghost use Rattle.rm_words.specs.Token.{Bare, IsWritten, Number, Quoted, Says, Sign, doubled, folded, quoted, symbol_bytes, token_of, undoubled};
ghost use Rattle.rm_words.specs.Word.{is_bare, is_word};

/// A text has one cut.
pub fn one_cut()
    ensures { (text : List ℕ) (spans others : List Span) (stuck other : Option ℕ)
        → IsCut 0 text spans stuck → IsCut 0 text others other
        → (spans ≡ others) × (stuck ≡ other) }
{}

/// The function that cuts a text gives a cut of it.
pub fn cut_of_is_cut()
    ensures { (text : List ℕ) → IsCut 0 text (cut_of text).words (cut_of text).stuck }
{}

/// The function that cuts a text gives no other cut.
pub fn cut_is_cut_of()
    ensures { (text : List ℕ) (spans : List Span) (stuck : Option ℕ)
        → IsCut 0 text spans stuck
        → ((cut_of text).words ≡ spans) × ((cut_of text).stuck ≡ stuck) }
{}

/// Each span of a cut holds a word.
pub fn spans_hold_words()
    ensures { (text : List ℕ) (spans : List Span) (stuck : Option ℕ)
        → IsCut 0 text spans stuck → All (IsWordOf text) spans }
{}

/// The slices at the spans of a cut are words.
pub fn slices_are_words()
    ensures { (text : List ℕ) (spans : List Span) (stuck : Option ℕ)
        → IsCut 0 text spans stuck → AreWords (words_at text spans) }
{}

/// The spans of a cut rise.
pub fn spans_rise()
    ensures { (text : List ℕ) (spans : List Span) (stuck : Option ℕ)
        → IsCut 0 text spans stuck → Rise 0 spans }
{}

/// Up to its end a cut leaves out blanks alone.
pub fn blanks_between()
    ensures { (text : List ℕ) (spans : List Span) (stuck : Option ℕ) (k : ℕ)
        → IsCut 0 text spans stuck → k < cut_end text stuck
        → IsIn k spans ⊎ (class_of (slice_index text k) ≡ Blank) }
{}

/// A cut ends early only where there is no word.
pub fn stuck_without_word()
    ensures { (text : List ℕ) (spans : List Span) (at : ℕ)
        → IsCut 0 text spans (Some at) → IsStuckAt text at }
{}

/// Words that a space joins are cut into themselves.
pub fn joined_cut()
    ensures { (ws : List (List ℕ)) → AreWords ws
        → IsCut 0 (joined ws) (spans_from 0 ws) None
        × (words_at (joined ws) (spans_from 0 ws) ≡ ws) }
{}

/// No cut parts the bytes of a character.
pub fn cut_on_characters()
    ensures { (text : List ℕ) (spans : List Span) (stuck : Option ℕ)
        → IsUtf8 text → IsCut 0 text spans stuck → OnCharacters text spans stuck }
{}

/// A word is what its token says.
pub fn word_written()
    ensures { (bytes : List ℕ) → is_word bytes ≡ true → IsWritten (token_of bytes) bytes }
{}

/// A bare word says itself in lower case.
pub fn bare_word()
    ensures { (word : List ℕ) → is_bare (map class_of word) ≡ true → Says word (Bare (folded word)) }
{}

/// A number as it is printed says that number.
pub fn number_word()
    ensures { (n : ℕ) → n < 2 ^ 64 → Says (decimal n) (Number n) }
{}

/// A text between quotes says that text.
pub fn quoted_word()
    ensures { (text : List ℕ) → Says (quoted text) (Quoted (doubled text)) }
{}

/// What doubling the quotes of a text adds is taken away again.
pub fn undoubled_doubled()
    ensures { (text : List ℕ) → undoubled (doubled text) ≡ text }
{}

/// A symbol as it is written says itself.
pub fn symbol_word()
    ensures { (symbol : Symbol) → Says (symbol_bytes symbol) (Sign symbol) }
{}
