//! What holds of every text and every statement, each law a function that does nothing.

ghost use Rattle.std.specs.Prelude.{◌≡◌, ◌↔◌, ℕ, Ok, Err, List, map};
ghost use Rattle.rm_base.specs.declared.refusal.Refusal.{Refusal};
ghost use Rattle.rm_base.specs.declared.statement.Statement.{Statement};
ghost use Rattle.rm_base.specs.WellFormed.{IsWellFormed};
ghost use Rattle.rm_words.specs.Cut.{AreWords};
ghost use Rattle.rm_words.specs.Token.{token_of};
ghost use Rattle.pool_sql.specs.Grammar.{IsFront};
ghost use Rattle.pool_sql.specs.Reading.{read_of};
ghost use Rattle.pool_sql.specs.Text.{BeginsText, IsRefused, IsSpelled, SpellsText};

/// A text is one statement at most.
pub fn one_statement()
    ensures { (text : List ℕ) (a b : Statement) → SpellsText text a → SpellsText text b → a ≡ b }
{}

/// A text is refused in one way at most.
pub fn one_refusal()
    ensures { (text : List ℕ) (a b : Refusal) → IsRefused text a → IsRefused text b → a ≡ b }
{}

/// What is refused is no statement.
pub fn refused_spells_none()
    ensures { (text : List ℕ) (refusal : Refusal) (statement : Statement)
        → IsRefused text refusal → SpellsText text statement → ⊥ }
{}

/// What a text is read as is the statement that it is.
pub fn read_of_spells()
    ensures { (text : List ℕ) (statement : Statement)
        → read_of text ≡ Ok statement ↔ SpellsText text statement }
{}

/// A text is read as none exactly where it is refused, and for the same reason.
pub fn read_of_refused()
    ensures { (text : List ℕ) (refusal : Refusal)
        → read_of text ≡ Err refusal ↔ IsRefused text refusal }
{}

/// Some text is a statement exactly where the statement is well formed.
pub fn spelled_is_well_formed()
    ensures { (statement : Statement) → IsSpelled statement ↔ IsWellFormed statement }
{}

/// Words with which some statement begins are the first words of some text that is a statement.
pub fn fronts_are_of_texts()
    ensures { (words : List (List ℕ)) → AreWords words → IsFront (map token_of words)
        → BeginsText words }
{}
