//! What holds of every statement, each law a function that does nothing.

ghost use Rattle.std.specs.Prelude.{◌≡◌, true};
ghost use Rattle.rm_base.specs.declared.statement.Statement.{Statement};
ghost use Rattle.rm_base.specs.Ranges.{is_statement_in_range};
ghost use Rattle.rm_base.specs.WellFormed.{IsWellFormed};

/// A statement that some text spells has its values in their ranges.
pub fn well_formed_in_range()
    ensures { (statement : Statement) → IsWellFormed statement → is_statement_in_range statement ≡ true }
{}
