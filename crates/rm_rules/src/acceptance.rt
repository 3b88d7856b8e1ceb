//! The laws on accepted statements. Each is the contract of a function that does nothing.

ghost use Rattle.std.specs.Prelude.{◌≡◌, ◌+◌, Some, Ok, IsTrue};
ghost use Rattle.rm_base.specs.declared.definitions.Definitions.{Definitions};
ghost use Rattle.rm_base.specs.declared.name.Name.{Name};
ghost use Rattle.rm_base.specs.declared.statement.Statement.{Statement};
ghost use Rattle.rm_base.specs.declared.statement.Statement.TheVariants.{CreateUser};
ghost use Rattle.rm_base.specs.declared.statement.UserChange.{UserChange};
ghost use Rattle.rm_base.specs.Name.{same_name, general};
ghost use Rattle.rm_base.specs.Ranges.{is_statement_in_range};
ghost use Rattle.rm_rules.specs.Sound.{IsSound};
ghost use Rattle.rm_rules.specs.UserStatements.{given_pool};
ghost use Rattle.rm_rules.specs.Acceptance.{accepted};

/// What is accepted leads from sound definitions to sound ones, so GENERAL still stands first.
pub fn accepted_statements_keep_soundness()
    ensures { (d : Definitions) (statement : Statement) (new : Definitions)
        → IsSound d
        → IsTrue (is_statement_in_range statement)
        → accepted d statement ≡ Ok new
        → IsSound new }
{}

/// What is accepted is one change, also where it alters nothing, and the machine stays as it is.
pub fn accepted_statements_are_counted()
    ensures changes { (d : Definitions) (statement : Statement) (new : Definitions)
        → accepted d statement ≡ Ok new
        → new.changes ≡ d.changes + 1 }
    ensures machine { (d : Definitions) (statement : Statement) (new : Definitions)
        → accepted d statement ≡ Ok new
        → (new.memory ≡ d.memory) × (new.cores ≡ d.cores) }
{}

/// A new user gets no pool but GENERAL: nobody can have granted one to it or to a role of its.
pub fn new_users_get_general_alone()
    ensures { (d : Definitions) (name pool : Name) (change : UserChange) (new : Definitions)
        → IsSound d
        → given_pool change ≡ Some pool
        → accepted d (CreateUser name change) ≡ Ok new
        → IsTrue (same_name pool general) }
{}
