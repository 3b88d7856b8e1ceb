//! What holds of every text over every catalog, each law a function that does nothing.

ghost use Rattle.std.specs.Prelude.{◌≡◌, ◌↔◌, ℕ, Ok, Err, List};
ghost use Rattle.rm_base.specs.declared.catalog.CatalogTable.{CatalogTable};
ghost use Rattle.rm_base.specs.declared.refusal.Refusal.{Refusal};
ghost use Rattle.rm_base.specs.declared.select.Select.{Select};
ghost use Rattle.query_plan.specs.Fitting.{FitsCatalog};
ghost use Rattle.query_plan.specs.Reading.{read_of};
ghost use Rattle.query_plan.specs.Text.{IsRefused, IsSpelled, SpellsText};

/// A text is one plan at most.
pub fn one_plan()
    ensures { (catalog : List CatalogTable) (text : List ℕ) (a b : Select)
        → SpellsText catalog text a → SpellsText catalog text b → a ≡ b }
{}

/// A text is refused in one way at most.
pub fn one_refusal()
    ensures { (catalog : List CatalogTable) (text : List ℕ) (a b : Refusal)
        → IsRefused catalog text a → IsRefused catalog text b → a ≡ b }
{}

/// What is refused is no plan.
pub fn refused_spells_none()
    ensures { (catalog : List CatalogTable) (text : List ℕ) (refusal : Refusal) (plan : Select)
        → IsRefused catalog text refusal → SpellsText catalog text plan → ⊥ }
{}

/// What a text is read as is the plan that it is.
pub fn read_of_spells()
    ensures { (catalog : List CatalogTable) (text : List ℕ) (plan : Select)
        → read_of catalog text ≡ Ok plan ↔ SpellsText catalog text plan }
{}

/// A text is read as none exactly where it is refused, and for the same reason.
pub fn read_of_refused()
    ensures { (catalog : List CatalogTable) (text : List ℕ) (refusal : Refusal)
        → read_of catalog text ≡ Err refusal ↔ IsRefused catalog text refusal }
{}

/// A plan fits the tables of the catalog that it names.
pub fn spelled_plans_fit()
    ensures { (catalog : List CatalogTable) (plan : Select)
        → IsSpelled catalog plan → FitsCatalog catalog plan }
{}
