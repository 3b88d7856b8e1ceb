//! Rows with names, in their tables.
ghost use Rattle.std.specs.Prelude.{◌≡◌, ◌≤◌, length};
ghost use Rattle.std.specs.List.{position};
ghost use Rattle.rm_base.specs.declared.name.Name.{Name};
ghost use Rattle.rm_base.specs.Name.{same_name};
ghost use Rattle.rm_rules.specs.Tables.{with_row};

use rm_base::bounded::Bounded;
use rm_base::name::Name;
use rm_base::rows::{PoolRow, RoleRow, UserRow};

/// A row that has a name.
pub trait NamedRow: Copy {
    ghost name_of: { Self → Name };

    fn name(&self) -> Name
        ensures { result ≡ name_of self.now };
}

impl NamedRow for PoolRow {
    ghost name_of = { λ r. r.name };

    fn name(&self) -> Name {
        self.name
    }
}

impl NamedRow for UserRow {
    ghost name_of = { λ u. u.name };

    fn name(&self) -> Name {
        self.name
    }
}

impl NamedRow for RoleRow {
    ghost name_of = { λ r. r.name };

    fn name(&self) -> Name {
        self.name
    }
}

/// The place of the first row of this name.
fn place_of<T: NamedRow>(rows: &[T], name: Name) -> Option<usize>
    ensures { result ≡ position (λ r. same_name (T.name_of r) name) rows.now }
{
    rows.iter().position(|r| r.name().same(name))
}

/// Puts the row in the place of the one of its name, or at the end.
pub fn put<T: NamedRow, const MOST: usize>(rows: &mut Bounded<T, MOST>, row: T)
    requires { length (with_row T.name_of row rows.old) ≤ MOST }
    ensures { rows.new ≡ with_row T.name_of row rows.old }
{
    match place_of(rows.rows(), row.name()) {
        Some(place) => rows.set(place, row),
        None => rows.add(row),
    }
}
