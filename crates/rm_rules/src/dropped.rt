//! Names beside a pool that is dropped.
ghost use Rattle.std.specs.Prelude.{◌≡◌};
ghost use Rattle.rm_rules.specs.DropPool.{in_place, named_in_place};

use rm_base::name::Name;

/// GENERAL in the place of the pool.
pub fn in_place(pool: Name, name: Name) -> Name
    ensures { result ≡ in_place pool name }
{
    if name.same(pool) {
        Name::general()
    } else {
        name
    }
}

/// The same of a pool that may be named.
pub fn named_in_place(pool: Name, name: Option<Name>) -> Option<Name>
    ensures { result ≡ named_in_place pool name }
{
    match name {
        Some(name) => Some(in_place(pool, name)),
        None => None,
    }
}
