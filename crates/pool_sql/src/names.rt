ghost use Rattle.std.specs.Prelude.{◌≡◌};
ghost use Rattle.pool_sql.specs.Names.{usage_name};

use rm_base::name::Name;

/// A role may be called so, although USAGE is a key word behind GRANT and REVOKE.
pub fn usage_name() -> Name
    ensures { result ≡ usage_name }
{
    Name::of("usage").unwrap()
}
