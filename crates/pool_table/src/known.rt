//! Who is there, by name.
ghost use Rattle.std.specs.Prelude.{◌≡◌};
ghost use Rattle.rm_rules.specs.Sound.{has_pool, has_user, has_role, has_grantee};

use rm_base::definitions::Definitions;
use rm_base::name::Name;
use rm_rules::readings::{pool_called, role_called, user_called};

pub fn has_pool(definitions: &Definitions, name: Name) -> bool
    ensures { result ≡ has_pool definitions.now name }
{
    pool_called(definitions.pools.rows(), name).is_some()
}

pub fn has_user(definitions: &Definitions, name: Name) -> bool
    ensures { result ≡ has_user definitions.now name }
{
    user_called(definitions.users.rows(), name).is_some()
}

pub fn has_role(definitions: &Definitions, name: Name) -> bool
    ensures { result ≡ has_role definitions.now name }
{
    role_called(definitions.roles.rows(), name).is_some()
}

/// Whether a user or a role has the name.
pub fn has_grantee(definitions: &Definitions, name: Name) -> bool
    ensures { result ≡ has_grantee definitions.now name }
{
    has_user(definitions, name) || has_role(definitions, name)
}
