//! The tables of the definitions, each with room for all that may be.

use crate::bounded::Bounded;
use crate::limits::{GRANTS_MOST, POOLS_MOST, ROLES_MOST, USERS_MOST};
use crate::rows::{GrantRow, PoolRow, RoleRow, UserRow};

/// The pools in order of creation.
pub type Pools = Bounded<PoolRow, POOLS_MOST>;

/// The users in order of creation.
pub type Users = Bounded<UserRow, USERS_MOST>;

/// The roles in order of creation.
pub type Roles = Bounded<RoleRow, ROLES_MOST>;

/// The grants in their order.
pub type Grants = Bounded<GrantRow, GRANTS_MOST>;
