//! The store of the definitions over SQLite, and the definitions with which a host begins.
#![tactic(auto)]

mod cells;
mod fault;
mod grants;
mod loading;
pub mod opening;
mod pools;
mod roles;
mod saving;
mod schema;
pub mod sql_keeper;
mod stored_row;
mod users;
