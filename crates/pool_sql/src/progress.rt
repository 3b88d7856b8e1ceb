ghost use Rattle.std.specs.Prelude.{◌≡◌, [], ◌∷◌};
ghost use Rattle.rm_words.specs.Token.{token_told};
ghost use Rattle.pool_sql.specs.Parameter.{parameter_of};
ghost use Rattle.pool_sql.specs.Value.{negative_of, optional_name, value_of};
ghost use Rattle.pool_sql.specs.Machine.{begun, finish, giving_edges, is_minus, is_semicolon, keyed, on_given, on_key, on_negative, on_other, on_parameter, on_role_pool, on_value, role_given, step, stranger, to_key, usage_given};

use crate::names::usage_name;
use crate::parameter::{is_affinity, parameter_of, takes_any};
use crate::setting::{Setting, is_named, no_pool_change, no_user_change, set};
use crate::stop::Stop;
use crate::value::{negative_of, optional_name, value_of};
use rm_base::name::Name;
use rm_base::refusal::Parameter;
use rm_base::statement::Statement;
use rm_words::token::{Symbol, Token};

/// The first word of a statement that names what it makes, changes or removes.
#[derive(Clone, Copy)]
pub enum Verb {
    Create,
    Alter,
    Drop,
}

/// What such a statement is about.
#[derive(Clone, Copy)]
pub enum Kind {
    Pool,
    User,
    Role,
}

/// The first word of a statement on a grant.
#[derive(Clone, Copy)]
pub enum Giving {
    Grant,
    Revoke,
}

/// What the words so far are.
#[derive(Clone, Copy)]
pub enum Progress {
    Start,
    /// CREATE, ALTER or DROP.
    Verbed(Verb),
    /// .. RESOURCE
    OfResource(Verb),
    /// .. RESOURCE POOL, USER or ROLE
    NameDue(Verb, Kind),
    /// GRANT or REVOKE
    Given(Giving),
    /// .. USAGE, which may also be the name of a role
    Usage(Giving),
    UsageOn(Giving),
    UsageResource(Giving),
    UsagePool(Giving),
    /// GRANT or REVOKE USAGE ON RESOURCE POOL and a pool's name
    UsageOf(Giving, Name),
    UsageTo(Giving, Name),
    /// GRANT or REVOKE and a role's name
    RoleOf(Giving, Name),
    RoleTo(Giving, Name),
    /// ALTER ROLE and a name
    RoleNamed(Name),
    RoleResource(Name),
    RolePool(Name),
    /// A statement, or with `false` an ALTER whose first parameter is still to come.
    Part(bool, Statement),
    /// .. CASCADE
    CascadeTo(Statement),
    /// .. RESOURCE, of a user
    UserPool(Statement),
    /// .. and a parameter
    ValueDue(Statement, Parameter),
    /// .. PRIORITY -
    MinusRead(Statement),
    /// A statement and `;`.
    Ended(Statement),
}

fn begun(verb: Verb, kind: Kind, name: Name) -> Progress
    ensures { result ≡ begun verb kind name }
{
    match (verb, kind) {
        (Verb::Create, Kind::Pool) => {
            Progress::Part(true, Statement::CreatePool(name, no_pool_change()))
        }
        (Verb::Create, Kind::User) => {
            Progress::Part(true, Statement::CreateUser(name, no_user_change()))
        }
        (Verb::Create, Kind::Role) => Progress::Part(true, Statement::CreateRole(name)),
        (Verb::Alter, Kind::Pool) => {
            Progress::Part(false, Statement::AlterPool(name, no_pool_change()))
        }
        (Verb::Alter, Kind::User) => {
            Progress::Part(false, Statement::AlterUser(name, no_user_change()))
        }
        (Verb::Alter, Kind::Role) => Progress::RoleNamed(name),
        (Verb::Drop, Kind::Pool) => Progress::Part(true, Statement::DropPool(name)),
        (Verb::Drop, Kind::User) => Progress::Part(true, Statement::DropUser(name)),
        (Verb::Drop, Kind::Role) => Progress::Part(true, Statement::DropRole(name)),
    }
}

impl Giving {
    /// The key word before the last name.
    fn to_key(self) -> &'static [u8]
        ensures { result.now ≡ to_key self }
    {
        match self {
            Giving::Grant => b"TO",
            Giving::Revoke => b"FROM",
        }
    }

    fn usage(self, pool: Name, name: Name) -> Statement
        ensures { result ≡ usage_given self pool name }
    {
        match self {
            Giving::Grant => Statement::GrantUsage(pool, name),
            Giving::Revoke => Statement::RevokeUsage(pool, name),
        }
    }

    fn role(self, role: Name, user: Name) -> Statement
        ensures { result ≡ role_given self role user }
    {
        match self {
            Giving::Grant => Statement::GrantRole(role, user),
            Giving::Revoke => Statement::RevokeRole(role, user),
        }
    }
}

/// The one key word that may come next, and where it leads.
fn on_key(token: &Token, key: &[u8], progress: Progress) -> Result<Progress, Stop>
    ensures { result ≡ on_key ((key.now, progress) ∷ []) (token_told token.now) }
{
    if token.is_key(key) {
        Ok(progress)
    } else {
        Err(Stop::Syntax)
    }
}

fn on_start(token: &Token) -> Result<Progress, Stop>
    ensures { result ≡ step Progress.Start (token_told token.now) }
{
    if token.is_key(b"CREATE") {
        Ok(Progress::Verbed(Verb::Create))
    } else if token.is_key(b"ALTER") {
        Ok(Progress::Verbed(Verb::Alter))
    } else if token.is_key(b"DROP") {
        Ok(Progress::Verbed(Verb::Drop))
    } else {
        on_giving(token)
    }
}

fn on_giving(token: &Token) -> Result<Progress, Stop>
    ensures { result ≡ on_key giving_edges (token_told token.now) }
{
    if token.is_key(b"GRANT") {
        Ok(Progress::Given(Giving::Grant))
    } else if token.is_key(b"REVOKE") {
        Ok(Progress::Given(Giving::Revoke))
    } else {
        Err(Stop::Syntax)
    }
}

fn on_verb(verb: Verb, token: &Token) -> Result<Progress, Stop>
    ensures { result ≡ step (Progress.Verbed verb) (token_told token.now) }
{
    if token.is_key(b"RESOURCE") {
        Ok(Progress::OfResource(verb))
    } else if token.is_key(b"USER") {
        Ok(Progress::NameDue(verb, Kind::User))
    } else if token.is_key(b"ROLE") {
        Ok(Progress::NameDue(verb, Kind::Role))
    } else {
        Err(Stop::Syntax)
    }
}

/// The first word behind GRANT or REVOKE.
fn on_given(giving: Giving, token: &Token) -> Result<Progress, Stop>
    ensures { result ≡ on_given giving (token_told token.now) }
{
    if token.is_key(b"USAGE") {
        return Ok(Progress::Usage(giving));
    }
    match token.name() {
        Some(role) => Ok(Progress::RoleOf(giving, role)),
        None => Err(Stop::Syntax),
    }
}

fn on_usage(giving: Giving, token: &Token) -> Result<Progress, Stop>
    ensures { result ≡ step (Progress.Usage giving) (token_told token.now) }
{
    if token.is_key(b"ON") {
        Ok(Progress::UsageOn(giving))
    } else if token.is_key(giving.to_key()) {
        Ok(Progress::RoleTo(giving, usage_name()))
    } else {
        Err(Stop::Syntax)
    }
}

fn on_begun(verb: Verb, kind: Kind, token: &Token) -> Result<Progress, Stop>
    ensures { result ≡ step (Progress.NameDue verb kind) (token_told token.now) }
{
    match token.name() {
        Some(name) => Ok(begun(verb, kind, name)),
        None => Err(Stop::Syntax),
    }
}

fn on_usage_pool(giving: Giving, token: &Token) -> Result<Progress, Stop>
    ensures { result ≡ step (Progress.UsagePool giving) (token_told token.now) }
{
    match token.name() {
        Some(pool) => Ok(Progress::UsageOf(giving, pool)),
        None => Err(Stop::Syntax),
    }
}

fn on_usage_to(giving: Giving, pool: Name, token: &Token) -> Result<Progress, Stop>
    ensures { result ≡ step (Progress.UsageTo giving pool) (token_told token.now) }
{
    match token.name() {
        Some(name) => Ok(Progress::Part(true, giving.usage(pool, name))),
        None => Err(Stop::Syntax),
    }
}

fn on_role_to(giving: Giving, role: Name, token: &Token) -> Result<Progress, Stop>
    ensures { result ≡ step (Progress.RoleTo giving role) (token_told token.now) }
{
    match token.name() {
        Some(user) => Ok(Progress::Part(true, giving.role(role, user))),
        None => Err(Stop::Syntax),
    }
}

fn on_role_pool(name: Name, token: &Token) -> Result<Progress, Stop>
    ensures { result ≡ on_role_pool name (optional_name (token_told token.now)) }
{
    match optional_name(token) {
        Ok(pool) => Ok(Progress::Part(true, Statement::AlterRole(name, pool))),
        Err(stop) => Err(stop),
    }
}

/// Behind the first key word of a parameter.
fn keyed(statement: Statement, parameter: Parameter) -> Progress
    ensures { result ≡ keyed statement parameter }
{
    match parameter {
        Parameter::Cascade => Progress::CascadeTo(statement),
        Parameter::ResourcePool => Progress::UserPool(statement),
        _ => Progress::ValueDue(statement, parameter),
    }
}

fn stranger(takes: bool, token: &Token) -> Stop
    ensures { result ≡ stranger takes (token_told token.now) }
{
    if !takes {
        Stop::Syntax
    } else if is_affinity(token) {
        Stop::NotSupported
    } else {
        Stop::Unknown
    }
}

fn is_semicolon(symbol: Symbol) -> bool
    ensures { result ≡ is_semicolon symbol }
{
    matches!(symbol, Symbol::Semicolon)
}

/// A word behind a body that names no parameter.
fn on_other(whole: bool, statement: Statement, token: &Token) -> Result<Progress, Stop>
    ensures { result ≡ on_other whole statement (token_told token.now) }
{
    match token {
        Token::Bare(_) => Err(stranger(takes_any(&statement), token)),
        Token::Sign(symbol) if whole && is_semicolon(*symbol) => Ok(Progress::Ended(statement)),
        _ => Err(Stop::Syntax),
    }
}

fn on_parameter(whole: bool, statement: Statement, token: &Token) -> Result<Progress, Stop>
    ensures { result ≡ on_parameter whole statement (token_told token.now) (parameter_of statement (token_told token.now)) }
{
    match parameter_of(&statement, token) {
        Some(parameter) if is_named(parameter, &statement) => Err(Stop::Repeated(parameter)),
        Some(parameter) => Ok(keyed(statement, parameter)),
        None => on_other(whole, statement, token),
    }
}

fn is_minus(parameter: Parameter, token: &Token) -> bool
    ensures { result ≡ is_minus parameter (token_told token.now) }
{
    matches!(
        (parameter, token),
        (Parameter::Priority, Token::Sign(Symbol::Minus))
    )
}

fn on_value(statement: Statement, parameter: Parameter, token: &Token) -> Result<Progress, Stop>
    ensures { result ≡ on_value statement parameter (token_told token.now) (value_of parameter (token_told token.now)) }
{
    match value_of(parameter, token) {
        Ok(setting) => Ok(Progress::Part(true, set(statement, setting))),
        Err(_) if is_minus(parameter, token) => Ok(Progress::MinusRead(statement)),
        Err(stop) => Err(stop),
    }
}

fn on_negative(statement: Statement, token: &Token) -> Result<Progress, Stop>
    ensures { result ≡ on_negative statement (negative_of (token_told token.now)) }
{
    match negative_of(token) {
        Ok(number) => Ok(Progress::Part(true, set(statement, Setting::Priority(number)))),
        Err(stop) => Err(stop),
    }
}

impl Progress {
    /// One word more.
    pub fn step(self, token: &Token) -> Result<Progress, Stop>
        ensures { result ≡ step self (token_told token.now) }
    {
        match self {
            Progress::Start => on_start(token),
            Progress::Verbed(verb) => on_verb(verb, token),
            Progress::OfResource(verb) => {
                on_key(token, b"POOL", Progress::NameDue(verb, Kind::Pool))
            }
            Progress::NameDue(verb, kind) => on_begun(verb, kind, token),
            Progress::Given(giving) => on_given(giving, token),
            Progress::Usage(giving) => on_usage(giving, token),
            Progress::UsageOn(giving) => {
                on_key(token, b"RESOURCE", Progress::UsageResource(giving))
            }
            Progress::UsageResource(giving) => on_key(token, b"POOL", Progress::UsagePool(giving)),
            Progress::UsagePool(giving) => on_usage_pool(giving, token),
            Progress::UsageOf(giving, pool) => {
                on_key(token, giving.to_key(), Progress::UsageTo(giving, pool))
            }
            Progress::UsageTo(giving, pool) => on_usage_to(giving, pool, token),
            Progress::RoleOf(giving, role) => {
                on_key(token, giving.to_key(), Progress::RoleTo(giving, role))
            }
            Progress::RoleTo(giving, role) => on_role_to(giving, role, token),
            Progress::RoleNamed(name) => on_key(token, b"RESOURCE", Progress::RoleResource(name)),
            Progress::RoleResource(name) => on_key(token, b"POOL", Progress::RolePool(name)),
            Progress::RolePool(name) => on_role_pool(name, token),
            Progress::Part(whole, statement) => on_parameter(whole, statement, token),
            Progress::CascadeTo(statement) => {
                on_key(
                    token,
                    b"TO",
                    Progress::ValueDue(statement, Parameter::Cascade),
                )
            }
            Progress::UserPool(statement) => {
                on_key(
                    token,
                    b"POOL",
                    Progress::ValueDue(statement, Parameter::ResourcePool),
                )
            }
            Progress::ValueDue(statement, parameter) => on_value(statement, parameter, token),
            Progress::MinusRead(statement) => on_negative(statement, token),
            Progress::Ended(_) => Err(Stop::Syntax),
        }
    }

    /// The statement that the words so far are, if they are one.
    pub fn finish(self) -> Option<Statement>
        ensures { result ≡ finish self }
    {
        match self {
            Progress::Part(true, statement) | Progress::Ended(statement) => Some(statement),
            _ => None,
        }
    }
}
