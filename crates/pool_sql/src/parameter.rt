ghost use Rattle.std.specs.Prelude.{◌≡◌};
ghost use Rattle.rm_base.specs.RefusalText.{parameter_text};
ghost use Rattle.rm_base.specs.WellFormed.{parameters};
ghost use Rattle.rm_words.specs.Token.{is_key, token_told};
ghost use Rattle.pool_sql.specs.Parameter.{is_affinity, parameter_of, takes_any};

use rm_base::refusal::Parameter;
use rm_base::statement::Statement;
use rm_words::token::Token;

static POOL_PARAMETERS: [Parameter; 12] = [
    Parameter::MemorySize,
    Parameter::MaxMemorySize,
    Parameter::MaxQueryMemorySize,
    Parameter::ExecutionParallelism,
    Parameter::Priority,
    Parameter::RuntimePriority,
    Parameter::RuntimePriorityThreshold,
    Parameter::QueueTimeout,
    Parameter::PlannedConcurrency,
    Parameter::MaxConcurrency,
    Parameter::RuntimeCap,
    Parameter::Cascade,
];

static USER_PARAMETERS: [Parameter; 3] = [
    Parameter::ResourcePool,
    Parameter::MemoryCap,
    Parameter::RuntimeCap,
];

/// The parameters that the statement may name.
fn parameters(statement: &Statement) -> &'static [Parameter]
    ensures { result.now ≡ parameters statement.now }
{
    match statement {
        Statement::CreatePool(..) | Statement::AlterPool(..) => &POOL_PARAMETERS,
        Statement::CreateUser(..) | Statement::AlterUser(..) => &USER_PARAMETERS,
        Statement::DropPool(_)
        | Statement::DropUser(_)
        | Statement::CreateRole(_)
        | Statement::AlterRole(..)
        | Statement::DropRole(_)
        | Statement::GrantUsage(..)
        | Statement::RevokeUsage(..)
        | Statement::GrantRole(..)
        | Statement::RevokeRole(..) => &[],
    }
}

fn names(parameter: Parameter, token: &Token) -> bool
    ensures { result ≡ is_key (token_told token.now) (parameter_text parameter) }
{
    token.is_key(parameter.text().as_bytes())
}

/// The parameter of the statement that a word names.
pub fn parameter_of(statement: &Statement, token: &Token) -> Option<Parameter>
    ensures { result ≡ parameter_of statement.now (token_told token.now) }
{
    parameters(statement)
        .iter()
        .copied()
        .find(|parameter| names(*parameter, token))
}

/// Whether the statement takes parameters.
pub fn takes_any(statement: &Statement) -> bool
    ensures { result ≡ takes_any statement.now }
{
    !parameters(statement).is_empty()
}

/// Whether the word is the name of a parameter that is not supported.
pub fn is_affinity(token: &Token) -> bool
    ensures { result ≡ is_affinity (token_told token.now) }
{
    token.is_key(b"CPUAFFINITYSET") || token.is_key(b"CPUAFFINITYMODE")
}
