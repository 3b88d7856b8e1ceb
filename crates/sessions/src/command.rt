//! The commands of a script.

ghost use Rattle.std.specs.Prelude.{◌≡◌, map, option_map, IfOk};
ghost use Rattle.sessions.specs.Commands.{seen_request, seen_command, verb_of, first_word, text_behind, plain_form, moment_form, floor_form, user_form, user_pool_form, cancel_form, open_forms, set_form, without_spaces, query_form, table_form, show_form, command_with, command_of};
ghost use Rattle.sessions.specs.Words.{two_behind, three_behind};
ghost use Rattle.std.specs.Option.{option_and_then};

use crate::numbers::{Number, cap_of, moment_of, positive_of};
use crate::words::{line_words, one_behind, three_behind, two_behind};
use rm_base::name::Name;
use std::alloc::{AllocError, Global};

/// What a line of a script asks for.
#[derive(Clone, Copy, PartialEq, Eq, Debug)]
pub enum Command<'a> {
    /// `at N`: the script's moment becomes this one.
    At(Number),
    /// `sql TEXT`: the text is a statement.
    Sql(&'a str),
    /// `open S USER` or `open S USER POOL`: a user opens a session, and the session chooses a pool.
    Open {
        session: Name,
        user: Name,
        pool: Option<Name>,
    },
    /// `query S TEXT`: the session of this name submits a SELECT.
    Query {
        session: Name,
        text: &'a str,
    },
    /// `table NAME PATH`: a table is loaded.
    Load {
        name: Name,
        path: &'a str,
    },
    /// `show NAME`: a system table is printed.
    Show(Name),
    /// A line that asks something of the session of this name.
    Of(Name, Request),
}

/// What a line asks of a session.
#[derive(Clone, Copy, PartialEq, Eq, Debug)]
pub enum Request {
    /// `set S pool POOL`: it chooses a pool.
    SetPool(Name),
    /// `set S cap N` or `set S cap none`: it has a runtime cap of its own in milliseconds, or none.
    SetCap(Option<u64>),
    /// `ask S FLOOR`: it submits a query that needs at least the floor.
    Ask(u64),
    /// `poll S`: it asks what became of its query.
    Poll,
    /// `check S`: it asks whether its query may run on.
    Check,
    /// `way S`: its query gives way.
    Way,
    /// `done S`: it ends its query.
    Done,
    /// `cancel S T`: it cancels the query of the session of this name.
    Cancel(Name),
    /// `close S`: it goes.
    Close,
}

/// The first word of a command.
#[derive(Clone, Copy, PartialEq, Eq, Debug)]
pub enum Verb {
    At,
    Sql,
    Open,
    Set,
    Ask,
    Poll,
    Done,
    Close,
    Query,
    Table,
    Check,
    Way,
    Cancel,
    Show,
}

/// The command that a line gives, if it gives one.
///
/// Whether its sessions are open, and who may open one, is no matter of reading.
pub fn read_command(alloc: Global, line: &str) -> Result<Option<Command<'_>>, AllocError>
    ensures { IfOk result (λ command. option_map seen_command command ≡ command_of line.now) }
{
    match verb_of(first_word(line)) {
        Some(verb) => read_with(alloc, verb, line),
        None => Ok(None),
    }
}

/// The command of a line that begins with a verb. A text is no words, so its line is not parted into them.
fn read_with(alloc: Global, verb: Verb, line: &str) -> Result<Option<Command<'_>>, AllocError>
    ensures { IfOk result (λ command. option_map seen_command command ≡ command_with verb line.now) }
{
    match verb {
        Verb::At => Ok(moment_form(&line_words(alloc, line)?)),
        Verb::Sql => Ok(text_behind(line).map(Command::Sql)),
        Verb::Open => Ok(open_forms(&line_words(alloc, line)?)),
        Verb::Set => Ok(set_form(&line_words(alloc, line)?)),
        Verb::Ask => Ok(floor_form(&line_words(alloc, line)?)),
        Verb::Poll => Ok(plain_form(Request::Poll, &line_words(alloc, line)?)),
        Verb::Done => Ok(plain_form(Request::Done, &line_words(alloc, line)?)),
        Verb::Close => Ok(plain_form(Request::Close, &line_words(alloc, line)?)),
        Verb::Query => Ok(query_behind(line)),
        Verb::Table => Ok(table_form(&line_words(alloc, line)?)),
        Verb::Check => Ok(plain_form(Request::Check, &line_words(alloc, line)?)),
        Verb::Way => Ok(plain_form(Request::Way, &line_words(alloc, line)?)),
        Verb::Cancel => Ok(cancel_form(&line_words(alloc, line)?)),
        Verb::Show => Ok(show_form(&line_words(alloc, line)?)),
    }
}

/// The verb that a word is, compared as written.
fn verb_of(word: &str) -> Option<Verb>
    ensures { result ≡ verb_of word.now }
{
    match word {
        "at" => Some(Verb::At),
        "sql" => Some(Verb::Sql),
        "open" => Some(Verb::Open),
        "set" => Some(Verb::Set),
        "ask" => Some(Verb::Ask),
        "poll" => Some(Verb::Poll),
        "done" => Some(Verb::Done),
        "close" => Some(Verb::Close),
        "query" => Some(Verb::Query),
        "table" => Some(Verb::Table),
        "check" => Some(Verb::Check),
        "way" => Some(Verb::Way),
        "cancel" => Some(Verb::Cancel),
        "show" => Some(Verb::Show),
        _ => None,
    }
}

/// What stands before the first space of a line.
fn first_word(line: &str) -> &str
    ensures { result.now ≡ first_word line.now }
{
    match line.split_once(' ') {
        Some((first, _)) => first,
        None => line,
    }
}

/// What stands behind the first space of a line.
fn text_behind(line: &str) -> Option<&str>
    ensures { option_map (λ text. text.now) result ≡ text_behind line.now }
{
    match line.split_once(' ') {
        Some((_, text)) => Some(text),
        None => None,
    }
}

/// `S`, of which this is asked
fn plain_form<'a>(request: Request, words: &[&str]) -> Option<Command<'a>>
    ensures { option_map seen_command result ≡ plain_form (seen_request request) (map (λ word. word.now) words.now) }
{
    let session = one_behind(words)?;
    Some(Command::Of(Name::of(session)?, request))
}

/// What follows the first space of a line, as `S TEXT`
fn query_behind(line: &str) -> Option<Command<'_>>
    ensures { option_map seen_command result ≡ option_and_then (λ words. query_form (without_spaces words)) (text_behind line.now) }
{
    match text_behind(line) {
        Some(words) => query_form(without_spaces(words)),
        None => None,
    }
}

/// A text without the spaces at its front.
fn without_spaces(text: &str) -> &str
    ensures { result.now ≡ without_spaces text.now }
{
    let mut rest = text;
    while rest.starts_with(' ') {
        match rest.split_once(' ') {
            Some((_, more)) => rest = more,
            None => return rest,
        }
    }
    rest
}

/// `S TEXT`
fn query_form(words: &str) -> Option<Command<'_>>
    ensures { option_map seen_command result ≡ query_form words.now }
{
    let text = text_behind(words)?;
    let session = Name::of(first_word(words))?;
    Some(Command::Query { session, text })
}

/// `NAME PATH`
fn table_form<'a>(words: &[&'a str]) -> Option<Command<'a>>
    ensures { option_map seen_command result ≡ table_form (map (λ word. word.now) words.now) }
{
    let (name, path) = two_behind(words)?;
    let name = Name::of(name)?;
    Some(Command::Load { name, path })
}

/// `NAME`
fn show_form<'a>(words: &[&str]) -> Option<Command<'a>>
    ensures { option_map seen_command result ≡ show_form (map (λ word. word.now) words.now) }
{
    let name = one_behind(words)?;
    Some(Command::Show(Name::of(name)?))
}

/// `N`
fn moment_form<'a>(words: &[&str]) -> Option<Command<'a>>
    ensures { option_map seen_command result ≡ moment_form (map (λ word. word.now) words.now) }
{
    let moment = one_behind(words)?;
    Some(Command::At(moment_of(moment)?))
}

/// `S FLOOR`
fn floor_form<'a>(words: &[&str]) -> Option<Command<'a>>
    ensures { option_map seen_command result ≡ floor_form (map (λ word. word.now) words.now) }
{
    let (session, floor) = two_behind(words)?;
    Some(Command::Of(Name::of(session)?, Request::Ask(positive_of(floor)?)))
}

/// `S T`
fn cancel_form<'a>(words: &[&str]) -> Option<Command<'a>>
    ensures { option_map seen_command result ≡ cancel_form (map (λ word. word.now) words.now) }
{
    let (session, target) = two_behind(words)?;
    Some(Command::Of(Name::of(session)?, Request::Cancel(Name::of(target)?)))
}

/// `S USER`, or else `S USER POOL`
fn open_forms<'a>(words: &[&str]) -> Option<Command<'a>>
    ensures { let parts = map (λ word. word.now) words.now in
        option_map seen_command result ≡ open_forms (two_behind parts) (three_behind parts) }
{
    match two_behind(words) {
        Some((session, user)) => user_form(session, user),
        None => {
            let (session, user, pool) = three_behind(words)?;
            user_pool_form(session, user, pool)
        }
    }
}

/// `S USER`
fn user_form<'a>(session: &str, user: &str) -> Option<Command<'a>>
    ensures { option_map seen_command result ≡ user_form (session.now, user.now) }
{
    Some(Command::Open {
        session: Name::of(session)?,
        user: Name::of(user)?,
        pool: None,
    })
}

/// `S USER POOL`
fn user_pool_form<'a>(session: &str, user: &str, pool: &str) -> Option<Command<'a>>
    ensures { option_map seen_command result ≡ user_pool_form (session.now, user.now, pool.now) }
{
    Some(Command::Open {
        session: Name::of(session)?,
        user: Name::of(user)?,
        pool: Some(Name::of(pool)?),
    })
}

/// `S pool POOL` or `S cap CAP`
fn set_form<'a>(words: &[&str]) -> Option<Command<'a>>
    ensures { option_map seen_command result ≡ option_and_then set_form (three_behind (map (λ word. word.now) words.now)) }
{
    let (session, key, value) = three_behind(words)?;
    match key {
        "pool" => Some(Command::Of(Name::of(session)?, Request::SetPool(Name::of(value)?))),
        "cap" => Some(Command::Of(Name::of(session)?, Request::SetCap(cap_of(value)?))),
        _ => None,
    }
}
