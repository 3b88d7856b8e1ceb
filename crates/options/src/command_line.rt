//! The words of a command, read by `clap` as those of a simple command.

ghost use Rattle.std.specs.Prelude.{◌≡◌, true, false, map, option_map, string_bytes, IfOk};
ghost use Rattle.clap.specs.Words.{app_of, first_of, found_of, is_simple_and_free, rows_of, rule_of};
ghost use Rattle.options.specs.CommandLine.{given, is_named, option_rule, rules_of, simple_command, taken};

use clap::error::ErrorKind;
use clap::{Arg, ArgAction, ArgMatches, Command};
use std::alloc::{AllocError, Global};

/// An option that takes one value, as `--id V` or `--id=V`.
fn option<'a>(alloc: Global, id: &'a str, required: bool) -> Arg<'a>
    ensures rule { rule_of result ≡ option_rule id.now required }
    ensures global { result.global ≡ false }
{
    Arg::new(alloc, id)
        .long(id)
        .required(required)
        .action(ArgAction::Set)
}

/// The command of a name with these options: what each is called, and whether it must be given.
fn simple_command<'a>(
    alloc: Global,
    name: &'a str,
    options: &[(&'a str, bool)],
) -> Result<Command<'a>, AllocError>
    ensures { IfOk result (λ command. app_of command ≡ simple_command name.now (rules_of options.now)) }
{
    let mut command = Command::new(alloc, name).disable_help_flag(true);
    for &(id, is_required) in options {
        command = command.arg(option(alloc, id, is_required))?;
    }
    Ok(command)
}

/// Whether the first word is the name.
fn is_named(name: &str, words: &[String]) -> bool
    ensures { result ≡ is_named name.now (map string_bytes words.now) }
{
    match words {
        [] => false,
        [first, ..] => first.as_str() == name,
    }
}

/// What the words give the options, where they are the name and then options of these, each once, and those that must be
/// given among them; fails where memory is wanting.
pub fn given<'a>(
    alloc: Global,
    name: &'a str,
    options: &[(&'a str, bool)],
    words: &'a [String],
) -> Result<Option<ArgMatches<'a>>, AllocError>
    requires { is_simple_and_free (simple_command name.now (rules_of options.now)) ≡ true }
    ensures { IfOk result (λ read. option_map (λ m. rows_of (found_of m)) read
        ≡ given name.now (rules_of options.now) (map string_bytes words.now)) }
{
    if !is_named(name, words) {
        return Ok(None);
    }
    taken(simple_command(alloc, name, options)?, words)
}

/// What the words give the options of a command, where it takes them.
fn taken<'a>(
    command: Command<'a>,
    words: &'a [String],
) -> Result<Option<ArgMatches<'a>>, AllocError>
    requires { is_simple_and_free (app_of command) ≡ true }
    ensures { IfOk result (λ read. option_map (λ m. rows_of (found_of m)) read
        ≡ taken (app_of command.entry) (map string_bytes words.now)) }
{
    match command.try_get_matches_from(words) {
        Ok(matches) => Ok(Some(matches)),
        Err(error) => {
            if error.kind() == ErrorKind::OutOfMemory {
                Err(AllocError)
            } else {
                Ok(None)
            }
        }
    }
}

/// The value that is given an option.
pub fn value_of<'a>(matches: &ArgMatches<'a>, id: &str) -> Option<&'a str>
    ensures { option_map (λ value. value.now) result ≡ first_of id.now (rows_of (found_of matches.now)) }
{
    matches.get_str(id)
}
