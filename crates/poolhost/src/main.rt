//! The program `poolhost`: a query host whose memory is governed by resource pools.
#![tactic(auto)]

mod adapters;
mod system_clock;

ghost use Rattle.std.specs.Prelude.{◌≡◌, IfOk, length, map, string_bytes};
ghost use Rattle.options.specs.Options.{HasWorkers};
ghost use Rattle.workload.specs.Ended.{HasKits};

use adapters::{FileShelf, ReaderSource, WriterSink};
use keeper_rows::sql_keeper::SqlKeeper;
use options::status::{
    BAD_LINE, BAD_TABLE, DONE, KEEPER_FAULT, NO_MEMORY, Status, USAGE, WRITE_FAULT,
};
use options::{Command, Options, options_of};
use rm_outside::keeper::Keeper;
use rm_outside::memory_keeper::MemoryKeeper;
use rm_outside::memory_spool::MemorySpool;
use rm_outside::outside::Outside;
use sessions::script_main::script_main;
use sqlite::{Connection, Error, ErrorCode, File, FileStore};
use std::alloc::{AllocError, Global};
use std::env;
use std::io::{self, ErrorKind};
use std::process::ExitCode;
use system_clock::SystemClock;
use workload::kit::Kit;
use workload::workload_main::workload_main;

/// What `--help` prints.
const HELP: &str = "poolhost: a query host whose memory is governed by resource pools

usage: poolhost script --memory SIZE --cores COUNT [--store FILE] [--spool FOLDER]
       poolhost workload --memory SIZE --cores COUNT --count QUERIES --rows ROWS --seed SEED [--spool FOLDER]

script reads a script from standard input and writes what its lines print. workload runs generated queries in three pools,
one after the other, and writes a summary of five lines.
Options, in any order, each once, as --cores 8 or as --cores=8:
  --memory SIZE        the memory: digits and one of K, M, G, T, from 16M to 1024T
  --cores COUNT        how many cores there are: 1 to 1024
  --store FILE         the file that keeps pools, users, roles and grants; it is made where there is none
                       (without it they end with the script)
  --count QUERIES      how many queries there are: 0 to 10000
  --rows ROWS          how many rows the first table has: 1 to 100000
  --seed SEED          the number with which the generator begins: 0 to 18446744073709551615
  --spool FOLDER       the folder of files that queries spill to; it has no effect yet
Lines of a script:
  at N                 moves the script's moment on to N milliseconds
  sql TEXT             defines what a statement says, on pools, users, roles or grants
  open S USER          opens a session of USER that the script names S
  open S USER POOL     opens it, and S chooses the pool
  set S pool POOL      S chooses the pool
  set S cap N          S's queries may run for N milliseconds (none: for as long as they like)
  ask S FLOOR          submits a query of S that needs at least FLOOR bytes
  query S TEXT         submits the SELECT that TEXT is, over the tables
  poll S               tells what became of the query of S
  check S              asks whether the query of S may run on
  way S                lets the query of S give way, as check asked for
  done S               runs the SELECT of S, if it submitted one, and ends the query
  cancel S T           cancels the query of T
  close S              closes the session
  table NAME PATH      loads a table from a file of CSV
  show NAME            prints a system table, as resource_pool_status
Empty lines and lines that begin with # print nothing.";

/// What is told on standard error of words that name no command.
const USAGE_TEXT: &str =
    "usage: poolhost script --memory SIZE --cores COUNT [--store FILE] [--spool FOLDER]
       poolhost workload --memory SIZE --cores COUNT --count QUERIES --rows ROWS --seed SEED [--spool FOLDER]";

/// The words of the command line, without the program's own.
fn command_words(rt: &HostRuntime) -> io::Result<Vec<String>> {
    let mut words = Vec::new(rt.alloc());
    for word in env::args(rt)?.skip(1) {
        words.push(word)?;
    }
    Ok(words)
}

/// The command `script`, over the standard streams and this store.
fn run_script<K: Keeper>(
    rt: &HostRuntime,
    alloc: Global,
    words: &[String],
    keeper: &mut K,
) -> Status {
    let mut input = ReaderSource::new(rt.stdin());
    let mut out = WriterSink::new(rt.stdout());
    let mut shelf = FileShelf::new(rt);
    let mut spool = MemorySpool::new(alloc);
    script_main(
        alloc, words, &mut input, &mut out, &mut shelf, &mut spool, keeper,
    )
}

/// The command `script`, over a store in memory.
fn run_in_memory(rt: &HostRuntime, alloc: Global, words: &[String]) -> Status {
    let mut keeper = MemoryKeeper::new();
    run_script(rt, alloc, words, &mut keeper)
}

/// The status of a program that can't open its store.
fn unopened(error: &Error) -> Status {
    Status(match error {
        Error::SqliteFailure(ErrorCode::OutOfMemory) => NO_MEMORY,
        _ => KEEPER_FAULT,
    })
}

/// The store in the file at a path, which is made where there is none; fails with the status for want of it.
fn open_store(rt: &HostRuntime, path: &str) -> Result<SqlKeeper<FileStore<File>>, Status> {
    match Connection::open(rt, path) {
        Ok(connection) => Ok(SqlKeeper::adopt(connection)),
        Err(error) => Err(unopened(&error)),
    }
}

/// The status of a program that can't close its store.
fn unclosed(error: Outside) -> Status {
    Status(match error {
        Outside::Failed => KEEPER_FAULT,
        Outside::Memory => NO_MEMORY,
    })
}

/// Whether a script that ends with this status began with what its store gave, and no call of the store failed.
fn has_used_the_store(status: Status) -> bool {
    matches!(status.0, DONE | BAD_LINE | WRITE_FAULT | BAD_TABLE)
}

/// Closes the store, so that the file holds all of it; answers the status of a program that has come to one so far.
///
/// A store that failed, was refused, or may never have been read is left as it is, with its log.
fn close_store(rt: &HostRuntime, keeper: SqlKeeper<FileStore<File>>, status: Status) -> Status {
    if !has_used_the_store(status) {
        return status;
    }
    match keeper.close() {
        Ok(()) => status,
        Err(error) => {
            let _ = rt.eprintln("poolhost: the store could not be closed");
            if status == Status(DONE) {
                unclosed(error)
            } else {
                status
            }
        }
    }
}

/// The command `script`, over the store in the file at a path.
fn run_over_file(rt: &HostRuntime, alloc: Global, words: &[String], path: &str) -> Status {
    match open_store(rt, path) {
        Ok(mut keeper) => {
            let status = run_script(rt, alloc, words, &mut keeper);
            close_store(rt, keeper, status)
        }
        Err(status) => status,
    }
}

/// A spool and a clock for each worker.
fn kits_of<'a>(
    rt: &'a HostRuntime,
    alloc: Global,
    workers: u32,
) -> Result<Vec<Kit<MemorySpool, SystemClock<'a, HostRuntime>>>, AllocError>
    ensures { IfOk result (λ kits. length kits.items ≡ workers) }
{
    let mut kits = Vec::new(alloc);
    for _ in 0..workers {
        kits.push(Kit {
            spool: MemorySpool::new(alloc),
            clock: SystemClock::new(rt),
        })?;
    }
    Ok(kits)
}

/// The command `workload`, over standard output.
fn run_workload(rt: &HostRuntime, alloc: Global, words: &[String], workers: u32) -> Status
    requires { HasKits (map string_bytes words.now) workers }
{
    let mut out = WriterSink::new(rt.stdout());
    match kits_of(rt, alloc, workers) {
        Ok(mut kits) => workload_main(alloc, words, &mut out, &mut kits),
        Err(AllocError) => Status(NO_MEMORY),
    }
}

/// The command that the words name, over what their options make of the outside.
fn run_options(rt: &HostRuntime, alloc: Global, words: &[String], options: &Options<'_>) -> Status
    requires { HasWorkers (map string_bytes words.now) options.now }
{
    match options.command {
        Command::Workload => run_workload(rt, alloc, words, options.workers),
        Command::Script => match options.store {
            Some(path) => run_over_file(rt, alloc, words, path),
            None => run_in_memory(rt, alloc, words),
        },
    }
}

/// The command that the words name. Words that name none are a script's, which refuses them.
fn run_command(rt: &HostRuntime, alloc: Global, words: &[String]) -> Status {
    match options_of(alloc, words) {
        Ok(Some(options)) => run_options(rt, alloc, words, &options),
        Ok(None) => run_in_memory(rt, alloc, words),
        Err(AllocError) => Status(NO_MEMORY),
    }
}

/// Does what the words say, and prints `usage` on standard error where they are none that it knows.
fn run_words(rt: &HostRuntime, words: &[String]) -> Status {
    if let Some(first) = words.first() {
        let told = match first.as_str() {
            "--help" => Some(rt.println(HELP)),
            "--version" => Some(rt.println("poolhost 0.1.0")),
            _ => None,
        };
        if let Some(result) = told {
            return Status(if result.is_ok() { DONE } else { WRITE_FAULT });
        }
    }
    let status = run_command(rt, rt.alloc(), words);
    if status == Status(USAGE) {
        let _ = rt.eprintln(USAGE_TEXT);
    }
    status
}

fn main(rt: HostRuntime) -> ExitCode {
    let status = match command_words(&rt) {
        Ok(words) => run_words(&rt, &words),
        Err(error) => {
            if error.kind() == ErrorKind::OutOfMemory {
                Status(NO_MEMORY)
            } else {
                let _ = rt.eprintln(USAGE_TEXT);
                Status(USAGE)
            }
        }
    };
    ExitCode::from(status.0)
}
