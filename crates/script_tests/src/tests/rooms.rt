//! The room of the tables and of the journal: the last that fits, and the first that does not.

use super::limits::numbered;
use super::{USUAL, run};
use std::alloc::Global;
use std::process::Abort;
use std::test::Fail;

/// Runs a script that goes well, and whose output ends so.
fn ends_with(rt: &impl Abort, alloc: Global, script: &str, text: &[u8]) -> Result<(), Fail> {
    let (status, out) = run(alloc, USUAL, script.as_bytes())?;
    assert_eq!(rt; status, 0);
    assert!(rt; out.contents().ends_with(text));
    Ok(())
}

/// `dbadmin` is the first of 256 users.
#[test]
fn so_many_users_are_there(rt: HostRuntime) -> Result<(), Fail> {
    let mut script = numbered(rt.alloc(), "sql CREATE USER u", "", 256)?;
    script.push_str("sql DROP USER u1\nsql CREATE USER v\n")?;
    ends_with(
        &rt,
        rt.alloc(),
        script.as_str(),
        b"ok\nok\nrefused 17 users 256\nok\nok\n",
    )
}

#[test]
fn so_many_roles_are_there(rt: HostRuntime) -> Result<(), Fail> {
    let mut script = numbered(rt.alloc(), "sql CREATE ROLE r", "", 65)?;
    script.push_str("sql DROP ROLE r1\nsql CREATE ROLE q\n")?;
    ends_with(
        &rt,
        rt.alloc(),
        script.as_str(),
        b"ok\nok\nrefused 17 roles 64\nok\nok\n",
    )
}

/// Each of 32 users is granted each of 32 roles, so that there are 1,024 grants.
fn all_granted(alloc: Global) -> Result<String, Fail> {
    let mut script = numbered(alloc, "sql CREATE ROLE r", "", 33)?;
    script.push_str(numbered(alloc, "sql CREATE USER u", "", 32)?.as_str())?;
    for n in 1..=32 {
        let line = format!(in alloc; "sql GRANT r{n} TO u")?;
        script.push_str(numbered(alloc, line.as_str(), "", 32)?.as_str())?;
    }
    Ok(script)
}

/// A grant that is there needs no row, and one that is taken makes room.
#[test]
fn so_many_grants_are_there(rt: HostRuntime) -> Result<(), Fail> {
    let mut script = all_granted(rt.alloc())?;
    script.push_str("sql GRANT r33 TO u1\nsql GRANT r32 TO u32\n")?;
    script.push_str("sql REVOKE r1 FROM u1\nsql GRANT r33 TO u1\nsql GRANT r33 TO u2\n")?;
    ends_with(
        &rt,
        rt.alloc(),
        script.as_str(),
        b"ok\nok\nrefused 17 grants 1024\nok\nok\nok\nrefused 17 grants 1024\n",
    )
}

/// This text, so many times the same lines, and another text.
fn around(
    alloc: Global,
    before: &str,
    lines: &str,
    times: u32,
    after: &str,
) -> Result<String, Fail> {
    let mut script = String::from_str(alloc, before)?;
    for _ in 0..times {
        script.push_str(lines)?;
    }
    script.push_str(after)?;
    Ok(script)
}

/// Each accepted statement counts, also one that alters nothing. Refusal 17 comes before 18.
#[test]
fn so_many_statements_are_accepted(rt: HostRuntime) -> Result<(), Fail> {
    let script = around(
        rt.alloc(),
        "sql CREATE ROLE r\nsql CREATE USER ann\nsql CREATE RESOURCE POOL p\n",
        "sql REVOKE r FROM ann\n",
        4_093,
        "sql REVOKE r FROM ann\nsql ALTER USER ann RESOURCE POOL p\nsql DROP USER bob\n",
    )?;
    ends_with(
        &rt,
        rt.alloc(),
        script.as_str(),
        b"ok\nrefused 17 changes 4096\nrefused 17 changes 4096\nrefused 8 bob\n",
    )
}

/// The lines that choose another pool each, two entries of the journal.
static CHOICES: &str = "set a pool p\nset a pool general\n";

/// With one session open and no query, 65,534 entries leave room for no more: the one more and the session's two would be
/// 65,537. What is running or open still ends.
#[test]
fn a_full_journal_takes_nothing_new(rt: HostRuntime) -> Result<(), Fail> {
    let script = around(
        rt.alloc(),
        "sql CREATE RESOURCE POOL p\nopen a dbadmin\n",
        CHOICES,
        32_766,
        "set a pool p\nset a pool general\nask a 1\nopen b dbadmin\nclose a\nopen b dbadmin\n",
    )?;
    ends_with(
        &rt,
        rt.alloc(),
        script.as_str(),
        b"a set\na refused 25 65536\na refused 25 65536\nb refused 25 65536\na closed\nb refused 25 65536\n",
    )
}

/// A query keeps 40 entries free from its Submit on: 65,493 entries leave room for it, and 65,494 do not.
#[test]
fn a_query_wants_room_for_its_entries(rt: HostRuntime) -> Result<(), Fail> {
    let before = "sql CREATE RESOURCE POOL p\nopen a dbadmin\n";
    let fits = around(
        rt.alloc(),
        before,
        CHOICES,
        32_746,
        "ask a 1\nset a pool p\ndone a\n",
    )?;
    ends_with(
        &rt,
        rt.alloc(),
        fits.as_str(),
        b"a set\na admitted 23658496 general 23658496 0\na refused 25 65536\na released 23658496\n",
    )?;
    let full = around(
        rt.alloc(),
        before,
        CHOICES,
        32_746,
        "set a pool p\nask a 1\nset a pool general\n",
    )?;
    ends_with(
        &rt,
        rt.alloc(),
        full.as_str(),
        b"a set\na refused 25 65536\na set\n",
    )
}

/// Beside a live query and two open sessions, 65,491 entries leave room for one more, and 65,492 do not.
#[test]
fn others_keep_what_queries_and_sessions_need(rt: HostRuntime) -> Result<(), Fail> {
    let script = around(
        rt.alloc(),
        "sql CREATE RESOURCE POOL p\nopen a dbadmin\nopen b dbadmin\nask b 1\n",
        CHOICES,
        32_744,
        "set a pool p\nset a pool general\nopen c dbadmin\ndone b\nset a pool general\n",
    )?;
    ends_with(
        &rt,
        rt.alloc(),
        script.as_str(),
        b"a set\na set\na refused 25 65536\nc refused 25 65536\nb released 23658496\na set\n",
    )
}
