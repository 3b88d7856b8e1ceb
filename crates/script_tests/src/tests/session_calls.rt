//! Sessions over a desk, with what they are answered worked out by hand from the rules.

use machine::desk::Desk;
use pool_table::sound;
use rm_base::definitions::Definitions;
use rm_base::entry::Account;
use rm_base::event::Event;
use rm_base::moment::Moment;
use rm_base::name::Name;
use rm_base::refusal::Refusal;
use rm_base::snapshot::Condition;
use sessions::host::Host;
use sessions::session::Session;
use sessions::submitted::Submitted;
use std::alloc::Global;
use std::process::Abort;
use std::test::Fail;

/// A desk of 100 MiB and 8 cores, where GENERAL's budget is 23,658,496.
fn desk(rt: &impl Abort, alloc: Global) -> Result<Desk, Fail> {
    let definitions = Definitions::new(alloc, 104_857_600, 8)?;
    assert!(rt; sound(&definitions));
    Ok(Desk::new(alloc, definitions, 1_000)?)
}

/// Opens a session of `dbadmin`, runs a query in it, polls it on the way, and closes the session. What was told is where
/// the query's bytes came from, and how many it gave back.
fn course<H: Host>(host: &mut H) -> Result<Option<(Account, u64)>, Refusal> {
    let at = Moment::of(0);
    let mut session = Session::open(host, at, Name::dbadmin())?;
    match session.submit(host, at, 1) {
        Submitted::Admitted(grant, _) => match session.poll(host, at, Some(grant)) {
            Submitted::Admitted(grant, account) => {
                let bytes = session.finish(host, at, grant);
                match session.close(host, at) {
                    Ok(()) => Ok(Some((account, bytes))),
                    Err((_, refusal)) => Err(refusal),
                }
            }
            Submitted::Waiting(_) | Submitted::Ended(_) | Submitted::Refused(_) => Ok(None),
        },
        Submitted::Waiting(_) | Submitted::Ended(_) | Submitted::Refused(_) => Ok(None),
    }
}

#[test]
fn a_session_runs_a_query_and_closes(rt: HostRuntime) -> Result<(), Fail> {
    let mut desk = desk(&rt, rt.alloc())?;
    let account = Account {
        pool: Name::general(),
        own: 23_658_496,
        borrowed: 0,
    };
    assert_eq!(&rt;
        course(&mut desk),
        Ok(Some((account, 23_658_496))),
        "what was told"
    );
    assert_eq!(&rt; desk.entries().len(), 4, "the entries");
    Ok(())
}

/// What a look at a host shows: the memory in force, what the first session does, where the first running query's bytes
/// came from, and how many entries there are.
#[derive(Clone, Copy, Debug, PartialEq, Eq)]
struct Shown {
    in_force: u64,
    condition: Option<Condition>,
    account: Option<Account>,
    place: u64,
}

/// It is None where memory was wanting.
fn look_at<H: Host>(host: &mut H, alloc: Global) -> Option<Shown> {
    let looked = host.look(alloc).ok()?;
    let sessions = looked.snapshot.sessions.as_slice();
    let running = looked.snapshot.running.as_slice();
    Some(Shown {
        in_force: looked.snapshot.in_force,
        condition: sessions.first().map(|x| x.condition),
        account: running.first().map(|r| r.account),
        place: looked.place,
    })
}

/// Opens session 1 of `dbadmin`, and runs a query in it.
fn begin<H: Host>(host: &mut H) {
    let at = Moment::of(0);
    let user = Name::dbadmin();
    let _opened = host.call(at, &Event::Open { user });
    let _admitted = host.call(
        at,
        &Event::Submit {
            session: 1,
            floor: 1,
        },
    );
}

/// Finishes the query of session 1, and closes the session.
fn end<H: Host>(host: &mut H) {
    let at = Moment::of(0);
    let _released = host.call(at, &Event::Finish { session: 1 });
    let _closed = host.call(at, &Event::Close { session: 1 });
}

#[test]
fn a_look_shows_what_runs(rt: HostRuntime) -> Result<(), Fail> {
    let mut desk = desk(&rt, rt.alloc())?;
    let running = Shown {
        in_force: 99_614_720,
        condition: Some(Condition::Running),
        account: Some(Account {
            pool: Name::general(),
            own: 23_658_496,
            borrowed: 0,
        }),
        place: 2,
    };
    begin(&mut desk);
    assert_eq!(&rt; look_at(&mut desk, rt.alloc()), Some(running));
    let empty = Shown {
        in_force: 99_614_720,
        condition: None,
        account: None,
        place: 4,
    };
    end(&mut desk);
    assert_eq!(&rt; look_at(&mut desk, rt.alloc()), Some(empty));
    Ok(())
}
