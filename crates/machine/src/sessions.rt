//! Sessions, in the order of their numbers.
ghost use Rattle.std.specs.Prelude.{◌≡◌, ◌<◌, ◌≤◌, ◌+◌, ◌-◌, ◌==◌, ◌∷◌, ◌++◌, [], true, not, nat_lt, map, IfOk, IfSome, position, length};
ghost use Rattle.std.specs.List.{list_all};
ghost use Rattle.rm_base.specs.declared.limits.TheConstants.{SESSIONS_MOST};
ghost use Rattle.rm_rules.specs.State.{phase_of, is_idle, is_running, is_ended};
ghost use Rattle.rm_rules.specs.Change.{has_chosen, has_cap};
ghost use Rattle.rm_rules.specs.DropPool.{session_beside};
ghost use Rattle.rm_rules.specs.Healthy.{one_if};

use rm_base::bounded::Bounded;
use rm_base::limits::SESSIONS_MOST;
use rm_base::name::Name;
use rm_rules::dropped::named_in_place;
use rm_rules::state::{Phase, Session};
use std::alloc::{AllocError, Global};
use std::marker::Model;

pub fn is_idle(phase: Phase) -> bool
    ensures { result ≡ is_idle phase }
{
    match phase {
        Phase::Idle => true,
        Phase::Waiting => false,
        Phase::Running => false,
        Phase::Ended(_) => false,
    }
}

pub fn is_running(phase: Phase) -> bool
    ensures { result ≡ is_running phase }
{
    match phase {
        Phase::Idle => false,
        Phase::Waiting => false,
        Phase::Running => true,
        Phase::Ended(_) => false,
    }
}

pub fn is_ended(phase: Phase) -> bool
    ensures { result ≡ is_ended phase }
{
    match phase {
        Phase::Idle => false,
        Phase::Waiting => false,
        Phase::Running => false,
        Phase::Ended(_) => true,
    }
}

/// The session has chosen this pool.
pub fn has_chosen(x: &Session, pool: Name) -> bool
    ensures { result ≡ has_chosen x.now pool }
{
    match x.pool {
        Some(chosen) => chosen.same(pool),
        None => false,
    }
}

/// The session has this runtime cap of its own, or has none where none is given.
pub fn has_cap(x: &Session, cap: Option<u64>) -> bool
    ensures { result ≡ has_cap x.now cap }
{
    match cap {
        Some(cap) => match x.cap_ms {
            Some(own) => own == cap,
            None => false,
        },
        None => x.cap_ms.is_none(),
    }
}

/// A session that chose the pool has chosen GENERAL.
fn session_beside(pool: Name, x: Session) -> Session
    ensures { result ≡ session_beside pool x }
{
    Session {
        pool: named_in_place(pool, x.pool),
        ..x
    }
}

/// So many sessions have a live query once one of them goes from a phase to another.
fn live_after(live: usize, before: Phase, now: Phase) -> usize
    requires counted { one_if (not (is_idle before)) ≤ live }
    requires room { live ≤ SESSIONS_MOST }
    ensures { result + one_if (not (is_idle before)) ≡ live + one_if (not (is_idle now)) }
{
    let others = if is_idle(before) { live } else { live - 1 };
    if is_idle(now) { others } else { others + 1 }
}

/// The open sessions, in the order in which they were opened, which is that of their numbers, and how many of them have a
/// live query.
#[derive(Debug, Drop)]
pub struct Sessions {
    rows: Bounded<Session, SESSIONS_MOST>,
    live: usize,
}

impl Model for Sessions {
    ghost use Rattle.std.specs.Prelude.{List};
    ghost use Rattle.rm_rules.specs.declared.state.Session.{Session};
    ghost use Rattle.machine.specs.Sessions.{AreInOrder};

    ghost Value = { List Session };

    ghost view = { λ s. s.rows };

    ghost invariant = { AreInOrder };
}

impl Sessions {
    ghost use Rattle.rm_rules.specs.State.{session_called, phase_of, with_phase, with_choice, with_cap, without_session, live_queries};

    /// No session is open yet. All memory that is ever used for them is taken here.
    pub fn new(alloc: Global) -> Result<Sessions, AllocError>
        ensures { IfOk result (λ sessions. sessions ≡ []) }
    {
        Ok(Sessions {
            rows: Bounded::new(alloc)?,
            live: 0,
        })
    }

    pub fn rows(&self) -> &[Session]
        ensures rows { result.now ≡ self.now }
        ensures room { length self.now ≤ SESSIONS_MOST }
    {
        self.rows.rows()
    }

    pub fn len(&self) -> usize
        ensures value { result ≡ length self.now }
        ensures room { length self.now ≤ SESSIONS_MOST }
    {
        self.rows.len()
    }

    /// How many sessions have a live query.
    pub fn live(&self) -> usize
        ensures value { result ≡ live_queries self.now }
        ensures most { result ≤ SESSIONS_MOST }
    {
        self.live
    }

    /// Where the session of this number stands.
    fn place_of(&self, number: u32) -> Option<usize>
        ensures value { result ≡ position (λ x. x.number == number) self.now }
        ensures within { IfSome result (λ place. place < length self.now) }
    {
        let rows = self.rows.rows();
        let place = rows.partition_point(|x| x.number < number);
        if place < rows.len() && rows[place].number == number {
            Some(place)
        } else {
            None
        }
    }

    /// The session of this number.
    pub fn called(&self, number: u32) -> Option<Session>
        ensures { result ≡ session_called self.now number }
    {
        let place = self.place_of(number)?;
        Some(self.rows.rows()[place])
    }

    /// The phase of the session of this number; one that is not open has no query.
    pub fn phase_of(&self, number: u32) -> Phase
        ensures { result ≡ phase_of self.now number }
    {
        match self.called(number) {
            Some(x) => x.phase,
            None => Phase::Idle,
        }
    }

    /// One session more, with a number above those of all others. It has no query.
    pub fn add(&mut self, session: Session)
        requires room { length self.old < SESSIONS_MOST }
        requires newest { list_all (λ x. nat_lt x.number session.number) self.old ≡ true }
        requires idle { is_idle session.phase ≡ true }
        ensures { self.new ≡ self.old ++ session ∷ [] }
    {
        self.rows.add(session);
    }

    /// The session of this number goes over to this phase.
    pub fn set_phase(&mut self, number: u32, now: Phase)
        ensures { self.new ≡ with_phase number now self.old }
    {
        if let Some(place) = self.place_of(number) {
            let session = self.rows.rows()[place];
            self.live = live_after(self.live, session.phase, now);
            self.rows.set(
                place,
                Session {
                    phase: now,
                    ..session
                },
            );
        }
    }

    /// The session of this number chooses this pool.
    pub fn set_choice(&mut self, number: u32, pool: Name)
        ensures { self.new ≡ with_choice number pool self.old }
    {
        if let Some(place) = self.place_of(number) {
            let session = self.rows.rows()[place];
            self.rows.set(
                place,
                Session {
                    pool: Some(pool),
                    ..session
                },
            );
        }
    }

    /// The session of this number has this runtime cap of its own, or none.
    pub fn set_cap(&mut self, number: u32, cap: Option<u64>)
        ensures { self.new ≡ with_cap number cap self.old }
    {
        if let Some(place) = self.place_of(number) {
            let session = self.rows.rows()[place];
            self.rows.set(
                place,
                Session {
                    cap_ms: cap,
                    ..session
                },
            );
        }
    }

    /// The session of this number is gone.
    pub fn remove(&mut self, number: u32)
        ensures { self.new ≡ without_session number self.old }
    {
        if let Some(place) = self.place_of(number) {
            let session = self.rows.remove(place);
            self.live = live_after(self.live, session.phase, Phase::Idle);
        }
    }

    /// Each session that chose the pool has chosen GENERAL.
    pub fn put_beside(&mut self, pool: Name)
        ensures { self.new ≡ map (session_beside pool) self.old }
    {
        put_rows_beside(&mut self.rows, pool);
    }
}

fn put_rows_beside(rows: &mut Bounded<Session, SESSIONS_MOST>, pool: Name)
    ensures { rows.new ≡ map (session_beside pool) rows.old }
{
    for i in 0..rows.len() {
        let x = session_beside(pool, rows.rows()[i]);
        rows.set(i, x);
    }
}
