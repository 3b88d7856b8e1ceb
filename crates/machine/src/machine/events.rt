//! What an event does, or why it is refused.
ghost use Rattle.std.specs.Prelude.{◌≡◌, ◌<◌, ◌≤◌, ◌*◌, false, Some, None, Ok, Err, is_some, IfOk, IfErr, OnErr};
ghost use Rattle.rm_base.specs.declared.limits.TheConstants.{SESSIONS_MOST};
ghost use Rattle.rm_base.specs.declared.refusal.Refusal.TheVariants.{NoSuchSession};

use super::Machine;
use crate::done::Done;
use pool_table::{default_pool, usage};
use rm_base::definitions::default_pool_row;
use rm_base::event::Event;
use rm_base::limits::{ENTRIES_A_QUERY, ENTRIES_A_SESSION};
use rm_base::name::Name;
use rm_base::refusal::Refusal;
use rm_base::rows::PoolRow;
use rm_rules::readings::{pool_called, user_called};
use rm_rules::state::Session;

impl Machine {
    ghost use Rattle.rm_rules.specs.State.{session_of, session_called, session_pool, counted_entries, live_queries};
    ghost use Rattle.std.specs.Prelude.{IsTrue};
    ghost use Rattle.rm_base.specs.Ranges.{is_pool_in_range};
    ghost use Rattle.rm_rules.specs.Definitions.{pool_row, user_called, usage};
    ghost use Rattle.rm_rules.specs.Sound.{IsSound, has_pool};
    ghost use Rattle.rm_rules.specs.Change.{is_journal_full, change};
    ghost use Rattle.rm_rules.specs.Healthy.{IsHealthy};
    ghost use Rattle.rm_rules.specs.Replay.{IsFormed};
    ghost use Rattle.machine.specs.Done.{change_to};

    /// The open session of this number, where the seat has opened it.
    fn session_of(&self, seat: u32, number: u32) -> Result<Session, Refusal>
        ensures ok { IfOk result (λ x. session_of self.now seat number ≡ Some x) }
        ensures open { IfOk result (λ x. session_called self.now.sessions x.number ≡ Some x) }
        ensures none { OnErr result (session_of self.now seat number ≡ None) }
        ensures err { IfErr result (λ refusal. refusal ≡ NoSuchSession) }
    {
        let Some(x) = self.sessions.called(number) else {
            return Err(Refusal::NoSuchSession);
        };
        if x.seat == seat {
            Ok(x)
        } else {
            Err(Refusal::NoSuchSession)
        }
    }

    /// The pool in which the session's next query would wait.
    pub fn session_pool(&self, x: &Session) -> Name
        ensures { result ≡ session_pool self.now.definitions x.now }
    {
        match x.pool {
            Some(pool) => pool,
            None => default_pool(&self.definitions, x.user),
        }
    }

    pub fn has_pool(&self, pool: Name) -> bool
        ensures { result ≡ has_pool self.now.definitions pool }
    {
        pool_called(self.definitions.pools.rows(), pool).is_some()
    }

    /// The pool's row; a pool that is not there is read as one with all defaults.
    pub fn row(&self, pool: Name) -> PoolRow
        requires { IsSound self.now.definitions }
        ensures value { result ≡ pool_row self.now.definitions pool }
        ensures in_range { IsTrue (is_pool_in_range result) }
    {
        let rows = self.definitions.pools.rows();
        match self.places.place_of(rows, pool) {
            Some(place) => rows[place],
            None => default_pool_row(pool),
        }
    }

    pub fn has_user(&self, user: Name) -> bool
        ensures { result ≡ is_some (user_called self.now.definitions.users user) }
    {
        user_called(self.definitions.users.rows(), user).is_some()
    }

    pub fn has_usage(&self, user: Name, pool: Name) -> bool
        ensures { result ≡ usage self.now.definitions user pool }
    {
        usage(&self.definitions, user, pool)
    }

    /// How many queries are live.
    pub fn live_queries(&self) -> usize
        ensures value { result ≡ live_queries self.now.sessions }
        ensures most { result ≤ SESSIONS_MOST }
    {
        self.sessions.live()
    }

    /// With one entry more, the journal would not keep free what so many live queries and open sessions may still need.
    pub fn is_journal_full(&self, live: usize, open_sessions: usize) -> bool
        requires healthy { IsHealthy self.now }
        requires live { live ≤ 2 * SESSIONS_MOST }
        requires sessions { open_sessions ≤ 2 * SESSIONS_MOST }
        ensures value { result ≡ is_journal_full self.now live open_sessions }
        ensures room { result ≡ false → counted_entries self.now.journal < self.now.room }
    {
        let owed = ENTRIES_A_QUERY * live + ENTRIES_A_SESSION * open_sessions;
        u64::from(self.room) < self.counted + 1 + owed as u64
    }

    /// What the event does, or why it is refused.
    pub fn change(&mut self, seat: u32, event: &Event) -> Result<Done, Refusal>
        requires healthy { IsHealthy self.old }
        requires formed { IsFormed event.now }
        ensures ok { IfOk result (λ done. change self.old seat event.now ≡ Ok (change_to self.new done)) }
        ensures err { IfErr result (λ refusal. change self.old seat event.now ≡ Err refusal) }
        ensures kept { OnErr result (self.new ≡ self.old) }
    {
        match event {
            Event::Define(statement) => self.define(statement),
            Event::Open { user } => self.open_session(seat, *user),
            Event::SetPool { session, pool } => {
                let x = self.session_of(seat, *session)?;
                self.choose(&x, *pool)
            }
            Event::SetCap { session, cap } => {
                let x = self.session_of(seat, *session)?;
                self.set_cap(&x, *cap)
            }
            Event::Submit { session, floor } => {
                let x = self.session_of(seat, *session)?;
                self.submit(&x, *floor)
            }
            Event::Poll { session } => {
                let x = self.session_of(seat, *session)?;
                self.poll(&x)
            }
            Event::Check { session } => {
                let x = self.session_of(seat, *session)?;
                self.check(&x)
            }
            Event::GiveWay { session } => {
                let x = self.session_of(seat, *session)?;
                self.give_way(&x)
            }
            Event::Finish { session } => {
                let x = self.session_of(seat, *session)?;
                self.finish(&x)
            }
            Event::Cancel { by, target } => {
                let x = self.session_of(seat, *by)?;
                self.cancel(&x, *target)
            }
            Event::Close { session } => {
                let x = self.session_of(seat, *session)?;
                self.close(&x)
            }
        }
    }
}
