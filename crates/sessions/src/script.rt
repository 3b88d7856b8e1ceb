//! A script that runs: its machine, the sessions that it has opened there, and its moment.

ghost use Rattle.std.specs.Prelude.{◌≡◌, ◌≤◌, IfOk, string_bytes};
ghost use Rattle.rm_base.specs.declared.reply.Reply.TheVariants as reply;
ghost use Rattle.sessions.specs.Turns.{ScriptState, Goes, told_first, has_no_place};
ghost use Rattle.sessions.specs.Running.{seen_turn};
ghost use Rattle.sessions.specs.Texts.{bare_text};

use crate::answer::{Answer, run_plan};
use crate::command::{Command, Request, read_command};
use crate::comments::is_comment;
use crate::failure::{Failure, commit_failure};
use crate::held::{Held, has_session, place_of};
use crate::host::Host;
use crate::lines::readable;
use crate::numbers::Number;
use crate::plans::Plans;
use crate::session::Session;
use crate::texts::{
    bare_text, chosen_text, line_text, loaded_text, long_text, missing_text, queued_text,
    unloaded_text,
};
use csv_tables::load_error::LoadError;
use csv_tables::tables::Tables;
use machine::desk::Desk;
use pool_sql::reading::{ReadError, read_statement};
use pool_table::{accept, apply};
use query_plan::plan::Plan;
use query_plan::reading::{ReadError as SelectError, read_select};
use rm_base::definitions::Definitions;
use rm_base::event::Event;
use rm_base::limits::SCRIPT_ROOM;
use rm_base::moment::Moment;
use rm_base::name::Name;
use rm_base::refusal::Refusal;
use rm_base::reply::Reply;
use rm_base::statement::Statement;
use rm_outside::keeper::Keeper;
use rm_outside::shelf::{Shelf, ShelfError};
use rm_outside::spool::Spool;
use std::alloc::{AllocError, Global};
use std::marker::Model;
use system_tables::rows::{ShowError, Shown, table_rows};

/// A script that runs.
#[derive(Drop)]
pub struct Script {
    desk: Desk,
    held: Vec<Held>,
    plans: Plans,
    tables: Tables,
    moment: Moment,
}

impl Model for Script {
    ghost use Rattle.sessions.specs.Turns.{ScriptState};

    ghost Value = { ScriptState };

    ghost use Rattle.sessions.specs.Kept.{seen_script, IsKept};

    ghost view = { seen_script };

    ghost invariant = { IsKept };
}

/// What a line did: it is bad, it prints a text, an answer or a table, or it prints a text and ends the script.
#[derive(Drop)]
pub enum Turned {
    Bad,
    Goes(String),
    Answers(Answer),
    /// A table, with what is told before it.
    Shows { before: String, table: Shown },
    Stops(String),
}

impl Script {
    ghost use Rattle.std.specs.Prelude.{◌≡◌, ◌≤◌, ◌⊎◌, true, false, [], Some, Ok, IfOk, IfErr, IfSome, OnOk, OnErr, IsOk, IsSome, string_bytes};
    ghost use Rattle.rm_outside.specs.Stored.{rows_of};
    ghost use Rattle.rm_rules.specs.Acceptance.{accepted};
    ghost use Rattle.rm_base.specs.Ranges.{is_statement_in_range};
    ghost use Rattle.rm_base.specs.WellFormed.{IsWellFormed};
    ghost use Rattle.rm_rules.specs.Step.{step};
    ghost use Rattle.rm_rules.specs.Replay.{IsFormed};
    ghost use Rattle.rm_rules.specs.Sound.{IsSound};
    ghost use Rattle.pool_sql.specs.Reading.{read_of};
    ghost use Rattle.sessions.specs.Commands.{seen_command, seen_request, SetPool, SetCap, Ask, Poll, Check, Close};
    ghost use Rattle.sessions.specs.Script.{Files, first_state, line_turn};
    ghost use Rattle.csv_tables.specs.Loading.{table_of};
    ghost use Rattle.query_run.specs.Running.{IsRunnable};
    ghost use Rattle.sessions.specs.Plans.{plan_of};
    ghost use Rattle.sessions.specs.Turns.{Goes, turn, at_turn, read_turn, statement_turn, open_turn, chosen_turn, after_open, session_turn, query_turn, query_for, after_submit, after_poll, way_turn, after_finish, done_text, finish_turn, end_turn, checked_turn, done_turn, cancel_turn, table_turn, loaded_turn, show_turn, has_no_place};
    ghost use Rattle.machine.specs.Looked.{snapshot_of};
    ghost use Rattle.system_tables.specs.TableRows.{shown_of};
    ghost use Rattle.sessions.specs.World.{WhereTold, TellsRows, seen_shelf, seen_keeper};
    ghost use Rattle.sessions.specs.SessionNames.{has_session, place_named, session_named};
    ghost use Rattle.sessions.specs.Running.{seen_turn, keeps_sessions, DoesRequest, Makes, IsLineFault, IsCommandFault, IsLoadFault, IsCommitFault, IsTextFault, IsStatementFault, IsStoredBy};

    /// A script before its first line, which begins with these definitions.
    pub fn new(alloc: Global, definitions: Definitions) -> Result<Script, AllocError>
        requires { IsSound definitions }
        ensures { IfOk result (λ s. s ≡ first_state definitions) }
    {
        Ok(Script {
            desk: Desk::new(alloc, definitions, SCRIPT_ROOM)?,
            held: Vec::new(alloc),
            plans: Plans::new(alloc),
            tables: Tables::new(alloc),
            moment: Moment::of(0),
        })
    }

    /// Does what a line says.
    ///
    /// The rows that are stored, where they are told, are those of the definitions in force, before it and behind it.
    pub fn take_line<H: Shelf, P: Spool, K: Keeper>(
        &mut self,
        alloc: Global,
        shelf: &mut H,
        spool: &mut P,
        keeper: &mut K,
        line: &[u8],
    ) -> Result<Turned, Failure>
        requires { TellsRows (K.stored keeper.old) self.old.machine.definitions }
        ensures turn { IfOk result (λ t. WhereTold (H.files shelf.old) (λ files. seen_turn t self.new ≡ line_turn files self.old line.now)) }
        ensures fault { IfErr result (IsLineFault line.now self.old.machine.definitions (seen_shelf H.Shelf shelf.old) (seen_shelf H.Shelf shelf.new)
            (seen_keeper K.Keeper keeper.old) (seen_keeper K.Keeper keeper.new)) }
        ensures kept { IfOk result (λ t. WhereTold (K.stored keeper.new) (IsStoredBy self.old.machine.definitions (seen_turn t self.new))) }
        ensures left { IfErr result (λ f. WhereTold (K.stored keeper.new) (λ rows. (rows ≡ rows_of self.old.machine.definitions)
            ⊎ ((files : Files) → IsStoredBy self.old.machine.definitions (line_turn files self.old line.now) rows))) }
        ensures told { IsSome (K.stored keeper.new) → IsSome (K.stored keeper.old) }
        ensures later { H.faults shelf.old ≤ H.faults shelf.new }
        ensures keeper_later { K.faults keeper.old ≤ K.faults keeper.new }
        ensures files { H.files shelf.new ≡ H.files shelf.old }
        ensures spool { spool.new ≡ spool.old }
    {
        let Some(line) = readable(line) else {
            return Ok(Turned::Bad);
        };
        if is_comment(line.as_bytes()) {
            return Ok(Turned::Goes(String::new(alloc)));
        }
        match read_command(alloc, line)? {
            None => Ok(Turned::Bad),
            Some(command) => self.take_command(alloc, shelf, spool, keeper, command),
        }
    }

    /// Does what a command says.
    fn take_command<H: Shelf, P: Spool, K: Keeper>(
        &mut self,
        alloc: Global,
        shelf: &mut H,
        spool: &mut P,
        keeper: &mut K,
        command: Command<'_>,
    ) -> Result<Turned, Failure>
        requires { TellsRows (K.stored keeper.old) self.old.machine.definitions }
        ensures turn { IfOk result (λ t. WhereTold (H.files shelf.old) (λ files. seen_turn t self.new ≡ turn files self.old (seen_command command.entry))) }
        ensures fault { IfErr result (IsCommandFault (seen_command command.entry) self.old.machine.definitions (seen_shelf H.Shelf shelf.old) (seen_shelf H.Shelf shelf.new)
            (seen_keeper K.Keeper keeper.old) (seen_keeper K.Keeper keeper.new)) }
        ensures kept { IfOk result (λ t. WhereTold (K.stored keeper.new) (IsStoredBy self.old.machine.definitions (seen_turn t self.new))) }
        ensures left { IfErr result (λ f. WhereTold (K.stored keeper.new) (λ rows. (rows ≡ rows_of self.old.machine.definitions)
            ⊎ ((files : Files) → IsStoredBy self.old.machine.definitions (turn files self.old (seen_command command.entry)) rows))) }
        ensures told { IsSome (K.stored keeper.new) → IsSome (K.stored keeper.old) }
        ensures later { H.faults shelf.old ≤ H.faults shelf.new }
        ensures keeper_later { K.faults keeper.old ≤ K.faults keeper.new }
        ensures files { H.files shelf.new ≡ H.files shelf.old }
        ensures spool { spool.new ≡ spool.old }
    {
        match command {
            Command::At(moment) => Ok(self.move_to(alloc, moment)),
            Command::Sql(text) => self.take_text(alloc, keeper, text),
            Command::Open {
                session,
                user,
                pool,
            } => Ok(self.open(alloc, session, user, pool)?),
            Command::Query { session, text } => Ok(self.query(alloc, session, text)?),
            Command::Load { name, path } => self.load(alloc, shelf, name, path),
            Command::Show(name) => Ok(self.show(alloc, name)?),
            Command::Of(session, request) => Ok(self.take_request(alloc, spool, session, request)?),
        }
    }

    /// `at N`
    fn move_to(&mut self, alloc: Global, moment: Number) -> Turned
        ensures { seen_turn result self.new ≡ at_turn self.old moment.value }
    {
        let moment = Moment::of(moment.value);
        if moment < self.moment {
            return Turned::Bad;
        }
        self.moment = moment;
        Turned::Goes(String::new(alloc))
    }

    /// `sql TEXT`
    fn take_text<K: Keeper>(
        &mut self,
        alloc: Global,
        keeper: &mut K,
        text: &str,
    ) -> Result<Turned, Failure>
        requires { TellsRows (K.stored keeper.old) self.old.machine.definitions }
        ensures turn { IfOk result (λ t. seen_turn t self.new ≡ read_turn self.old (read_of text.now)) }
        ensures fault { IfErr result (IsTextFault text.now self.old.machine.definitions (seen_keeper K.Keeper keeper.old) (seen_keeper K.Keeper keeper.new)) }
        ensures kept { IfOk result (λ t. WhereTold (K.stored keeper.new) (IsStoredBy self.old.machine.definitions (seen_turn t self.new))) }
        ensures left { IfErr result (λ f. WhereTold (K.stored keeper.new) (λ rows. (rows ≡ rows_of self.old.machine.definitions)
            ⊎ IsStoredBy self.old.machine.definitions (read_turn self.old (read_of text.now)) rows)) }
        ensures told { IsSome (K.stored keeper.new) → IsSome (K.stored keeper.old) }
        ensures later { K.faults keeper.old ≤ K.faults keeper.new }
    {
        match read_statement(alloc, text) {
            Ok(statement) => self.take_statement(alloc, keeper, &statement),
            Err(ReadError::Refused(refusal)) => Ok(refused(alloc, refusal)?),
            Err(ReadError::Memory) => Err(Failure::Memory),
        }
    }

    /// A statement that was read. It changes nothing unless it is accepted.
    fn take_statement<K: Keeper>(
        &mut self,
        alloc: Global,
        keeper: &mut K,
        statement: &Statement,
    ) -> Result<Turned, Failure>
        requires well_formed { IsWellFormed statement.now }
        requires in_range { is_statement_in_range statement.now ≡ true }
        requires agrees { TellsRows (K.stored keeper.old) self.old.machine.definitions }
        ensures turn { IfOk result (λ t. seen_turn t self.new ≡ statement_turn self.old statement.now) }
        ensures fault { IfErr result (IsStatementFault (accepted self.old.machine.definitions statement.now) (seen_keeper K.Keeper keeper.old) (seen_keeper K.Keeper keeper.new)) }
        ensures kept { IfOk result (λ t. WhereTold (K.stored keeper.new) (IsStoredBy self.old.machine.definitions (seen_turn t self.new))) }
        ensures left { IfErr result (λ f. WhereTold (K.stored keeper.new) (λ rows. (rows ≡ rows_of self.old.machine.definitions)
            ⊎ IsStoredBy self.old.machine.definitions (statement_turn self.old statement.now) rows)) }
        ensures told { IsSome (K.stored keeper.new) → IsSome (K.stored keeper.old) }
        ensures later { K.faults keeper.old ≤ K.faults keeper.new }
    {
        match accept(self.definitions(), statement) {
            Ok(()) => {
                self.store(alloc, keeper, statement)?;
                Ok(self.define(alloc, statement)?)
            }
            Err(refusal) => Ok(refused(alloc, refusal)?),
        }
    }

    /// Stores the definitions that an accepted statement leaves.
    fn store<K: Keeper>(
        &self,
        alloc: Global,
        keeper: &mut K,
        statement: &Statement,
    ) -> Result<(), Failure>
        requires in_range { is_statement_in_range statement.now ≡ true }
        requires accepted { IsOk (accepted self.now.machine.definitions statement.now) }
        ensures ok { OnOk result (WhereTold (K.stored keeper.new) (λ rows. IfOk (accepted self.now.machine.definitions statement.now) (λ next. rows ≡ rows_of next))) }
        ensures err { OnErr result (IfSome (K.stored keeper.new) (λ rows. K.stored keeper.old ≡ Some rows)) }
        ensures fault { IfErr result (IsCommitFault (seen_keeper K.Keeper keeper.old) (seen_keeper K.Keeper keeper.new)) }
        ensures told { IsSome (K.stored keeper.new) → IsSome (K.stored keeper.old) }
        ensures later { K.faults keeper.old ≤ K.faults keeper.new }
    {
        let next = self.left_by(alloc, statement)?;
        keeper.commit(alloc, &next).map_err(commit_failure)
    }

    /// The definitions that an accepted statement leaves.
    fn left_by(&self, alloc: Global, statement: &Statement) -> Result<Definitions, AllocError>
        requires in_range { is_statement_in_range statement.now ≡ true }
        requires accepted { IsOk (accepted self.now.machine.definitions statement.now) }
        ensures next { IfOk result (λ next. accepted self.now.machine.definitions statement.now ≡ Ok next) }
        ensures sound { IfOk result IsSound }
    {
        let mut next = self.definitions().copy(alloc)?;
        apply(&mut next, statement);
        Ok(next)
    }

    /// Defines what an accepted statement says.
    fn define(&mut self, alloc: Global, statement: &Statement) -> Result<Turned, AllocError>
        requires well_formed { IsWellFormed statement.now }
        requires accepted { IsOk (accepted self.old.machine.definitions statement.now) }
        ensures { IfOk result (λ t. seen_turn t self.new ≡ statement_turn self.old statement.now) }
    {
        let reply = self.call(&Event::Define(*statement));
        Ok(Turned::Goes(bare_text(alloc, reply)?))
    }

    /// `open S USER` or `open S USER POOL`
    fn open(
        &mut self,
        alloc: Global,
        session: Name,
        user: Name,
        pool: Option<Name>,
    ) -> Result<Turned, AllocError>
        ensures { IfOk result (λ t. seen_turn t self.new ≡ open_turn self.old session user pool) }
    {
        if self.has_session(session) {
            return Ok(Turned::Bad);
        }
        match self.open_session(session, user)? {
            Reply::Opened(number) => self.choose_pool(alloc, session, number, pool),
            reply => Ok(Turned::Goes(line_text(alloc, session, reply)?)),
        }
    }

    /// Opens a session, and holds it if it was opened.
    fn open_session(&mut self, session: Name, user: Name) -> Result<Reply, AllocError>
        ensures reply { IfOk result (λ reply. reply ≡ (step self.old.machine 0 self.old.moment (Event.Open user)).reply) }
        ensures state { IfOk result (λ reply. let o = step self.old.machine 0 self.old.moment (Event.Open user) in
            self.new ≡ after_open (record self.old { machine = o.state }) session reply) }
    {
        match Session::open(&mut self.desk, self.moment, user) {
            Ok(opened) => {
                let number = opened.number();
                self.held.push(Held {
                    name: session,
                    session: opened,
                    grant: None,
                    leaving: false,
                })?;
                Ok(Reply::Opened(number))
            }
            Err(refusal) => Ok(Reply::Refused(refusal)),
        }
    }

    /// Chooses the pool of a session that was opened, if one is named.
    fn choose_pool(
        &mut self,
        alloc: Global,
        session: Name,
        number: u32,
        pool: Option<Name>,
    ) -> Result<Turned, AllocError>
        ensures { IfOk result (λ t. seen_turn t self.new ≡ chosen_turn self.old session number pool) }
    {
        let Some(pool) = pool else {
            return Ok(Turned::Goes(line_text(alloc, session, Reply::Opened(number))?));
        };
        let reply = self.call(&Event::SetPool {
            session: number,
            pool,
        });
        Ok(Turned::Goes(chosen_text(alloc, session, number, reply)?))
    }

    /// Does what a line asks of the session that has a name.
    fn take_request<P: Spool>(
        &mut self,
        alloc: Global,
        spool: &mut P,
        session: Name,
        request: Request,
    ) -> Result<Turned, AllocError>
        ensures turn { IfOk result (λ t. seen_turn t self.new ≡ session_turn self.old session (seen_request request) (session_named self.old.names session)) }
        ensures spool { spool.new ≡ spool.old }
    {
        let Some(place) = self.place_of(session) else {
            return Ok(Turned::Bad);
        };
        match request {
            Request::SetPool(pool) => Ok(Turned::Goes(self.set_pool(alloc, session, place, pool)?)),
            Request::SetCap(cap) => Ok(Turned::Goes(self.set_cap(alloc, session, place, cap)?)),
            Request::Ask(floor) => Ok(Turned::Goes(self.ask(alloc, session, place, floor)?)),
            Request::Poll => Ok(Turned::Goes(self.poll(alloc, session, place)?)),
            Request::Check => Ok(Turned::Goes(self.check(alloc, session, place)?)),
            Request::Way => {
                let number = self.number_at(session, place);
                Ok(Turned::Goes(self.way(alloc, session, place, number)?))
            }
            Request::Done => {
                let number = self.number_at(session, place);
                self.done(alloc, spool, session, place, number)
            }
            Request::Cancel(target) => {
                let number = self.number_at(session, place);
                self.cancel(alloc, session, number, target)
            }
            Request::Close => Ok(Turned::Goes(self.close(alloc, session, place)?)),
        }
    }

    /// `set S pool POOL`, where S has this place
    fn set_pool(
        &mut self,
        alloc: Global,
        session: Name,
        place: usize,
        pool: Name,
    ) -> Result<String, AllocError>
        requires { place_named self.old.names session ≡ Some place }
        ensures { IfOk result (λ text. DoesRequest self.old self.new session (SetPool pool) (string_bytes text)) }
    {
        let event = Event::SetPool {
            session: self.held[place].session.number(),
            pool,
        };
        let reply = self.call(&event);
        line_text(alloc, session, reply)
    }

    /// `set S cap N` or `set S cap none`, where S has this place
    fn set_cap(
        &mut self,
        alloc: Global,
        session: Name,
        place: usize,
        cap: Option<u64>,
    ) -> Result<String, AllocError>
        requires { place_named self.old.names session ≡ Some place }
        ensures { IfOk result (λ text. DoesRequest self.old self.new session (SetCap cap) (string_bytes text)) }
    {
        let event = Event::SetCap {
            session: self.held[place].session.number(),
            cap,
        };
        let reply = self.call(&event);
        line_text(alloc, session, reply)
    }

    /// `ask S FLOOR`, where S has this place
    fn ask(
        &mut self,
        alloc: Global,
        session: Name,
        place: usize,
        floor: u64,
    ) -> Result<String, AllocError>
        requires { place_named self.old.names session ≡ Some place }
        ensures { IfOk result (λ text. DoesRequest self.old self.new session (Ask floor) (string_bytes text)) }
    {
        let number = self.number_at(session, place);
        let reply = self.submit(session, place, number, floor);
        queued_text(alloc, session, reply)
    }

    /// `query S TEXT`
    fn query(&mut self, alloc: Global, session: Name, text: &str) -> Result<Turned, AllocError>
        ensures { IfOk result (λ t. seen_turn t self.new ≡ query_for self.old session text.now (session_named self.old.names session)) }
    {
        let Some(place) = self.place_of(session) else {
            return Ok(Turned::Bad);
        };
        let number = self.number_at(session, place);
        match read_select(alloc, text, self.tables.catalog()) {
            Ok(plan) => self.submit_plan(alloc, session, place, number, plan),
            Err(SelectError::Refused(refusal)) => {
                Ok(Turned::Goes(line_text(alloc, session, Reply::Refused(refusal))?))
            }
            Err(SelectError::Memory) => Err(AllocError),
        }
    }

    /// Submits a plan, which is kept while its query waits or runs.
    fn submit_plan(
        &mut self,
        alloc: Global,
        session: Name,
        place: usize,
        number: u32,
        plan: Plan,
    ) -> Result<Turned, AllocError>
        requires place { place_named self.old.names session ≡ Some place }
        requires number { session_named self.old.names session ≡ Some number }
        requires runnable { IsRunnable plan self.old.tables }
        ensures { IfOk result (λ t. seen_turn t self.new ≡ query_turn self.old session number (Ok plan)) }
    {
        let reply = self.submit(session, place, number, plan.floor());
        self.keep_plan(number, plan, reply)?;
        Ok(Turned::Goes(queued_text(alloc, session, reply)?))
    }

    /// Keeps a plan that was submitted, while its query waits or runs.
    fn keep_plan(&mut self, number: u32, plan: Plan, reply: Reply) -> Result<(), AllocError>
        requires { IsRunnable plan self.old.tables }
        ensures { OnOk result (self.new ≡ after_submit self.old number plan reply) }
    {
        match reply {
            Reply::Admitted { .. } => self.plans.keep(number, plan),
            Reply::Waiting { .. } => self.plans.keep(number, plan),
            _ => Ok(()),
        }
    }

    /// `poll S`, where S has this place
    fn poll(&mut self, alloc: Global, session: Name, place: usize) -> Result<String, AllocError>
        requires { place_named self.old.names session ≡ Some place }
        ensures { IfOk result (λ text. DoesRequest self.old self.new session Poll (string_bytes text)) }
    {
        let number = self.number_at(session, place);
        let reply = self.poll_query(session, place, number);
        self.forget_ended(number, reply);
        line_text(alloc, session, reply)
    }

    /// `check S`, where S has this place
    fn check(&mut self, alloc: Global, session: Name, place: usize) -> Result<String, AllocError>
        requires { place_named self.old.names session ≡ Some place }
        ensures { IfOk result (λ text. DoesRequest self.old self.new session Check (string_bytes text)) }
    {
        let number = self.number_at(session, place);
        let reply = self.check_query(session, place, number);
        line_text(alloc, session, reply)
    }

    /// `way S`, where S has this place
    fn way(
        &mut self,
        alloc: Global,
        session: Name,
        place: usize,
        number: u32,
    ) -> Result<String, AllocError>
        requires place { place_named self.old.names session ≡ Some place }
        requires number { session_named self.old.names session ≡ Some number }
        ensures { IfOk result (λ text. Goes (string_bytes text) self.new ≡ way_turn self.old session number) }
    {
        let reply = self.give_way(session, place, number);
        self.forget_ended(number, reply);
        queued_text(alloc, session, reply)
    }

    /// `cancel S T`, where S has this number
    fn cancel(
        &mut self,
        alloc: Global,
        session: Name,
        number: u32,
        target: Name,
    ) -> Result<Turned, AllocError>
        ensures { IfOk result (λ t. seen_turn t self.new ≡ cancel_turn self.old session number (session_named self.old.names target)) }
    {
        let Some(place) = self.place_of(target) else {
            return Ok(Turned::Bad);
        };
        let event = Event::Cancel {
            by: number,
            target: self.number_at(target, place),
        };
        let reply = self.call(&event);
        Ok(Turned::Goes(line_text(alloc, session, reply)?))
    }

    /// Keeps no plan of a query whose end was told.
    fn forget_ended(&mut self, number: u32, reply: Reply)
        ensures { self.new ≡ after_poll self.old number reply }
    {
        if let Reply::Ended(_) = reply {
            self.plans.forget(number);
        }
    }

    /// `done S`, where S has this place. Only a query with a plan is checked.
    fn done<P: Spool>(
        &mut self,
        alloc: Global,
        spool: &mut P,
        session: Name,
        place: usize,
        number: u32,
    ) -> Result<Turned, AllocError>
        requires place { place_named self.old.names session ≡ Some place }
        requires number { session_named self.old.names session ≡ Some number }
        ensures turn { IfOk result (λ t. seen_turn t self.new ≡ done_turn self.old session number (plan_of self.old.plans number)) }
        ensures spool { spool.new ≡ spool.old }
    {
        if !self.plans.has(number) {
            return self.finish(alloc, spool, session, place, number);
        }
        let verdict = self.check_query(session, place, number);
        self.go_on(alloc, spool, session, place, number, verdict)
    }

    /// What `done S` does with a plan, by the reply to Check.
    fn go_on<P: Spool>(
        &mut self,
        alloc: Global,
        spool: &mut P,
        session: Name,
        place: usize,
        number: u32,
        reply: Reply,
    ) -> Result<Turned, AllocError>
        requires place { place_named self.old.names session ≡ Some place }
        requires number { session_named self.old.names session ≡ Some number }
        ensures turn { IfOk result (λ t. seen_turn t self.new ≡ checked_turn self.old session number reply) }
        ensures spool { spool.new ≡ spool.old }
    {
        match reply {
            Reply::Go => self.finish(alloc, spool, session, place, number),
            Reply::MovedOn(_) => {
                let first = line_text(alloc, session, reply)?;
                let turned = self.finish(alloc, spool, session, place, number)?;
                told_first(first, turned)
            }
            Reply::GiveWay(_) => {
                let first = line_text(alloc, session, reply)?;
                let text = self.way(alloc, session, place, number)?;
                told_first(first, Turned::Goes(text))
            }
            Reply::CapEnded { .. } | Reply::Stopping => {
                let first = line_text(alloc, session, reply)?;
                let text = self.end(alloc, session, place, number)?;
                told_first(first, Turned::Goes(text))
            }
            _ => Ok(Turned::Goes(line_text(alloc, session, reply)?)),
        }
    }

    /// Ends the query of S, whose plan does not run.
    fn end(
        &mut self,
        alloc: Global,
        session: Name,
        place: usize,
        number: u32,
    ) -> Result<String, AllocError>
        requires place { place_named self.old.names session ≡ Some place }
        requires number { session_named self.old.names session ≡ Some number }
        ensures { IfOk result (λ text. Goes (string_bytes text) self.new ≡ end_turn self.old session number) }
    {
        let reply = self.finish_query(session, place, number);
        self.forget_released(number, reply);
        line_text(alloc, session, reply)
    }

    /// Keeps no plan of a query whose grant was released.
    fn forget_released(&mut self, number: u32, reply: Reply)
        ensures { self.new ≡ after_finish self.old number reply }
    {
        if let Reply::Released(_) = reply {
            self.plans.forget(number);
        }
    }

    /// Ends the query of S, and runs its plan, if one is kept.
    fn finish<P: Spool>(
        &mut self,
        alloc: Global,
        spool: &mut P,
        session: Name,
        place: usize,
        number: u32,
    ) -> Result<Turned, AllocError>
        requires place { place_named self.old.names session ≡ Some place }
        requires number { session_named self.old.names session ≡ Some number }
        ensures turn { IfOk result (λ t. seen_turn t self.new ≡ finish_turn self.old session number) }
        ensures spool { spool.new ≡ spool.old }
    {
        let reply = self.finish_query(session, place, number);
        self.finished(alloc, spool, session, number, reply)
    }

    /// What is printed of a query to which Finish had this reply. Where it ran, its plan runs with the bytes that it had.
    fn finished<P: Spool>(
        &mut self,
        alloc: Global,
        spool: &mut P,
        session: Name,
        number: u32,
        reply: Reply,
    ) -> Result<Turned, AllocError>
        ensures turn { IfOk result (λ t. seen_turn t self.new
            ≡ Goes (done_text self.old.tables session (plan_of self.old.plans number) reply) (after_finish self.old number reply)) }
        ensures spool { spool.new ≡ spool.old }
    {
        let Reply::Released(grant) = reply else {
            return Ok(Turned::Goes(line_text(alloc, session, reply)?));
        };
        let Some(plan) = self.plans.take(number) else {
            return Ok(Turned::Goes(line_text(alloc, session, Reply::Released(grant))?));
        };
        let ran = run_plan(alloc, &plan, &self.tables, grant, spool)?;
        Ok(Turned::Answers(Answer {
            session,
            before: String::new(alloc),
            plan,
            ran,
            released: grant,
        }))
    }

    /// `table NAME PATH`
    fn load<H: Shelf>(
        &mut self,
        alloc: Global,
        shelf: &mut H,
        name: Name,
        path: &str,
    ) -> Result<Turned, Failure>
        ensures turn { IfOk result (λ t. WhereTold (H.files shelf.old) (λ files. seen_turn t self.new ≡ table_turn files self.old name path.now)) }
        ensures fault { IfErr result (IsLoadFault (seen_shelf H.Shelf shelf.old) (seen_shelf H.Shelf shelf.new)) }
        ensures machine { self.new.machine ≡ self.old.machine }
        ensures later { H.faults shelf.old ≤ H.faults shelf.new }
        ensures files { H.files shelf.new ≡ H.files shelf.old }
    {
        if has_no_place(&self.tables, name) {
            return Ok(Turned::Bad);
        }
        match shelf.load(alloc, path) {
            Ok(bytes) => Ok(self.add_table(alloc, name, &bytes)?),
            Err(ShelfError::Failed) => Err(Failure::ShelfFault),
            Err(ShelfError::Missing) => Ok(Turned::Stops(missing_text(alloc, name)?)),
            Err(ShelfError::TooLong) => Ok(Turned::Stops(long_text(alloc, name)?)),
            Err(ShelfError::Memory) => Err(Failure::Memory),
        }
    }

    /// Adds the table of a file.
    fn add_table(&mut self, alloc: Global, name: Name, bytes: &[u8]) -> Result<Turned, AllocError>
        requires { has_no_place self.old.tables name ≡ false }
        ensures turn { IfOk result (λ t. seen_turn t self.new ≡ loaded_turn self.old name (table_of bytes.now)) }
        ensures machine { self.new.machine ≡ self.old.machine }
    {
        match csv_tables::load::load(alloc, bytes) {
            Ok(table) => {
                let text = loaded_text(alloc, name, table.rows().len())?;
                self.tables.add(alloc, name, table)?;
                Ok(Turned::Goes(text))
            }
            Err(LoadError::Memory) => Err(AllocError),
            Err(fault) => Ok(Turned::Stops(unloaded_text(alloc, name, fault)?)),
        }
    }

    /// `show NAME`
    fn show(&self, alloc: Global, name: Name) -> Result<Turned, AllocError>
        ensures { IfOk result (λ t. seen_turn t self.now ≡ show_turn self.now (shown_of (snapshot_of self.now.machine) name)) }
    {
        // For the proof alone: what every desk keeps, as the history's clauses say.
        let _entries = self.desk.entries();
        let looked = self.desk.look(alloc)?;
        match table_rows(alloc, &looked.snapshot, name) {
            Ok(table) => Ok(Turned::Shows {
                before: String::new(alloc),
                table,
            }),
            Err(ShowError::Refused(refusal)) => refused(alloc, refusal),
            Err(ShowError::Memory) => Err(AllocError),
        }
    }

    /// The number of the session at the place of its name.
    fn number_at(&self, session: Name, place: usize) -> u32
        requires { place_named self.now.names session ≡ Some place }
        ensures { session_named self.now.names session ≡ Some result }
    {
        self.held[place].session.number()
    }

    /// Submits a query of the session at a place.
    fn submit(&mut self, session: Name, place: usize, number: u32, floor: u64) -> Reply
        requires place { place_named self.old.names session ≡ Some place }
        requires number { session_named self.old.names session ≡ Some number }
        ensures { Makes self.old self.new (Event.Submit number floor) result }
    {
        self.held[place].ask(&mut self.desk, self.moment, floor)
    }

    /// Asks for the query of the session at a place.
    fn poll_query(&mut self, session: Name, place: usize, number: u32) -> Reply
        requires place { place_named self.old.names session ≡ Some place }
        requires number { session_named self.old.names session ≡ Some number }
        ensures { Makes self.old self.new (Event.Poll number) result }
    {
        self.held[place].poll(&mut self.desk, self.moment)
    }

    /// Asks whether the query of the session at a place may run on.
    fn check_query(&mut self, session: Name, place: usize, number: u32) -> Reply
        requires place { place_named self.old.names session ≡ Some place }
        requires number { session_named self.old.names session ≡ Some number }
        ensures { Makes self.old self.new (Event.Check number) result }
    {
        self.held[place].check(&mut self.desk, self.moment)
    }

    /// Lets the query of the session at a place give way.
    fn give_way(&mut self, session: Name, place: usize, number: u32) -> Reply
        requires place { place_named self.old.names session ≡ Some place }
        requires number { session_named self.old.names session ≡ Some number }
        ensures { Makes self.old self.new (Event.GiveWay number) result }
    {
        self.held[place].give_way(&mut self.desk, self.moment)
    }

    /// Ends the query of the session at a place.
    fn finish_query(&mut self, session: Name, place: usize, number: u32) -> Reply
        requires place { place_named self.old.names session ≡ Some place }
        requires number { session_named self.old.names session ≡ Some number }
        ensures { Makes self.old self.new (Event.Finish number) result }
    {
        self.held[place].finish(&mut self.desk, self.moment)
    }

    /// `close S`, where S has this place
    fn close(&mut self, alloc: Global, session: Name, place: usize) -> Result<String, AllocError>
        requires { place_named self.old.names session ≡ Some place }
        ensures { IfOk result (λ text. DoesRequest self.old self.new session Close (string_bytes text)) }
    {
        let held = self.held.remove(place);
        let number = held.session.number();
        match held.close(&mut self.desk, self.moment) {
            Ok(()) => {
                self.plans.forget(number);
                line_text(alloc, session, Reply::Closed)
            }
            Err((held, refusal)) => {
                self.held.insert(place, held)?;
                line_text(alloc, session, Reply::Refused(refusal))
            }
        }
    }

    /// Makes a machine call, at the script's moment, of an event that leaves all sessions and their queries.
    fn call(&mut self, event: &Event) -> Reply
        requires formed { IsFormed event.now }
        requires goes_on { keeps_sessions event.now ≡ true }
        ensures reply { result ≡ (step self.old.machine 0 self.old.moment event.now).reply }
        ensures state { self.new ≡ record self.old { machine = (step self.old.machine 0 self.old.moment event.now).state } }
    {
        self.desk.call(self.moment, event).reply
    }

    /// Whether a session has this name.
    fn has_session(&self, session: Name) -> bool
        ensures { result ≡ has_session self.now.names session }
    {
        has_session(&self.held, session)
    }

    /// The place of the session that has this name.
    fn place_of(&self, session: Name) -> Option<usize>
        ensures { result ≡ place_named self.now.names session }
    {
        place_of(&self.held, session)
    }

    /// The definitions in force.
    fn definitions(&self) -> &Definitions
        ensures value { result.now ≡ self.now.machine.definitions }
        ensures sound { IsSound result.now }
    {
        // What every desk keeps, as the history's clauses say.
        let _entries = self.desk.entries();
        self.desk.definitions()
    }
}

/// Whether there is no place for a table of this name.
fn has_no_place(tables: &Tables, name: Name) -> bool
    ensures { result ≡ has_no_place tables.now name }
{
    tables.has(name) || tables.is_full()
}

/// A turn that prints this first.
fn told_first(first: String, turned: Turned) -> Result<Turned, AllocError>
    ensures { IfOk result (λ t. (s : ScriptState) → seen_turn t s ≡ told_first (string_bytes first) (seen_turn turned s)) }
{
    let mut text = first;
    match turned {
        Turned::Bad => Ok(Turned::Bad),
        Turned::Goes(more) => {
            text.push_str(&more)?;
            Ok(Turned::Goes(text))
        }
        Turned::Answers(answer) => {
            let Answer {
                session,
                before,
                plan,
                ran,
                released,
            } = answer;
            text.push_str(&before)?;
            Ok(Turned::Answers(Answer {
                session,
                before: text,
                plan,
                ran,
                released,
            }))
        }
        Turned::Shows { before, table } => {
            text.push_str(&before)?;
            Ok(Turned::Shows {
                before: text,
                table,
            })
        }
        Turned::Stops(more) => {
            text.push_str(&more)?;
            Ok(Turned::Stops(text))
        }
    }
}

/// Prints a refusal, and changes nothing.
fn refused(alloc: Global, refusal: Refusal) -> Result<Turned, AllocError>
    ensures { IfOk result (λ t. (s : ScriptState) → seen_turn t s ≡ Goes (bare_text (reply.Refused refusal)) s) }
{
    Ok(Turned::Goes(bare_text(alloc, Reply::Refused(refusal))?))
}
