//! The state of the pool machine in memory, and what an event does to it.
ghost use Rattle.std.specs.Prelude.{◌≡◌, ◌<◌, ◌≤◌, ◌+◌, true, false, [], map, length, vec_capacity, IfOk};
ghost use Rattle.rm_base.specs.declared.limits.TheConstants.{POOLS_MOST, CHANGES_MOST, ENTRIES_BEYOND};
ghost use Rattle.rm_rules.specs.State.{none_ended, is_defined};

use crate::counters::{Counters, none_ended};
use crate::done::Done;
use crate::moves::Moves;
use crate::runs::Runs;
use crate::sessions::Sessions;
use places::Guesses;
use pool_queue::Queue;
use rm_base::definitions::Definitions;
use rm_base::entry::{Answered, Entry};
use rm_base::event::Event;
use rm_base::limits::{CHANGES_MOST, ENTRIES_BEYOND};
use rm_base::moment::Moment;
use rm_base::reply::Reply;
use rm_base::rows::PoolRow;
use rm_rules::answer::Answer;
use std::alloc::{AllocError, Global};
use std::marker::Model;

mod cancel;
mod cap;
mod check;
mod choose;
mod close;
mod define;
mod drop;
mod ends;
mod events;
mod finish;
mod fit;
mod give_way;
mod look;
mod open;
mod poll;
mod settle;
mod submit;
mod told;

/// The pools, the queries and the journal, with room for all that there may ever be.
#[derive(Debug, Drop)]
pub struct Machine {
    definitions: Definitions,
    sessions: Sessions,
    runs: Runs,
    waiting: Queue,
    clock: Moment,
    counters: Counters,
    moves: Moves,
    last_session: u32,
    last_query: u64,
    journal: Vec<Entry>,
    room: u32,
    counted: u64,
    places: Guesses,
}

impl Model for Machine {
    ghost use Rattle.rm_rules.specs.State.{State};

    ghost Value = { State };

    ghost use Rattle.machine.specs.Inside.{seen_state, IsTied};

    ghost view = { seen_state };

    ghost invariant = { IsTied };
}

/// What a machine has of sessions, queries and their history. Nobody is there at the start.
#[derive(Drop)]
struct Lists {
    sessions: Sessions,
    waiting: Queue,
    moves: Moves,
    journal: Vec<Entry>,
}

/// The lists at the start, with room for so many entries.
fn empty_lists(alloc: Global, entries: usize) -> Result<Lists, AllocError>
    ensures sessions { IfOk result (λ lists. lists.sessions ≡ []) }
    ensures waiting { IfOk result (λ lists. lists.waiting ≡ []) }
    ensures moves { IfOk result (λ lists. lists.moves ≡ []) }
    ensures journal { IfOk result (λ lists. lists.journal.items ≡ []) }
    ensures room { IfOk result (λ lists. entries ≤ vec_capacity lists.journal) }
{
    Ok(Lists {
        sessions: Sessions::new(alloc)?,
        waiting: Queue::new(alloc)?,
        moves: Moves::new(alloc)?,
        journal: Vec::with_capacity(alloc, entries)?,
    })
}

/// No ended query for each pool.
fn first_counters(alloc: Global, pools: &[PoolRow]) -> Result<Counters, AllocError>
    requires { length pools.now ≤ POOLS_MOST }
    ensures { IfOk result (λ counters. counters ≡ map (λ _. none_ended) pools.now) }
{
    let mut counters = Counters::new(alloc)?;
    for _row in pools {
        counters.add(none_ended());
    }
    Ok(counters)
}

/// The reply accepts a statement.
fn is_defined(reply: &Reply) -> bool
    ensures { result ≡ is_defined reply.now }
{
    matches!(reply, Reply::Defined)
}

impl Machine {
    ghost use Rattle.rm_rules.specs.State.{start};
    ghost use Rattle.rm_rules.specs.Settle.{settled};
    ghost use Rattle.rm_rules.specs.Answers.{reply_of};
    ghost use Rattle.rm_rules.specs.Step.{moved_to, recorded, entered, attempted, step};
    ghost use Rattle.rm_rules.specs.Replay.{IsFormed};
    ghost use Rattle.rm_rules.specs.Sound.{IsSound};
    ghost use Rattle.rm_rules.specs.Healthy.{IsHealthy, IsUnsettled};
    ghost use Rattle.machine.specs.Done.{change_to, attempted_at};

    /// The machine at the start. It takes all memory that it will ever use.
    pub fn new(alloc: Global, definitions: Definitions, room: u32) -> Result<Machine, AllocError>
        requires { IsSound definitions }
        ensures { IfOk result (λ machine. machine ≡ start definitions room) }
    {
        let entries = room as usize + ENTRIES_BEYOND + CHANGES_MOST as usize;
        let runs = Runs::new(alloc, &definitions)?;
        let counters = first_counters(alloc, definitions.pools.rows())?;
        let lists = empty_lists(alloc, entries)?;
        let places = Guesses::of(definitions.pools.rows());
        Ok(Machine {
            definitions,
            sessions: lists.sessions,
            runs,
            waiting: lists.waiting,
            clock: Moment::of(0),
            counters,
            moves: lists.moves,
            last_session: 0,
            last_query: 0,
            journal: lists.journal,
            room,
            counted: 0,
            places,
        })
    }

    /// The history.
    pub fn entries(&self) -> &[Entry]
        ensures { result.now ≡ self.now.journal }
    {
        &self.journal
    }

    /// The definitions in force.
    pub fn definitions(&self) -> &Definitions
        ensures { result.now ≡ self.now.definitions }
    {
        &self.definitions
    }

    /// The moment of an event is never before the clock. What the clock was is handed back.
    fn move_to(&mut self, at: Moment) -> Moment
        ensures state { self.new ≡ moved_to self.old at }
        ensures before { result ≡ self.old.clock }
    {
        let before = self.clock;
        self.clock = before.later(at);
        before
    }

    /// One entry more.
    fn record_entry(&mut self, entry: Entry)
        requires { length self.old.journal < self.old.room + ENTRIES_BEYOND + CHANGES_MOST }
        ensures { self.new ≡ recorded self.old entry }
    {
        if !is_defined(&entry.reply) {
            self.counted += 1;
        }
        self.journal.push_reserved(entry);
    }

    /// What the event does as the state stands; one that is refused changes nothing.
    fn attempt(&mut self, seat: u32, event: &Event) -> Done
        requires healthy { IsHealthy self.old }
        requires formed { IsFormed event.now }
        ensures { attempted self.old seat event.now ≡ change_to self.new result }
    {
        match self.change(seat, event) {
            Ok(done) => done,
            Err(refusal) => Done::quiet(Answer::Says(Reply::Refused(refusal))),
        }
    }

    /// What the event does at the moment, behind the deadlines that have come. That one has come changes something, too.
    fn attempt_at(&mut self, seat: u32, at: Moment, event: &Event) -> Done
        requires healthy { IsHealthy self.old }
        requires formed { IsFormed event.now }
        ensures { attempted_at self.old seat at event.now ≡ change_to self.new result }
    {
        self.move_to(at);
        let timed = self.end_due();
        let done = self.attempt(seat, event);
        Done {
            answer: done.answer,
            changed: timed || done.changed,
        }
    }

    /// What changed settles, the answer is given, and the entry is made.
    fn enter(&mut self, seat: u32, event: &Event, answer: Answer) -> Answered
        requires { IsUnsettled answer self.old }
        ensures state { self.new ≡ (entered seat event.now (settled self.old) answer).state }
        ensures reply { result.reply ≡ reply_of (settled self.old) answer }
        ensures entry { result.entry ≡ true }
        ensures place { result.place ≡ length self.new.journal }
    {
        self.settle();
        let reply = self.reply_of(answer);
        self.collect(answer);
        self.record_entry(Entry {
            seat,
            at: self.clock,
            event: *event,
            reply,
        });
        Answered {
            reply,
            place: self.journal.len() as u64,
            entry: true,
        }
    }

    /// An event that changed nothing is answered as things stand, and leaves the clock as it was before it.
    fn leave(&mut self, before: Moment, answer: Answer) -> Answered
        requires { IsHealthy self.old }
        ensures state { self.new ≡ record self.old { clock = before } }
        ensures reply { result.reply ≡ reply_of self.old answer }
        ensures entry { result.entry ≡ false }
        ensures place { result.place ≡ length self.new.journal }
    {
        let reply = self.reply_of(answer);
        self.clock = before;
        Answered {
            reply,
            place: self.journal.len() as u64,
            entry: false,
        }
    }

    /// One event: deadlines, what the event does, and what follows where anything has changed.
    pub fn apply(&mut self, seat: u32, at: Moment, event: &Event) -> Answered
        requires healthy { IsHealthy self.old }
        requires formed { IsFormed event.now }
        ensures state { self.new ≡ (step self.old seat at event.now).state }
        ensures reply { result.reply ≡ (step self.old seat at event.now).reply }
        ensures entry { result.entry ≡ (step self.old seat at event.now).entry }
        ensures place { result.place ≡ length self.new.journal }
    {
        let before = self.clock;
        let done = self.attempt_at(seat, at, event);
        if done.changed {
            self.enter(seat, event, done.answer)
        } else {
            self.leave(before, done.answer)
        }
    }
}
