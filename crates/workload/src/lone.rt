//! A desk with one session of `dbadmin`, whose queries run one at a time.

ghost use Rattle.std.specs.Prelude.{◌≡◌, ◌+◌, ◌-◌, ◌^◌, ◌<◌, ◌≤◌, true, sum, IfOk, IsSome, Some, None};
ghost use Rattle.rm_base.specs.declared.limits.TheConstants.{MEMORY_LEAST, MEMORY_MOST, CORES_MOST, FLOOR_OF_ONE, FLOOR_OF_MORE, WORKLOAD_QUERIES_MOST};
ghost use Rattle.rm_rules.specs.Definitions.{total, reserved};
ghost use Rattle.rm_rules.specs.Grants.{released};
ghost use Rattle.workload.specs.Rested.{admitted_with};

use crate::pools::{create_w0, create_w1, create_w2};
use machine::desk::Desk;
use rm_base::definitions::Definitions;
use rm_base::event::Event;
use rm_base::limits::SCRIPT_ROOM;
use rm_base::moment::Moment;
use rm_base::name::Name;
use rm_base::reply::Reply;
use std::alloc::{AllocError, Global};
use std::marker::Model;

/// The seat of the desk's one caller.
const SEAT: u32 = 0;

/// The number of the desk's one session.
const SESSION: u32 = 1;

/// A desk with the pools of a workload, whose one session runs one query at a time.
#[derive(Debug, Drop)]
pub struct Lone {
    desk: Desk,
}

impl Model for Lone {
    ghost use Rattle.workload.specs.Rested.{LoneSeen, seen_lone, IsLone};

    ghost Value = { LoneSeen };

    ghost view = { λ l. seen_lone l.desk.state };

    ghost invariant = { λ l. IsLone l.desk.state };
}

impl Lone {
    ghost use Rattle.workload.specs.Pools.{workload_definitions, is_workload_pool};
    ghost use Rattle.workload.specs.Rested.{LoneSeen, workload_ask};

    /// A desk of a machine on which nothing was defined before. All that opens it happens at one moment.
    pub fn new(alloc: Global, memory: u64, cores: u32, at: Moment) -> Result<Lone, AllocError>
        requires memory_least { MEMORY_LEAST ≤ memory }
        requires memory_most { memory ≤ MEMORY_MOST }
        requires cores_least { 1 ≤ cores }
        requires cores_most { cores ≤ CORES_MOST }
        ensures definitions { IfOk result (λ lone. lone.definitions ≡ workload_definitions memory cores) }
        ensures begun { IfOk result (λ lone. lone.begun ≡ 0) }
        ensures runs_in { IfOk result (λ lone. lone.runs_in ≡ None) }
        ensures held { IfOk result (λ lone. lone.held ≡ None) }
    {
        let definitions = Definitions::new(alloc, memory, cores)?;
        let mut desk = Desk::new(alloc, definitions, SCRIPT_ROOM)?;
        desk.apply(SEAT, at, &Event::Define(create_w0()));
        desk.apply(SEAT, at, &Event::Define(create_w1()));
        desk.apply(SEAT, at, &Event::Define(create_w2()));
        let user = Name::dbadmin();
        desk.apply(SEAT, at, &Event::Open { user });
        Ok(Lone { desk })
    }

    /// Begins a query in the pool, and answers its grant, in bytes: it is admitted at once, whatever the moments at which
    /// the pool is chosen and the query submitted.
    pub fn begin(&mut self, chosen_at: Moment, asked_at: Moment, pool: Name, floor: u64) -> u64
        requires rested { self.old.held ≡ None }
        requires few { self.old.begun < WORKLOAD_QUERIES_MOST }
        requires pool { is_workload_pool pool ≡ true }
        requires floor { floor ≤ FLOOR_OF_ONE + FLOOR_OF_MORE }
        ensures grant { result ≡ workload_ask self.old.definitions pool floor }
        ensures definitions { self.new.definitions ≡ self.old.definitions }
        ensures begun { self.new.begun ≡ self.old.begun + 1 }
        ensures runs_in { self.new.runs_in ≡ Some pool }
        ensures held { self.new.held ≡ Some result }
    {
        // For the proof alone: what every desk keeps, as the history's clauses say.
        let _entries = self.desk.entries();
        let session = SESSION;
        self.desk
            .apply(SEAT, chosen_at, &Event::SetPool { session, pool });
        let answered = self
            .desk
            .apply(SEAT, asked_at, &Event::Submit { session, floor });
        admitted_grant(answered.reply)
    }

    /// Ends the query that runs, and answers what it held, in bytes.
    pub fn finish(&mut self, at: Moment) -> u64
        requires asked { IsSome self.old.held }
        ensures grant { self.old.held ≡ Some result }
        ensures definitions { self.new.definitions ≡ self.old.definitions }
        ensures begun { self.new.begun ≡ self.old.begun }
        ensures runs_in { self.new.runs_in ≡ None }
        ensures held { self.new.held ≡ None }
    {
        let _entries = self.desk.entries();
        let session = SESSION;
        let answered = self.desk.apply(SEAT, at, &Event::Finish { session });
        released_grant(answered.reply)
    }

    /// GENERAL's free bytes, while no query runs.
    pub fn free(&self, alloc: Global) -> Result<u64, AllocError>
        requires { self.now.held ≡ None }
        ensures general { IfOk result (λ free. free ≡ self.now.free) }
        ensures unreserved { IfOk result (λ free. free ≡ total self.now.definitions - reserved self.now.definitions) }
    {
        let _entries = self.desk.entries();
        let looked = self.desk.look(alloc)?;
        let kept_back = sum_of(looked.snapshot.actual.as_slice());
        Ok(looked.snapshot.in_force - kept_back)
    }
}

/// The grant of a query that was admitted.
fn admitted_grant(reply: Reply) -> u64
    requires { IsSome (admitted_with reply) }
    ensures { admitted_with reply ≡ Some result }
{
    match reply {
        Reply::Admitted { grant, .. } => grant,
        Reply::Defined
        | Reply::Opened(_)
        | Reply::Set
        | Reply::Waiting { .. }
        | Reply::Ended(_)
        | Reply::Go
        | Reply::MovedOn(_)
        | Reply::GiveWay(_)
        | Reply::CapEnded { .. }
        | Reply::Stopping
        | Reply::Released(_)
        | Reply::Cancelled
        | Reply::Closed
        | Reply::Refused(_) => unreachable!(),
    }
}

/// What a query held that has ended.
fn released_grant(reply: Reply) -> u64
    requires { IsSome (released reply) }
    ensures { released reply ≡ Some result }
{
    match reply {
        Reply::Released(grant) => grant,
        Reply::Defined
        | Reply::Opened(_)
        | Reply::Set
        | Reply::Admitted { .. }
        | Reply::Waiting { .. }
        | Reply::Ended(_)
        | Reply::Go
        | Reply::MovedOn(_)
        | Reply::GiveWay(_)
        | Reply::CapEnded { .. }
        | Reply::Stopping
        | Reply::Cancelled
        | Reply::Closed
        | Reply::Refused(_) => unreachable!(),
    }
}

fn sum_of(sizes: &[u64]) -> u64
    requires { sum sizes.now < 2 ^ 64 }
    ensures { result ≡ sum sizes.now }
{
    sizes.iter().sum()
}
