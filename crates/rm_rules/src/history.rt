//! The laws over all histories. Each is the contract of a function that does nothing.

ghost use Rattle.std.specs.Prelude.{◌≡◌, ◌≢◌, ◌↔◌, ℕ, ◌+◌, ◌≤◌, ◌++◌, true, false, List, [], Some, None, Err, length};
ghost use Rattle.rm_base.specs.declared.definitions.Definitions.{Definitions};
ghost use Rattle.rm_base.specs.declared.entry.Entry.{Entry};
ghost use Rattle.rm_base.specs.declared.event.Event.{Event};
ghost use Rattle.rm_base.specs.declared.event.Event.TheVariants.{Submit, GiveWay, Finish};
ghost use Rattle.rm_base.specs.declared.limits.TheConstants.{CHANGES_MOST, ENTRIES_BEYOND};
ghost use Rattle.rm_base.specs.declared.name.Name.{Name};
ghost use Rattle.rm_base.specs.declared.refusal.Refusal.{Refusal};
ghost use Rattle.rm_base.specs.declared.refusal.Refusal.TheVariants.{SessionBusy};
ghost use Rattle.rm_base.specs.declared.reply.Reply.TheVariants.{Admitted, Released, Refused};
ghost use Rattle.rm_rules.specs.declared.state.Waiter.{Waiter};
ghost use Rattle.rm_rules.specs.Definitions.{pool_row};
ghost use Rattle.rm_rules.specs.Ask.{cap};
ghost use Rattle.rm_rules.specs.State.{State, start};
ghost use Rattle.rm_rules.specs.Holdings.{holdings, holdings_of};
ghost use Rattle.rm_rules.specs.Accounting.{used};
ghost use Rattle.rm_rules.specs.Admission.{first_entitled, admitted};
ghost use Rattle.rm_rules.specs.Settle.{settled};
ghost use Rattle.rm_rules.specs.Settled.{IsSettled};
ghost use Rattle.rm_rules.specs.Change.{change};
ghost use Rattle.rm_rules.specs.Step.{found_at, step, made, left_refused, IsSameButClock};
ghost use Rattle.rm_rules.specs.Replay.{replay, IsFormed, IsLegal, own_entries};
ghost use Rattle.rm_rules.specs.Sound.{IsSound};
ghost use Rattle.rm_rules.specs.Healthy.{AreSized, AreThere, AreWithinMemory, IsHealthy};
ghost use Rattle.rm_rules.specs.Conserved.{ConservedAfterEach};
ghost use Rattle.rm_rules.specs.Grants.{Run, run_of, RaisesForce, KeepsGrants, BytesAreKept, IsAdmittedAtOnce};
ghost use Rattle.rm_rules.specs.Sessions.{session_in, LeavesForeign};

/// Every state that a legal history leaves, from sound definitions on, is healthy.
pub fn histories_are_healthy()
    ensures { (d : Definitions) (room : ℕ) (entries : List Entry)
        → IsSound d
        → IsLegal (start d room) entries
        → IsHealthy (replay (start d room) entries) }
{}

/// After each entry of a legal history, running grants, unused reservations and GENERAL's free bytes add up to the memory in
/// force, and the accounts with them.
pub fn conserved_after_each_event()
    ensures { (d : Definitions) (room : ℕ) (entries : List Entry)
        → IsSound d
        → IsLegal (start d room) entries
        → ConservedAfterEach (start d room) entries }
{}

/// No event changes a grant. None but Finish and GiveWay takes one away, whole, and each new one is an admitted query's. A pool
/// stays within its cap where a query moves on to it.
pub fn grants_are_kept()
    ensures step { (s : State) (seat at : ℕ) (event : Event)
        → IsHealthy s
        → KeepsGrants s (step s seat at event).state event (step s seat at event).reply }
    ensures histories { (d : Definitions) (room : ℕ) (entries : List Entry)
        → IsSound d
        → IsLegal (start d room) entries
        → BytesAreKept (start d room) entries }
{}

/// A session that runs goes on with its query and its grant until its own seat finishes it or lets it give way, whatever others
/// do: a query may move on to another pool, or be told to stop, but it keeps both.
pub fn running_sessions_go_on()
    ensures step { (s : State) (seat at owner session : ℕ) (event : Event) (run : Run)
        → IsHealthy s
        → IsFormed event
        → run_of s owner session ≡ Some run
        → (event ≡ Finish session → seat ≢ owner)
        → (event ≡ GiveWay session → seat ≢ owner)
        → run_of (step s seat at event).state owner session ≡ Some run }
    ensures others { (s : State) (entries : List Entry) (owner session : ℕ) (run : Run)
        → IsHealthy s
        → IsLegal s entries
        → own_entries owner entries ≡ []
        → run_of s owner session ≡ Some run
        → run_of (replay s entries) owner session ≡ Some run }
{}

/// A session that runs is finished by its own seat whenever that asks for it, and gives back the grant with which it ran.
pub fn running_sessions_can_be_finished()
    ensures { (s : State) (seat at session : ℕ) (run : Run)
        → IsHealthy s
        → run_of s seat session ≡ Some run
        → (step s seat at (Finish session)).reply ≡ Released run.grant }
{}

/// A session that runs has one query, and one grant: a further Submit of its own seat is refused as busy.
pub fn running_sessions_are_busy()
    ensures { (s : State) (seat at session floor : ℕ) (run : Run)
        → IsHealthy s
        → run_of s seat session ≡ Some run
        → (step s seat at (Submit session floor)).reply ≡ Refused SessionBusy }
{}

/// Who is told that a session's query is admitted is told its number and its grant, with which it runs from then on.
pub fn admitted_replies_tell_the_run()
    ensures { (s : State) (seat at session query : ℕ) (event : Event) (pool : Name) (grant own borrowed : ℕ)
        → session_in event ≡ Some session
        → (step s seat at event).reply ≡ Admitted query pool grant own borrowed
        → run_of (step s seat at event).state seat session ≡ Some (record { query = query; grant = grant }) }
{}

/// The memory in force rises only where a statement raises the total.
pub fn force_rises_with_the_total()
    ensures { (s : State) (seat at : ℕ) (event : Event)
        → IsHealthy s
        → IsFormed event
        → RaisesForce s (step s seat at event).state event }
{}

/// Right after each admission the pool's use is within its cap, under the definitions in force.
pub fn admissions_stay_within_the_cap()
    ensures { (s : State) (w : Waiter)
        → first_entitled s ≡ Some w
        → used w.pool (holdings (admitted s w).running) ≤ cap s.definitions (pool_row s.definitions w.pool) }
{}

/// A query that is submitted while no query runs, and not refused, is admitted at once.
pub fn lone_queries_are_admitted_at_once()
    ensures { (s : State) (seat at session floor : ℕ)
        → IsHealthy s
        → IsSettled s
        → s.running ≡ []
        → ((r : Refusal) → (step s seat at (Submit session floor)).reply ≡ Refused r → ⊥)
        → IsAdmittedAtOnce s seat session floor (step s seat at (Submit session floor)).reply }
{}

/// A legal history goes on with what a well formed event makes, and leads where the event leads.
pub fn histories_go_on()
    ensures legal { (s : State) (entries : List Entry) (seat at : ℕ) (event : Event)
        → IsFormed event
        → IsLegal s entries
        → IsLegal s (entries ++ made (replay s entries) seat at event) }
    ensures replays { (s : State) (entries : List Entry) (seat at : ℕ) (event : Event)
        → replay s (entries ++ made (replay s entries) seat at event) ≡ (step (replay s entries) seat at event).state }
    ensures journal { (s : State) (entries : List Entry)
        → IsLegal s entries
        → (replay s entries).journal ≡ s.journal ++ entries }
{}

/// An event that makes an entry has changed more than the clock, and one that makes none has changed nothing.
pub fn only_changes_make_entries()
    ensures entry { (s : State) (seat at : ℕ) (event : Event)
        → IsHealthy s
        → IsFormed event
        → (step s seat at event).entry ≡ true
        → IsSameButClock s (step s seat at event).state
        → ⊥ }
    ensures none { (s : State) (seat at : ℕ) (event : Event)
        → (step s seat at event).entry ≡ false
        → (step s seat at event).state ≡ s }
{}

/// A reply is a refusal just where the event is refused, and a refused event changes nothing but by deadlines that had come.
pub fn refusals_change_nothing()
    ensures refused { (s : State) (seat at : ℕ) (event : Event) (r : Refusal)
        → IsHealthy s
        → IsFormed event
        → ((step s seat at event).reply ≡ Refused r) ↔ (change (found_at s at) seat event ≡ Err r) }
    ensures state { (s : State) (seat at : ℕ) (event : Event) (r : Refusal)
        → IsHealthy s
        → IsFormed event
        → (step s seat at event).reply ≡ Refused r
        → (step s seat at event).state ≡ left_refused s seat at event r }
{}

/// An event leaves the sessions for which it is not: only a query of theirs that waits may begin to run, or end.
pub fn events_leave_the_sessions_of_others()
    ensures { (s : State) (seat at : ℕ) (event : Event)
        → IsHealthy s
        → IsFormed event
        → LeavesForeign seat event s (step s seat at event).state }
{}

/// The journal never outgrows its room, what live queries may need beyond it, and the accepted statements.
pub fn journals_stay_within_their_room()
    ensures { (d : Definitions) (room : ℕ) (entries : List Entry)
        → IsSound d
        → IsLegal (start d room) entries
        → length (replay (start d room) entries).journal ≤ room + ENTRIES_BEYOND + CHANGES_MOST }
{}

/// Settling twice is settling once, and after every event nothing is left to settle.
pub fn settling_twice_is_settling_once()
    ensures twice { (s : State)
        → IsSound s.definitions
        → AreSized s.definitions s.actual s.counters
        → AreThere s.definitions s.sessions s.waiting s.running
        → AreWithinMemory s.definitions (holdings_of s)
        → settled (settled s) ≡ settled s }
    ensures step { (s : State) (seat at : ℕ) (event : Event)
        → IsHealthy s
        → IsFormed event
        → IsSettled s
        → IsSettled (step s seat at event).state }
    ensures histories { (d : Definitions) (room : ℕ) (entries : List Entry)
        → IsSound d
        → IsLegal (start d room) entries
        → settled (replay (start d room) entries) ≡ replay (start d room) entries }
{}

/// After every event no head is entitled.
pub fn no_head_is_left_entitled()
    ensures { (d : Definitions) (room : ℕ) (entries : List Entry)
        → IsSound d
        → IsLegal (start d room) entries
        → first_entitled (replay (start d room) entries) ≡ None }
{}

/// An idle host has no queue: after every event, where no query runs, none waits.
pub fn an_idle_host_has_no_queue()
    ensures step { (s : State) (seat at : ℕ) (event : Event)
        → IsHealthy s
        → IsFormed event
        → (s.running ≡ [] → s.waiting ≡ [])
        → (step s seat at event).state.running ≡ []
        → (step s seat at event).state.waiting ≡ [] }
    ensures histories { (d : Definitions) (room : ℕ) (entries : List Entry)
        → IsSound d
        → IsLegal (start d room) entries
        → (replay (start d room) entries).running ≡ []
        → (replay (start d room) entries).waiting ≡ [] }
{}
