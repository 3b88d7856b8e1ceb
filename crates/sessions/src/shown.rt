//! That system tables tell what the rules say.

ghost use Rattle.std.specs.Prelude.{◌≡◌};
ghost use Rattle.rm_base.specs.declared.definitions.Definitions.{Definitions};
ghost use Rattle.rm_rules.specs.declared.state.Waiter.{Waiter};
ghost use Rattle.rm_rules.specs.Deadlines.{deadline_of};
ghost use Rattle.rm_rules.specs.Healthy.{IsHealthy};
ghost use Rattle.rm_rules.specs.Holdings.{holdings_of};
ghost use Rattle.rm_rules.specs.State.{State};
ghost use Rattle.machine.specs.Looked.{waiting_seen, snapshot_of};
ghost use Rattle.system_tables.specs.Seen.{waiter_seen, holdings_seen, IsSeen};

/// The bytes and the deadlines of a state are those that its snapshot tells, and each snapshot can be shown.
pub fn snapshots_tell_the_state()
    ensures bytes { (s : State) → holdings_seen (snapshot_of s) ≡ holdings_of s }
    ensures deadlines { (d : Definitions) (w : Waiter) → deadline_of d (waiter_seen (waiting_seen w)) ≡ deadline_of d w }
    ensures seen { (s : State) → IsHealthy s → IsSeen (snapshot_of s) }
{}
