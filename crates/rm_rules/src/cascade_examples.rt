//! Computed examples of targets and of what a check comes to, each the contract of a function that does nothing. The
//! pools and the query stand in `specs/CascadeExamples.antt`.

ghost use Rattle.std.specs.Prelude.{◌≡◌, Some, None, true, false};
ghost use Rattle.rm_base.specs.declared.reply.CapOwner.TheVariants.{User, Session, Pool};
ghost use Rattle.rm_base.specs.declared.reply.Reply.TheVariants.{Go, GiveWay, CapEnded, Stopping};
ghost use Rattle.rm_base.specs.Name.{general};
ghost use Rattle.rm_rules.specs.declared.verdict.Verdict.TheVariants.{Says, GoesTo};
ghost use Rattle.rm_rules.specs.Target.{running_time, target, verdict};
ghost use Rattle.rm_rules.specs.CascadeExamples.{chained, quick, brief, long, night, run_in};

/// A pool with a shorter cap is passed over, and so is one whose cap is just the running time.
#[tactic(auto, unfolding(crate::specs::PoolStatements::chain))]
pub fn passed_over()
    ensures shorter { target chained quick 1001 0 ≡ Some long }
    ensures just_below { target chained quick 59999 0 ≡ Some long }
    ensures just_reached { target chained quick 60000 0 ≡ Some night }
    ensures from_the_second { target chained brief 501 0 ≡ Some long }
{}

/// There is no target where the chain ends, and none for a query that was moved 16 times.
#[tactic(auto, unfolding(crate::specs::PoolStatements::chain))]
pub fn without_target()
    ensures last { target chained night 1 0 ≡ None }
    ensures general { target chained general 1 0 ≡ None }
    ensures once_more { target chained quick 1001 15 ≡ Some long }
    ensures moved_enough { target chained quick 1001 16 ≡ None }
{}

/// A cap is exceeded where the running time is above it, not where it is just reached.
#[tactic(auto, unfolding(crate::specs::PoolStatements::chain))]
pub fn caps_reached()
    ensures ran { running_time (run_in quick 0) 5600 ≡ 1000 }
    ensures reached { verdict chained (run_in quick 0) (Some 1000) 1000 ≡ Says Go }
    ensures exceeded { verdict chained (run_in quick 0) None 1001 ≡ GoesTo long }
    ensures moved_enough { verdict chained (run_in quick 16) None 1001 ≡ Says (CapEnded Pool 1001 1000) }
    ensures uncapped { verdict chained (run_in night 0) None 90000 ≡ Says Go }
{}

/// A query that was cancelled stops, and one that gives way goes on with that, whatever it has run. The user's cap ends
/// it before the session's, and that before it would go on elsewhere.
pub fn order_of_verdicts()
    ensures stopping { verdict chained (record (run_in quick 0) { cancelled = true; leaving = Some long }) None 90001
        ≡ Says Stopping }
    ensures leaving { verdict chained (record (run_in quick 0) { leaving = Some long }) None 90001 ≡ Says (GiveWay long) }
    ensures user { verdict chained (run_in quick 0) (Some 2000) 90001 ≡ Says (CapEnded User 90001 90000) }
    ensures session { verdict chained (run_in quick 0) (Some 2000) 2001 ≡ Says (CapEnded Session 2001 2000) }
{}
