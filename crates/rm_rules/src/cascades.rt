//! The laws on cascades. Each is the contract of a function that does nothing.

ghost use Rattle.std.specs.Prelude.{◌≡◌, ℕ, ◌<◌, Option, Some, IsTrue, length};
ghost use Rattle.rm_base.specs.declared.limits.TheConstants.{CHAIN_MOST, MOVES_MOST};
ghost use Rattle.rm_base.specs.declared.definitions.Definitions.{Definitions};
ghost use Rattle.rm_base.specs.declared.name.Name.{Name};
ghost use Rattle.rm_rules.specs.declared.state.Runner.{Runner};
ghost use Rattle.rm_rules.specs.declared.verdict.Verdict.TheVariants.{GoesTo};
ghost use Rattle.rm_rules.specs.Sound.{IsSound, has_pool};
ghost use Rattle.rm_rules.specs.Target.{pools_behind, leaves_time, target, verdict};

/// A chain of CASCADE TO ends: with its first pool it has 8 pools at most, and so fewer than are read.
pub fn chains_end()
    ensures { (d : Definitions) (pool : Name)
        → IsSound d
        → length (pools_behind d.pools pool) < CHAIN_MOST }
{}

/// A target is a pool that is there, with a cap that is NONE or above the running time, for a query that may be moved
/// once more.
pub fn targets_take_over()
    ensures there { (d : Definitions) (pool : Name) (running moves : ℕ) (to : Name)
        → IsSound d
        → target d pool running moves ≡ Some to
        → IsTrue (has_pool d to) }
    ensures time { (d : Definitions) (pool : Name) (running moves : ℕ) (to : Name)
        → target d pool running moves ≡ Some to
        → IsTrue (leaves_time d running to) }
    ensures moves { (d : Definitions) (pool : Name) (running moves : ℕ) (to : Name)
        → target d pool running moves ≡ Some to
        → moves < MOVES_MOST }
{}

/// A check that sends a query on sends it to its target.
pub fn verdicts_name_targets()
    ensures { (d : Definitions) (r : Runner) (session_cap : Option ℕ) (running : ℕ) (to : Name)
        → verdict d r session_cap running ≡ GoesTo to
        → target d r.pool running r.moves ≡ Some to }
{}
