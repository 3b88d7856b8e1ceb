//! The laws on the bytes. Each is the contract of a function that does nothing.

ghost use Rattle.std.specs.Prelude.{◌≡◌, ◌≤◌, []};
ghost use Rattle.rm_base.specs.declared.definitions.Definitions.{Definitions};
ghost use Rattle.rm_rules.specs.Holdings.{Holdings};
ghost use Rattle.rm_rules.specs.Accounting.{taken_up};
ghost use Rattle.rm_rules.specs.Shuffle.{grown, grown_anew};

/// The free bytes that the shuffle carries from pool to pool are those that are counted anew.
pub fn the_shuffle_carries_free_bytes()
    ensures { (d : Definitions) (h : Holdings)
        → taken_up h ≤ h.in_force
        → (grown d h).reserves ≡ grown_anew d h [] h.reserves }
{}
