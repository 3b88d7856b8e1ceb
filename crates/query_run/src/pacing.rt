//! Row steps of a run.

ghost use Rattle.std.specs.Prelude.{◌≡◌, ◌≢◌, ◌≤◌, ◌<◌, ◌+◌, None, IfErr};
ghost use Rattle.rm_outside.specs.Faults.{counted};
ghost use Rattle.rm_outside.specs.declared.watch.TheConstants.{STEPS_MOST};
ghost use Rattle.spill_files.specs.declared.error.RunError.TheVariants.{NeedsSpill};
ghost use Rattle.spill_files.specs.Errors.{stop_after};

use rm_outside::watch::{Watch, Watched};
use spill_files::error::RunError;
use tuples::pace::{Pace, Stopped};

/// One row step.
pub fn step<W: Watch>(pace: &mut Pace, watch: &mut W) -> Result<(), RunError>
    requires { W.stop watch.old ≡ None }
    ensures stop { W.stop watch.new ≡ stop_after result }
    ensures handed { counted (W.handed watch.new) pace.new ≡ counted (W.handed watch.old) (pace.old + 1) }
    ensures few { pace.new < STEPS_MOST }
    ensures stopped { IfErr result (λ e. e ≢ NeedsSpill) }
{
    match pace.step(watch) {
        Ok(()) => Ok(()),
        Err(Stopped(reply)) => Err(RunError::Stopped(reply)),
    }
}

/// Hands over the row steps that are left.
pub fn hand_over<W: Watch>(pace: Pace, watch: &mut W) -> Result<(), RunError>
    requires { W.stop watch.old ≡ None }
    ensures stop { W.stop watch.new ≡ stop_after result }
    ensures handed { W.handed watch.new ≡ counted (W.handed watch.old) pace }
    ensures stopped { IfErr result (λ e. e ≢ NeedsSpill) }
{
    match watch.check(pace.steps()) {
        Watched::Go => Ok(()),
        Watched::Stop(reply) => Err(RunError::Stopped(reply)),
    }
}
