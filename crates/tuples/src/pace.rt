//! Row steps, and when they are handed over.

ghost use Rattle.std.specs.Prelude.{◌≡◌, ◌+◌, ◌%◌, ◌<◌, None};
ghost use Rattle.rm_outside.specs.Faults.{counted};
ghost use Rattle.rm_outside.specs.declared.watch.TheConstants.{STEPS_MOST};
ghost use Rattle.tuples.specs.Pacing.{stop_after};

use rm_base::reply::Reply;
use rm_outside::watch::{STEPS_MOST, Watch, Watched};
use std::marker::Model;

/// The watch stopped the work for this reply.
#[derive(Clone, Copy, Debug, PartialEq, Eq)]
pub struct Stopped(pub Reply);

/// The row steps since the last check-in, seen as their number: they are fewer than one check-in hands over at most.
#[derive(Debug, Drop)]
pub struct Pace {
    steps: u64,
}

impl Model for Pace {
    ghost use Rattle.std.specs.Prelude.{ℕ, ◌<◌};
    ghost use Rattle.rm_outside.specs.declared.watch.TheConstants.{STEPS_MOST};

    ghost Value = { ℕ };

    ghost view = { λ p. p.steps };

    ghost invariant = { λ p. p.steps < STEPS_MOST };
}

impl Pace {
    pub fn new() -> Pace
        ensures { result ≡ 0 }
    {
        Pace { steps: 0 }
    }

    /// The steps that are not handed over yet.
    pub fn steps(&self) -> u64
        ensures value { result ≡ self.now }
        ensures few { result < STEPS_MOST }
    {
        self.steps
    }

    /// One row step. Once as many are together as a check-in hands over at most, there is a check-in.
    pub fn step<W: Watch>(&mut self, watch: &mut W) -> Result<(), Stopped>
        requires { W.stop watch.old ≡ None }
        ensures stop { W.stop watch.new ≡ stop_after result }
        ensures handed { counted (W.handed watch.new) self.new ≡ counted (W.handed watch.old) (self.old + 1) }
        ensures steps { self.new ≡ (self.old + 1) % STEPS_MOST }
        ensures waits { self.old + 1 < STEPS_MOST → watch.new ≡ watch.old }
    {
        self.steps += 1;
        if self.steps < STEPS_MOST {
            return Ok(());
        }
        self.steps = 0;
        match watch.check(STEPS_MOST) {
            Watched::Go => Ok(()),
            Watched::Stop(reply) => Err(Stopped(reply)),
        }
    }
}
