ghost use Rattle.std.specs.Prelude.{◌≡◌, None};
ghost use Rattle.rm_outside.specs.Faults.{counted};
ghost use Rattle.rm_outside.specs.declared.watch.Watched.TheVariants.{Go};

use crate::watch::{Watch, Watched};
use std::marker::Model;

/// A watch that lets all work go on. Contracts see it as the row steps handed over.
#[derive(Debug, Drop)]
pub struct MemoryWatch {
    handed: u64,
}

impl Model for MemoryWatch {
    ghost use Rattle.std.specs.Prelude.{ℕ};

    ghost Value = { ℕ };

    ghost view = { λ w. w.handed };
}

impl MemoryWatch {
    pub fn new() -> MemoryWatch
        ensures handed { ⟦<MemoryWatch as Watch>⟧.handed result ≡ 0 }
        ensures stop { ⟦<MemoryWatch as Watch>⟧.stop result ≡ None }
    {
        MemoryWatch { handed: 0 }
    }

    /// The row steps handed over so far.
    pub fn handed(&self) -> u64
        ensures { result ≡ ⟦<MemoryWatch as Watch>⟧.handed self.now }
    {
        self.handed
    }
}

impl Watch for MemoryWatch {
    ghost handed = { λ w. w };

    ghost stop = { λ _. None };

    fn check(&mut self, steps: u64) -> Watched
        ensures handed { self.new ≡ counted self.old steps }
        ensures goes { result ≡ Go }
    {
        self.handed = self.handed.saturating_add(steps);
        Watched::Go
    }
}
