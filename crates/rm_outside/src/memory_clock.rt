ghost use Rattle.std.specs.Prelude.{◌≡◌, ◌≤◌, Some};
ghost use Rattle.rm_outside.specs.Clock.{moment_at, NeverFall};
ghost use Rattle.rm_outside.specs.Faults.{counted};

use crate::clock::Clock;
use rm_base::moment::Moment;
use std::marker::Model;

/// A clock that hands out a list of moments, and then its last again and again. Contracts see it as its moments, the count of
/// askings, and the moment of the last one.
#[derive(Debug, Drop)]
pub struct MemoryClock {
    moments: Vec<Moment>,
    asked: u64,
    latest: Moment,
}

impl Model for MemoryClock {
    ghost use Rattle.std.specs.Prelude.{◌≤◌};
    ghost use Rattle.rm_outside.specs.Clock.{ClockState, moment_at, NeverFall};

    ghost Value = { ClockState };

    ghost view = { λ c. record { moments = c.moments.items; asked = c.asked; latest = c.latest } };

    ghost invariant = { λ c. NeverFall c.moments.items × (c.latest ≤ moment_at c.moments.items c.asked) };
}

impl MemoryClock {
    /// A clock that was not asked yet.
    pub fn new(moments: Vec<Moment>) -> MemoryClock
        requires { NeverFall moments.items }
        ensures moments { ⟦<MemoryClock as Clock>⟧.moments result ≡ Some moments.items }
        ensures asked { ⟦<MemoryClock as Clock>⟧.asked result ≡ 0 }
        ensures latest { ⟦<MemoryClock as Clock>⟧.latest result ≡ 0 }
    {
        MemoryClock {
            moments,
            asked: 0,
            latest: Moment::of(0),
        }
    }
}

impl Clock for MemoryClock {
    ghost asked = { λ c. c.asked };

    ghost latest = { λ c. c.latest };

    ghost moments = { λ c. Some c.moments };

    fn now(&mut self) -> Moment
        ensures asked { self.new.asked ≡ counted self.old.asked 1 }
        ensures later { self.old.latest ≤ result }
        ensures latest { self.new.latest ≡ result }
        ensures moments { self.new.moments ≡ self.old.moments }
        ensures told { result ≡ moment_at self.old.moments self.old.asked }
    {
        let moment = moment_at(&self.moments, self.asked);
        self.asked = self.asked.saturating_add(1);
        self.latest = moment;
        moment
    }

    fn pause(&mut self)
        ensures same { self.new ≡ self.old }
    {}
}

/// Item n of the moments, past the end the last, and 0 of none.
fn moment_at(moments: &[Moment], n: u64) -> Moment
    ensures { result ≡ moment_at moments.now n }
{
    let Some(last) = moments.len().checked_sub(1) else {
        return Moment::of(0);
    };
    moments[n.min(last as u64) as usize]
}
