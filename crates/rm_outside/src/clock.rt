ghost use Rattle.std.specs.Prelude.{◌≡◌, ◌≤◌, ℕ, Option, List, IfSome};
ghost use Rattle.rm_outside.specs.Clock.{moment_at};
ghost use Rattle.rm_outside.specs.Faults.{counted};

use rm_base::moment::Moment;

/// A clock, and a way to wait a little. It can't fail.
///
/// `asked` are the askings so far; the count stands still at its greatest value. `latest` is the moment of the last asking, 0
/// before the first. `moments` are the moments that it hands out, where they are told.
pub trait Clock {
    ghost asked: { Self → ℕ };

    ghost latest: { Self → ℕ };

    ghost moments: { Self → Option (List ℕ) };

    /// The moment now. It is never before an earlier answer.
    fn now(&mut self) -> Moment
        ensures asked { asked self.new ≡ counted (asked self.old) 1 }
        ensures later { latest self.old ≤ result }
        ensures latest { latest self.new ≡ result }
        ensures moments { moments self.new ≡ moments self.old }
        ensures told { IfSome (moments self.old) (λ told. result ≡ moment_at told (asked self.old)) };

    /// Lets some time pass.
    fn pause(&mut self)
        ensures asked { asked self.new ≡ asked self.old }
        ensures latest { latest self.new ≡ latest self.old }
        ensures moments { moments self.new ≡ moments self.old };
}
