ghost use Rattle.std.specs.Prelude.{◌≡◌, ◌≤◌, ℕ, Option, None};
ghost use Rattle.rm_base.specs.declared.reply.Reply.{Reply};
ghost use Rattle.rm_outside.specs.Faults.{counted};
ghost use Rattle.rm_outside.specs.Watch.{stop_in};
ghost use Rattle.rm_outside.specs.declared.watch.TheConstants.{STEPS_MOST};

use rm_base::reply::Reply;

/// The most row steps that are handed over at one check-in. A row step is one row taken, compared with another or put out.
pub const STEPS_MOST: u64 = 4_096;

/// Whether work goes on, or stops for a reply.
#[derive(Clone, Copy, Debug, PartialEq, Eq)]
pub enum Watched {
    Go,
    Stop(Reply),
}

/// Who is asked, from time to time, whether a query's work may go on.
///
/// `handed` are the row steps handed over so far; the count stands still at its greatest value. `stop` is the reply of its
/// Stop, or none.
pub trait Watch {
    ghost handed: { Self → ℕ };

    ghost stop: { Self → Option Reply };

    /// Hands over the row steps since the last check-in, and asks whether the work may go on. It is not asked after a Stop.
    fn check(&mut self, steps: u64) -> Watched
        requires few { steps ≤ STEPS_MOST }
        requires going { stop self.old ≡ None }
        ensures handed { handed self.new ≡ counted (handed self.old) steps }
        ensures stop { stop self.new ≡ stop_in result };
}
