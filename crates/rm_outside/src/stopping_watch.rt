ghost use Rattle.std.specs.Prelude.{◌≡◌, ◌-◌, ◌↔◌, Some, None};
ghost use Rattle.rm_outside.specs.Faults.{counted};
ghost use Rattle.rm_outside.specs.Watch.{stop_in};
ghost use Rattle.rm_outside.specs.declared.watch.Watched.TheVariants.{Stop};

use crate::watch::{Watch, Watched};
use rm_base::reply::Reply;

/// A watch that lets work go on at so many check-ins, and stops it at the next.
#[derive(Debug, Drop)]
pub struct StoppingWatch {
    left: u64,
    reply: Reply,
    handed: u64,
    stop: Option<Reply>,
}

impl StoppingWatch {
    /// It stops work after `left` check-ins, for this reply.
    pub fn new(left: u64, reply: Reply) -> StoppingWatch
        ensures left { result.left ≡ left }
        ensures reply { result.reply ≡ reply }
        ensures handed { ⟦<StoppingWatch as Watch>⟧.handed result ≡ 0 }
        ensures stop { ⟦<StoppingWatch as Watch>⟧.stop result ≡ None }
    {
        StoppingWatch {
            left,
            reply,
            handed: 0,
            stop: None,
        }
    }

    /// The row steps handed over so far.
    pub fn handed(&self) -> u64
        ensures { result ≡ ⟦<StoppingWatch as Watch>⟧.handed self.now }
    {
        self.handed
    }
}

impl Watch for StoppingWatch {
    ghost handed = { λ w. w.handed };

    ghost stop = { λ w. w.stop };

    fn check(&mut self, steps: u64) -> Watched
        requires { self.old.stop ≡ None }
        ensures handed { self.new.handed ≡ counted self.old.handed steps }
        ensures stop { self.new.stop ≡ stop_in result }
        ensures stops { (result ≡ Stop self.old.reply) ↔ (self.old.left ≡ 0) }
        ensures counts { self.new.left ≡ self.old.left - 1 }
        ensures reply { self.new.reply ≡ self.old.reply }
    {
        self.handed = self.handed.saturating_add(steps);
        if self.left == 0 {
            self.stop = Some(self.reply);
            return Watched::Stop(self.reply);
        }
        self.left -= 1;
        Watched::Go
    }
}
