//! The clock of the system, as the host's. It tells nothing of its moments.

ghost use Rattle.std.specs.Prelude.{◌≡◌, None};

use rm_base::moment::Moment;
use rm_outside::clock::Clock;
use std::thread;
use std::time::{self, Duration};

/// How long a pause is, in milliseconds.
const PAUSE_MS: u64 = 1;

/// The system's clock, counted from the first time that it told. Where the system can't tell the time, the last moment stands.
#[derive(Drop)]
pub struct SystemClock<'a, C: time::Clock> {
    system: &'a C,
    began: Option<Duration>,
    latest: Moment,
    asked: u64,
}

impl<'a, C: time::Clock> SystemClock<'a, C> {
    /// A clock that counts from now.
    pub fn new(system: &'a C) -> SystemClock<'a, C> {
        SystemClock {
            system,
            began: system.monotonic().ok(),
            latest: Moment::of(0),
            asked: 0,
        }
    }
}

/// The milliseconds from one time to another.
fn millis_between(began: Duration, time: Duration) -> u64 {
    u64::try_from(time.saturating_sub(began).as_millis()).unwrap_or(u64::MAX)
}

impl<'a, C: time::Clock> Clock for SystemClock<'a, C> {
    ghost asked = { λ c. c.asked };

    ghost latest = { λ c. c.latest };

    ghost moments = { λ _. None };

    fn now(&mut self) -> Moment {
        self.asked = self.asked.saturating_add(1);
        if let Ok(time) = self.system.monotonic() {
            let began = self.began.unwrap_or(time);
            self.began = Some(began);
            self.latest = self.latest.later(Moment::of(millis_between(began, time)));
        }
        self.latest
    }

    fn pause(&mut self) {
        thread::sleep(self.system, Duration::from_millis(PAUSE_MS));
    }
}

#[cfg(test)]
mod tests {
    use super::SystemClock;
    use rm_outside::clock::Clock;
    use std::io;
    use std::test::Fail;
    use std::time::{self, Duration};

    /// A clock that can't tell the time.
    struct Stopped;

    impl time::Clock for Stopped {
        fn monotonic(&self) -> io::Result<Duration> {
            Err(io::Error::from(io::ErrorKind::Unsupported))
        }

        fn since_1970(&self) -> io::Result<Duration> {
            Err(io::Error::from(io::ErrorKind::Unsupported))
        }
    }

    #[test]
    fn adapts_a_clock(rt: HostRuntime) -> Result<(), Fail> {
        let mut clock = SystemClock::new(&rt);
        let first = clock.now();
        clock.pause();
        let second = clock.now();
        assert!(rt; second.ms() > first.ms());
        let mut stopped = SystemClock::new(&Stopped);
        stopped.pause();
        assert_eq!(rt; stopped.now().ms(), 0);
        Ok(())
    }
}
