ghost use Rattle.std.specs.Prelude.{◌≡◌, ◌+◌, ◌-◌, ◌<◌, ◌≤◌, ◌^◌, OnOk, OnErr};
ghost use Rattle.rm_rules.specs.AllFits.{quarter};

use rm_base::limits::GRANT_PARTS;
use std::marker::Model;

/// What a query is granted, in bytes, and what its rows hold of it: never more.
#[derive(Debug, Drop)]
pub struct Meter {
    grant: u64,
    held: u64,
}

impl Model for Meter {
    ghost use Rattle.std.specs.Prelude.{◌≤◌};
    ghost use Rattle.spill_files.specs.Meter.{Metered};

    ghost Value = { Metered };

    ghost view = { λ m. record { grant = m.grant; held = m.held } };

    ghost invariant = { λ m. m.held ≤ m.grant };
}

/// More than the grant was asked for.
#[derive(Clone, Copy, Debug, PartialEq, Eq)]
pub struct Over;

impl Meter {
    ghost use Rattle.spill_files.specs.Meter.{Metered};

    pub fn new(grant: u64) -> Meter
        ensures grant { result.grant ≡ grant }
        ensures held { result.held ≡ 0 }
    {
        Meter { grant, held: 0 }
    }

    pub fn grant(&self) -> u64
        ensures value { result ≡ self.now.grant }
        ensures within { self.now.held ≤ self.now.grant }
    {
        self.grant
    }

    /// What each kind of a query's rows may hold.
    pub fn quarter(&self) -> u64
        ensures value { result ≡ quarter self.now.grant }
        ensures small { result < 2 ^ 62 }
        ensures within { self.now.held ≤ self.now.grant }
    {
        self.grant / GRANT_PARTS
    }

    /// Holds this many bytes more, where they are there.
    pub fn charge(&mut self, bytes: u64) -> Result<(), Over>
        ensures ok { OnOk result (self.new.held ≡ self.old.held + bytes) }
        ensures over { OnErr result (self.old.grant < self.old.held + bytes) }
        ensures err { OnErr result (self.new.held ≡ self.old.held) }
        ensures grant { self.new.grant ≡ self.old.grant }
        ensures within { self.new.held ≤ self.new.grant }
    {
        if bytes > self.grant - self.held {
            return Err(Over);
        }
        self.held += bytes;
        Ok(())
    }

    /// Holds this many bytes more, which are there.
    pub fn take(&mut self, bytes: u64)
        requires { self.old.held + bytes ≤ self.old.grant }
        ensures held { self.new.held ≡ self.old.held + bytes }
        ensures grant { self.new.grant ≡ self.old.grant }
    {
        self.held += bytes;
    }

    /// Gives bytes back.
    pub fn release(&mut self, bytes: u64)
        requires { bytes ≤ self.old.held }
        ensures held { self.new.held ≡ self.old.held - bytes }
        ensures grant { self.new.grant ≡ self.old.grant }
    {
        self.held -= bytes;
    }
}
