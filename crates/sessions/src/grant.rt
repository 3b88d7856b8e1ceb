ghost use Rattle.std.specs.Prelude.{◌≡◌};

use std::marker::Model;

/// The memory that an admitted query may use. A grant is not dropped: its session gives it back, with the event by which
/// the query ends or gives way.
#[derive(Debug)]
pub struct Grant {
    session: u32,
    query: u64,
    bytes: u64,
}

impl Model for Grant {
    ghost use Rattle.sessions.specs.Granted.{Granted};

    ghost Value = { Granted };

    ghost view = { λ g. record { session = g.session; query = g.query; bytes = g.bytes } };
}

impl Grant {
    /// The grant that a reply has told.
    pub(crate) fn of(session: u32, query: u64, bytes: u64) -> Grant
        ensures { result ≡ record { session = session; query = query; bytes = bytes } }
    {
        Grant {
            session,
            query,
            bytes,
        }
    }

    /// How many bytes the query may hold at a time.
    pub fn bytes(&self) -> u64
        ensures { result ≡ self.now.bytes }
    {
        self.bytes
    }

    /// Gives the grant up, and tells its bytes.
    pub(crate) fn spend(self) -> u64
        ensures { result ≡ self.bytes }
    {
        let Grant {
            session: _,
            query: _,
            bytes,
        } = self;
        bytes
    }
}
