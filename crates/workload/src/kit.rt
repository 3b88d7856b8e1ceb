//! What a worker has of the world.

use rm_outside::clock::Clock;
use rm_outside::spool::Spool;

/// The spool and the clock of a worker.
#[derive(Drop)]
pub struct Kit<P: Spool, C: Clock> {
    pub spool: P,
    pub clock: C,
}
