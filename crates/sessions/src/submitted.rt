use crate::grant::Grant;
use rm_base::entry::Account;
use rm_base::refusal::Refusal;
use rm_base::reply::End;

/// What a session is told of its query: it runs, with a grant that is held so; it waits at a place in the queue, counted
/// from 1; or it has ended there. Or the event was refused.
#[derive(Debug)]
pub enum Submitted {
    Admitted(Grant, Account),
    Waiting(u64),
    Ended(End),
    Refused(Refusal),
}
