use rm_base::name::Name;
use rm_base::reply::Reply;

/// What a check of a running query comes to: a reply alone, or the pool to which the query is to go on. That pool takes
/// it as it stands, or the query gives way and waits there.
#[derive(Clone, Copy, Debug, PartialEq, Eq)]
pub enum Verdict {
    Says(Reply),
    GoesTo(Name),
}
