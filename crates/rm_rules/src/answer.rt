use rm_base::reply::Reply;

/// How an event that is not refused is answered: by this reply, or by what its session is told of its query once the
/// event has settled. An end that is told to the one who submitted the query is collected with it.
#[derive(Clone, Copy, Debug, PartialEq, Eq)]
pub enum Answer {
    Says(Reply),
    Tells(u32),
    Collects(u32),
}
