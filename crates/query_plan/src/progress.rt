ghost use Rattle.std.specs.Prelude.{◌≡◌, [], ◌∷◌, IfOk, Some};
ghost use Rattle.rm_words.specs.Token.{token_told};
ghost use Rattle.query_plan.specs.Machine.{Key, closed, due, finish, is_comma, is_semicolon, joinable_edges, last_edges, led, on_edge, step, turned, ungrouped_edges, unlimited_edges, unordered_edges};

use crate::part::{Clause, Partial, Turn};
use crate::raw::{RawPart, RawSelect, Slot};
use rm_base::catalog::Catalog;
use rm_words::token::{Symbol, Token};
use std::alloc::{AllocError, Global};

/// What the words of a SELECT so far are.
#[derive(Debug, Drop)]
pub enum Progress {
    Start,
    /// The parts so far, what is due behind them, and what of it is read.
    In(RawSelect, Slot, Partial),
    /// The parts so far, GROUP or ORDER, and what is due behind BY.
    By(RawSelect, Slot),
    /// A SELECT and `;`.
    Ended(RawSelect),
}

fn is_comma(token: &Token) -> bool
    ensures { result ≡ is_comma (token_told token.now) }
{
    matches!(token, Token::Sign(Symbol::Comma))
}

fn is_semicolon(token: &Token) -> bool
    ensures { result ≡ is_semicolon (token_told token.now) }
{
    matches!(token, Token::Sign(Symbol::Semicolon))
}

/// A part is due next.
fn due(raw: RawSelect, slot: Slot) -> Option<Progress>
    ensures { result ≡ Some (due raw slot) }
{
    Some(Progress::In(raw, slot, Partial::Due))
}

/// A word where a SELECT may end.
fn at_end(raw: RawSelect, token: &Token) -> Option<Progress>
    ensures { result ≡ on_edge (last_edges raw) (token_told token.now) }
{
    if is_semicolon(token) {
        Some(Progress::Ended(raw))
    } else {
        None
    }
}

/// A word where LIMIT may stand.
fn at_limit(raw: RawSelect, token: &Token) -> Option<Progress>
    ensures { result ≡ on_edge (unlimited_edges raw) (token_told token.now) }
{
    if token.is_key(b"LIMIT") {
        due(raw, Slot::Limit)
    } else {
        at_end(raw, token)
    }
}

/// A word where ORDER BY may stand.
fn at_order(raw: RawSelect, token: &Token) -> Option<Progress>
    ensures { result ≡ on_edge (unordered_edges raw) (token_told token.now) }
{
    if token.is_key(b"ORDER") {
        Some(Progress::By(raw, Slot::Key))
    } else {
        at_limit(raw, token)
    }
}

/// A word where GROUP BY may stand.
fn at_group(raw: RawSelect, token: &Token) -> Option<Progress>
    ensures { result ≡ on_edge (ungrouped_edges raw) (token_told token.now) }
{
    if token.is_key(b"GROUP") {
        Some(Progress::By(raw, Slot::Group))
    } else {
        at_order(raw, token)
    }
}

/// A word where JOIN and WHERE may stand.
fn at_join(raw: RawSelect, token: &Token) -> Option<Progress>
    ensures { result ≡ on_edge (joinable_edges raw) (token_told token.now) }
{
    if token.is_key(b"JOIN") {
        due(raw, Slot::Joined)
    } else if token.is_key(b"WHERE") {
        due(raw, Slot::Test)
    } else {
        at_group(raw, token)
    }
}

/// The one key word that may come next, and what is due behind it.
fn at_key(raw: RawSelect, token: &Token, key: &[u8], slot: Slot) -> Option<Progress>
    ensures { result ≡ on_edge ((Key key.now, due raw slot) ∷ []) (token_told token.now) }
{
    if token.is_key(key) {
        due(raw, slot)
    } else {
        None
    }
}

/// A word behind a part of a clause.
fn led(raw: RawSelect, clause: Clause, token: &Token) -> Option<Progress>
    ensures { result ≡ led raw clause (token_told token.now) }
{
    match clause {
        Clause::Begin => at_key(raw, token, b"SELECT", Slot::List),
        Clause::All => at_key(raw, token, b"FROM", Slot::Table),
        Clause::Items if is_comma(token) => due(raw, Slot::Item),
        Clause::Items => at_key(raw, token, b"FROM", Slot::Table),
        Clause::Tables => at_join(raw, token),
        Clause::Joined => at_key(raw, token, b"ON", Slot::On),
        Clause::Ons if token.is_key(b"AND") => due(raw, Slot::On),
        Clause::Ons => at_join(raw, token),
        Clause::Tests if token.is_key(b"AND") => due(raw, Slot::Test),
        Clause::Tests => at_group(raw, token),
        Clause::Groups if is_comma(token) => due(raw, Slot::Group),
        Clause::Groups => at_order(raw, token),
        Clause::Keys if is_comma(token) => due(raw, Slot::Key),
        Clause::Keys => at_limit(raw, token),
        Clause::Limited => at_end(raw, token),
    }
}

impl Progress {
    /// One word more, if it may stand there.
    pub fn step(
        self,
        alloc: Global,
        catalog: &Catalog,
        place: u64,
        token: &Token,
    ) -> Result<Option<Progress>, AllocError>
        ensures { IfOk result (λ next. next ≡ step catalog.now self (record { place = place; says = token_told token.now })) }
    {
        match self {
            Progress::Start => Ok(led(RawSelect::empty(alloc), Clause::Begin, token)),
            Progress::In(raw, slot, partial) => {
                let turn = partial.turn(alloc, catalog, &raw, slot, place, token)?;
                turned(raw, slot, token, turn)
            }
            Progress::By(raw, slot) => Ok(at_key(raw, token, b"BY", slot)),
            Progress::Ended(_) => Ok(None),
        }
    }

    /// The SELECT that the words so far are, if they are one.
    pub fn finish(self) -> Result<Option<RawSelect>, AllocError>
        ensures { IfOk result (λ raw. raw ≡ finish self) }
    {
        match self {
            Progress::In(raw, slot, partial) => closed(raw, slot, partial.part()),
            Progress::Ended(raw) => Ok(Some(raw)),
            Progress::Start | Progress::By(..) => Ok(None),
        }
    }
}

/// Where the turn of a part leads.
fn turned(
    raw: RawSelect,
    slot: Slot,
    token: &Token,
    turn: Turn,
) -> Result<Option<Progress>, AllocError>
    ensures { IfOk result (λ next. next ≡ turned raw slot (token_told token.now) turn) }
{
    match turn {
        Turn::Goes(partial) => Ok(Some(Progress::In(raw, slot, partial))),
        Turn::Ends(part) => {
            let clause = part.clause(slot);
            Ok(led(raw.with(part)?, clause, token))
        }
        Turn::Stops => Ok(None),
    }
}

/// The SELECT that a last part makes, if it may be the last.
fn closed(
    raw: RawSelect,
    slot: Slot,
    part: Option<RawPart>,
) -> Result<Option<RawSelect>, AllocError>
    ensures { IfOk result (λ whole. whole ≡ closed raw slot part) }
{
    match part {
        Some(part) if part.clause(slot).is_whole() => Ok(Some(raw.with(part)?)),
        Some(_) | None => Ok(None),
    }
}
