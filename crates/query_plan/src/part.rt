//! How a part of a SELECT is read, word by word.

ghost use Rattle.std.specs.Prelude.{◌≡◌, IfOk, option_map};
ghost use Rattle.rm_words.specs.Names.{name_of};
ghost use Rattle.rm_words.specs.Token.{token_told};
ghost use Rattle.query_plan.specs.Grammar.{bare_column, clause_of, function_word, int_of, is_whole, negative_of, op_of, qualified_column, table_clause, test_clause};
ghost use Rattle.query_plan.specs.Machine.{alias_turn, begun, call_turn, column_read, dotted_turn, function_in, function_turn, goes, int_read, is_close, is_count, is_dot, is_open, is_star, item_begun, item_of, key_begun, key_turn, left_turn, limit_begun, list_begun, minus_turn, named_turn, op_in, opened_turn, operand_begun, operand_read, part_of, table_turn, turn, unclosed_turn, unqualified_part, unqualified_turn, value_turn};

use crate::raw::{
    Function, KeyBy, RawItem, RawKey, RawOperand, RawPart, RawSelect, RawTable, RawTest, RawValue,
    Reference, Slot,
};
use crate::scope::is_listed;
use rm_base::catalog::Catalog;
use rm_base::limits::LIMIT_MOST;
use rm_base::name::Name;
use rm_base::select::Op;
use rm_base::text::Text;
use rm_words::token::{Symbol, Token, undoubled};
use std::alloc::{AllocError, Global};

/// What of a SELECT was read last.
#[derive(Clone, Copy, Debug)]
pub enum Clause {
    Begin,
    /// `*`
    All,
    Items,
    /// The first table.
    Tables,
    /// A table behind JOIN.
    Joined,
    /// A comparison of ON.
    Ons,
    /// A comparison of WHERE.
    Tests,
    Groups,
    Keys,
    Limited,
}

/// Which operand of a comparison is read.
#[derive(Debug, Drop)]
pub enum Side {
    Left,
    /// Behind the left one, the operator, and the place of this.
    Right(RawOperand, Op, u64),
}

/// For what a column is read.
#[derive(Debug, Drop)]
pub enum Purpose {
    /// An item whose first word starts at a place.
    Item(u64),
    /// What a function takes, in such an item.
    Argument(u64, Function),
    Operand(Side),
    Group,
}

/// A part so far.
#[derive(Debug, Drop)]
pub enum Partial {
    /// Nothing of it is read yet.
    Due,
    /// `*`
    All(u64),
    /// A column, or what its table is called by.
    Named(Purpose, Name),
    /// .. and `.`
    Dotted(Purpose, Name),
    /// A function's key word, for an item that begins at a place.
    Function(u64, Function),
    /// .. and `(`
    Opened(u64, Function),
    /// What an item gives, before its `)`.
    Unclosed(u64, RawValue),
    /// What an item gives.
    Value(u64, RawValue),
    /// .. and AS
    ValueAs(u64, RawValue),
    Item(RawItem),
    TableNamed(Name),
    /// .. and AS
    TableAs(Name),
    Table(RawTable),
    /// A `-` before an operand's number.
    Minus(Side),
    /// A comparison's left operand.
    Left(RawOperand),
    /// .. and its operator, which stands at a place
    Compared(RawOperand, Op, u64),
    Test(RawTest),
    Group(Reference),
    KeyBy(KeyBy),
    Key(RawKey),
    Limit(u32),
}

/// What a word does behind a part so far.
#[derive(Debug, Drop)]
pub enum Turn {
    /// It belongs to the part.
    Goes(Partial),
    /// The part ends before it.
    Ends(RawPart),
    /// It may not stand there.
    Stops,
}

fn int_of(number: u64) -> Option<i64>
    ensures { result ≡ int_of number }
{
    i64::try_from(number).ok()
}

fn negative_of(number: u64) -> Option<i64>
    ensures { result ≡ negative_of number }
{
    0i64.checked_sub_unsigned(number)
}

fn op_of(symbol: Symbol) -> Option<Op>
    ensures { result ≡ op_of symbol }
{
    match symbol {
        Symbol::Equal => Some(Op::Equal),
        Symbol::Unequal => Some(Op::Unequal),
        Symbol::Less => Some(Op::Less),
        Symbol::AtMost => Some(Op::AtMost),
        Symbol::Greater => Some(Op::Greater),
        Symbol::AtLeast => Some(Op::AtLeast),
        Symbol::Open
        | Symbol::Close
        | Symbol::Comma
        | Symbol::Dot
        | Symbol::Star
        | Symbol::Semicolon
        | Symbol::Minus => None,
    }
}

fn op_in(token: &Token) -> Option<Op>
    ensures { result ≡ op_in (token_told token.now) }
{
    match token {
        Token::Sign(symbol) => op_of(*symbol),
        Token::Bare(_) | Token::Number(_) | Token::Quoted(_) => None,
    }
}

fn bare_column(name: Name) -> Reference
    ensures { result ≡ bare_column name }
{
    Reference {
        qualifier: None,
        column: name,
    }
}

fn qualified_column(qualifier: Name, name: Name) -> Reference
    ensures { result ≡ qualified_column qualifier name }
{
    Reference {
        qualifier: Some(qualifier),
        column: name,
    }
}

/// An item without AS.
fn item_of(place: u64, value: RawValue) -> RawItem
    ensures { result ≡ item_of place value }
{
    RawItem {
        place,
        value,
        name: None,
    }
}

/// The function whose key word this is.
fn function_in(token: &Token) -> Option<Function>
    ensures { result ≡ function_in (token_told token.now) }
{
    if token.is_key(b"COUNT") {
        Some(Function::Count)
    } else if token.is_key(b"SUM") {
        Some(Function::Sum)
    } else if token.is_key(b"MIN") {
        Some(Function::Min)
    } else if token.is_key(b"MAX") {
        Some(Function::Max)
    } else {
        None
    }
}

fn is_count(function: Function) -> bool
    ensures { result ≡ is_count function }
{
    matches!(function, Function::Count)
}

impl Side {
    /// An operand is read.
    fn read(self, operand: RawOperand) -> Partial
        ensures { result ≡ operand_read self operand }
    {
        match self {
            Side::Left => Partial::Left(operand),
            Side::Right(left, op, place) => Partial::Test(RawTest {
                left,
                op,
                place,
                right: operand,
            }),
        }
    }

    /// An Int is read.
    fn read_int(self, number: Option<i64>) -> Option<Partial>
        ensures { result ≡ int_read self number }
    {
        match number {
            Some(number) => Some(self.read(RawOperand::Int(number))),
            None => None,
        }
    }

    fn named(self, name: Option<Name>) -> Option<Partial>
        ensures { result ≡ option_map (λ n. Partial.Named (Purpose.Operand self) n) name }
    {
        match name {
            Some(name) => Some(Partial::Named(Purpose::Operand(self), name)),
            None => None,
        }
    }

    /// The first word of an operand.
    fn begun(self, alloc: Global, token: &Token) -> Result<Option<Partial>, AllocError>
        ensures { IfOk result (λ partial. partial ≡ operand_begun self (token_told token.now)) }
    {
        match token {
            Token::Bare(_) => Ok(self.named(token.name())),
            Token::Number(number) => Ok(self.read_int(int_of(*number))),
            Token::Quoted(text) => {
                let text = Text::of(undoubled(alloc, text)?);
                Ok(Some(self.read(RawOperand::Words(text))))
            }
            Token::Sign(Symbol::Minus) => Ok(Some(Partial::Minus(self))),
            Token::Sign(_) => Ok(None),
        }
    }
}

impl Purpose {
    /// A column is read.
    fn read(self, column: Reference) -> Partial
        ensures { result ≡ column_read self column }
    {
        match self {
            Purpose::Item(place) => Partial::Value(place, RawValue::Column(column)),
            Purpose::Argument(place, function) => {
                Partial::Unclosed(place, RawValue::Of(function, column))
            }
            Purpose::Group => Partial::Group(column),
            Purpose::Operand(side) => side.read(RawOperand::Column(column)),
        }
    }

    /// A word behind a column that is named alone, and that is no `.`.
    fn unqualified(self, name: Name, place: u64, token: &Token) -> Turn
        ensures { result ≡ unqualified_turn self name (record { place = place; says = token_told token.now }) }
    {
        match self {
            Purpose::Item(start) => value_turn(start, RawValue::Column(bare_column(name)), token),
            Purpose::Argument(start, function) => {
                unclosed_turn(start, RawValue::Of(function, bare_column(name)), token)
            }
            Purpose::Group => Turn::Ends(RawPart::Group(bare_column(name))),
            Purpose::Operand(Side::Left) => left_turn(
                RawOperand::Column(bare_column(name)),
                place,
                token,
            ),
            Purpose::Operand(Side::Right(left, op, at)) => Turn::Ends(RawPart::Test(RawTest {
                left,
                op,
                place: at,
                right: RawOperand::Column(bare_column(name)),
            })),
        }
    }

    /// What a column that is named alone makes of its part.
    fn unqualified_part(self, name: Name) -> Option<RawPart>
        ensures { result ≡ unqualified_part self name }
    {
        match self {
            Purpose::Item(start) => Some(RawPart::Item(item_of(
                start,
                RawValue::Column(bare_column(name)),
            ))),
            Purpose::Group => Some(RawPart::Group(bare_column(name))),
            Purpose::Argument(..) | Purpose::Operand(Side::Left) => None,
            Purpose::Operand(Side::Right(left, op, place)) => Some(RawPart::Test(RawTest {
                left,
                op,
                place,
                right: RawOperand::Column(bare_column(name)),
            })),
        }
    }
}

fn is_dot(token: &Token) -> bool
    ensures { result ≡ is_dot (token_told token.now) }
{
    matches!(token, Token::Sign(Symbol::Dot))
}

fn is_open(token: &Token) -> bool
    ensures { result ≡ is_open (token_told token.now) }
{
    matches!(token, Token::Sign(Symbol::Open))
}

fn is_close(token: &Token) -> bool
    ensures { result ≡ is_close (token_told token.now) }
{
    matches!(token, Token::Sign(Symbol::Close))
}

fn is_star(token: &Token) -> bool
    ensures { result ≡ is_star (token_told token.now) }
{
    matches!(token, Token::Sign(Symbol::Star))
}

/// A word behind what an item gives.
fn value_turn(place: u64, value: RawValue, token: &Token) -> Turn
    ensures { result ≡ value_turn place value (token_told token.now) }
{
    if token.is_key(b"AS") {
        Turn::Goes(Partial::ValueAs(place, value))
    } else {
        Turn::Ends(RawPart::Item(item_of(place, value)))
    }
}

/// A word behind a function's key word.
fn function_turn(place: u64, function: Function, token: &Token) -> Turn
    ensures { result ≡ function_turn place function (token_told token.now) }
{
    if is_open(token) {
        Turn::Goes(Partial::Opened(place, function))
    } else {
        Turn::Stops
    }
}

/// A word behind that and `(`.
fn opened_turn(place: u64, function: Function, token: &Token) -> Turn
    ensures { result ≡ opened_turn place function (token_told token.now) }
{
    if is_count(function) && is_star(token) {
        return Turn::Goes(Partial::Unclosed(place, RawValue::CountAll));
    }
    match token.name() {
        Some(name) => Turn::Goes(Partial::Named(Purpose::Argument(place, function), name)),
        None => Turn::Stops,
    }
}

/// A word where `)` is due.
fn unclosed_turn(place: u64, value: RawValue, token: &Token) -> Turn
    ensures { result ≡ unclosed_turn place value (token_told token.now) }
{
    if is_close(token) {
        Turn::Goes(Partial::Value(place, value))
    } else {
        Turn::Stops
    }
}

/// A word behind the left operand of a comparison.
fn left_turn(left: RawOperand, place: u64, token: &Token) -> Turn
    ensures { result ≡ left_turn left (record { place = place; says = token_told token.now }) }
{
    match op_in(token) {
        Some(op) => Turn::Goes(Partial::Compared(left, op, place)),
        None => Turn::Stops,
    }
}

/// A word behind a table's name.
fn table_turn(name: Name, token: &Token) -> Turn
    ensures { result ≡ table_turn name (token_told token.now) }
{
    if token.is_key(b"AS") {
        return Turn::Goes(Partial::TableAs(name));
    }
    match token.name() {
        Some(call) => Turn::Goes(Partial::Table(RawTable { name, call })),
        None => Turn::Ends(RawPart::Table(RawTable { name, call: name })),
    }
}

/// A word behind a `-`.
fn minus_turn(side: Side, token: &Token) -> Turn
    ensures { result ≡ minus_turn side (token_told token.now) }
{
    match token {
        Token::Number(number) => goes(side.read_int(negative_of(*number))),
        Token::Bare(_) | Token::Quoted(_) | Token::Sign(_) => Turn::Stops,
    }
}

/// A word behind what a key names.
fn key_turn(by: KeyBy, token: &Token) -> Turn
    ensures { result ≡ key_turn by (token_told token.now) }
{
    if token.is_key(b"ASC") {
        Turn::Goes(Partial::Key(RawKey { by, falling: false }))
    } else if token.is_key(b"DESC") {
        Turn::Goes(Partial::Key(RawKey { by, falling: true }))
    } else {
        Turn::Ends(RawPart::Key(RawKey { by, falling: false }))
    }
}

fn goes(partial: Option<Partial>) -> Turn
    ensures { result ≡ goes partial }
{
    match partial {
        Some(partial) => Turn::Goes(partial),
        None => Turn::Stops,
    }
}

fn item_begun(place: u64, token: &Token) -> Option<Partial>
    ensures { result ≡ item_begun (record { place = place; says = token_told token.now }) }
{
    if let Some(function) = function_in(token) {
        return Some(Partial::Function(place, function));
    }
    match token.name() {
        Some(name) => Some(Partial::Named(Purpose::Item(place), name)),
        None => None,
    }
}

fn list_begun(place: u64, token: &Token) -> Option<Partial>
    ensures { result ≡ list_begun place (token_told token.now) }
{
    match token {
        Token::Sign(Symbol::Star) => Some(Partial::All(place)),
        _ => item_begun(place, token),
    }
}

fn key_begun(catalog: &Catalog, raw: &RawSelect, token: &Token) -> Option<Partial>
    ensures { result ≡ key_begun catalog.now raw.now (token_told token.now) }
{
    match token {
        Token::Number(number) if is_listed(catalog, raw, *number) => {
            Some(Partial::KeyBy(KeyBy::Number(*number)))
        }
        Token::Bare(_) => token.name().map(|name| Partial::KeyBy(KeyBy::Name(name))),
        Token::Number(_) | Token::Quoted(_) | Token::Sign(_) => None,
    }
}

fn group_begun(token: &Token) -> Option<Partial>
    ensures { result ≡ option_map (λ n. Partial.Named Purpose.Group n) (name_of (token_told token.now)) }
{
    match token.name() {
        Some(name) => Some(Partial::Named(Purpose::Group, name)),
        None => None,
    }
}

fn limit_begun(token: &Token) -> Option<Partial>
    ensures { result ≡ limit_begun (token_told token.now) }
{
    match token {
        Token::Number(number) if *number <= u64::from(LIMIT_MOST) => {
            Some(Partial::Limit(*number as u32))
        }
        _ => None,
    }
}

/// The first word of what is due, where there may be one more.
fn begun(
    alloc: Global,
    catalog: &Catalog,
    raw: &RawSelect,
    slot: Slot,
    place: u64,
    token: &Token,
) -> Result<Option<Partial>, AllocError>
    ensures { IfOk result (λ partial. partial ≡ begun catalog.now raw.now slot (record { place = place; says = token_told token.now })) }
{
    if !raw.has_room(slot) {
        return Ok(None);
    }
    match slot {
        Slot::List => Ok(list_begun(place, token)),
        Slot::Item => Ok(item_begun(place, token)),
        Slot::Table | Slot::Joined => Ok(token.name().map(Partial::TableNamed)),
        Slot::On | Slot::Test => Side::Left.begun(alloc, token),
        Slot::Group => Ok(group_begun(token)),
        Slot::Key => Ok(key_begun(catalog, raw, token)),
        Slot::Limit => Ok(limit_begun(token)),
    }
}

/// A word behind a column's name, or behind what its table is called by.
fn named_turn(purpose: Purpose, name: Name, place: u64, token: &Token) -> Turn
    ensures { result ≡ named_turn purpose name (record { place = place; says = token_told token.now }) }
{
    if is_dot(token) {
        Turn::Goes(Partial::Dotted(purpose, name))
    } else {
        purpose.unqualified(name, place, token)
    }
}

/// A word behind what a column's table is called by, and `.`.
fn dotted_turn(purpose: Purpose, qualifier: Name, token: &Token) -> Turn
    ensures { result ≡ dotted_turn purpose qualifier (name_of (token_told token.now)) }
{
    match token.name() {
        Some(name) => Turn::Goes(purpose.read(qualified_column(qualifier, name))),
        None => Turn::Stops,
    }
}

/// A word behind AS and what an item gives.
fn alias_turn(place: u64, value: RawValue, token: &Token) -> Turn
    ensures { result ≡ alias_turn place value (name_of (token_told token.now)) }
{
    match token.name() {
        Some(name) => Turn::Goes(Partial::Item(RawItem {
            place,
            value,
            name: Some(name),
        })),
        None => Turn::Stops,
    }
}

/// A word behind AS and a table's name.
fn call_turn(name: Name, token: &Token) -> Turn
    ensures { result ≡ call_turn name (name_of (token_told token.now)) }
{
    match token.name() {
        Some(call) => Turn::Goes(Partial::Table(RawTable { name, call })),
        None => Turn::Stops,
    }
}

impl Partial {
    /// One word more.
    pub fn turn(
        self,
        alloc: Global,
        catalog: &Catalog,
        raw: &RawSelect,
        slot: Slot,
        place: u64,
        token: &Token,
    ) -> Result<Turn, AllocError>
        ensures { IfOk result (λ next. next ≡ turn catalog.now raw.now slot self (record { place = place; says = token_told token.now })) }
    {
        match self {
            Partial::Due => Ok(goes(begun(alloc, catalog, raw, slot, place, token)?)),
            Partial::All(start) => Ok(Turn::Ends(RawPart::All(start))),
            Partial::Named(purpose, name) => Ok(named_turn(purpose, name, place, token)),
            Partial::Dotted(purpose, qualifier) => Ok(dotted_turn(purpose, qualifier, token)),
            Partial::Function(start, function) => Ok(function_turn(start, function, token)),
            Partial::Opened(start, function) => Ok(opened_turn(start, function, token)),
            Partial::Unclosed(start, value) => Ok(unclosed_turn(start, value, token)),
            Partial::Value(start, value) => Ok(value_turn(start, value, token)),
            Partial::ValueAs(start, value) => Ok(alias_turn(start, value, token)),
            Partial::Item(item) => Ok(Turn::Ends(RawPart::Item(item))),
            Partial::TableNamed(name) => Ok(table_turn(name, token)),
            Partial::TableAs(name) => Ok(call_turn(name, token)),
            Partial::Table(table) => Ok(Turn::Ends(RawPart::Table(table))),
            Partial::Minus(side) => Ok(minus_turn(side, token)),
            Partial::Left(left) => Ok(left_turn(left, place, token)),
            Partial::Compared(left, op, at) => {
                Ok(goes(Side::Right(left, op, at).begun(alloc, token)?))
            }
            Partial::Test(test) => Ok(Turn::Ends(RawPart::Test(test))),
            Partial::Group(column) => Ok(Turn::Ends(RawPart::Group(column))),
            Partial::KeyBy(by) => Ok(key_turn(by, token)),
            Partial::Key(key) => Ok(Turn::Ends(RawPart::Key(key))),
            Partial::Limit(rows) => Ok(Turn::Ends(RawPart::Limit(rows))),
        }
    }

    /// The part that the words are, if they are one.
    pub fn part(self) -> Option<RawPart>
        ensures { result ≡ part_of self }
    {
        match self {
            Partial::All(start) => Some(RawPart::All(start)),
            Partial::Named(purpose, name) => purpose.unqualified_part(name),
            Partial::Value(start, value) => Some(RawPart::Item(item_of(start, value))),
            Partial::Item(item) => Some(RawPart::Item(item)),
            Partial::TableNamed(name) => Some(RawPart::Table(RawTable { name, call: name })),
            Partial::Table(table) => Some(RawPart::Table(table)),
            Partial::Test(test) => Some(RawPart::Test(test)),
            Partial::Group(column) => Some(RawPart::Group(column)),
            Partial::KeyBy(by) => Some(RawPart::Key(RawKey { by, falling: false })),
            Partial::Key(key) => Some(RawPart::Key(key)),
            Partial::Limit(rows) => Some(RawPart::Limit(rows)),
            Partial::Due
            | Partial::Dotted(..)
            | Partial::Function(..)
            | Partial::Opened(..)
            | Partial::Unclosed(..)
            | Partial::ValueAs(..)
            | Partial::TableAs(_)
            | Partial::Minus(_)
            | Partial::Left(_)
            | Partial::Compared(..) => None,
        }
    }
}

fn table_clause(slot: Slot) -> Clause
    ensures { result ≡ table_clause slot }
{
    match slot {
        Slot::Joined => Clause::Joined,
        Slot::List
        | Slot::Item
        | Slot::Table
        | Slot::On
        | Slot::Test
        | Slot::Group
        | Slot::Key
        | Slot::Limit => Clause::Tables,
    }
}

fn test_clause(slot: Slot) -> Clause
    ensures { result ≡ test_clause slot }
{
    match slot {
        Slot::On => Clause::Ons,
        Slot::List
        | Slot::Item
        | Slot::Table
        | Slot::Joined
        | Slot::Test
        | Slot::Group
        | Slot::Key
        | Slot::Limit => Clause::Tests,
    }
}

impl RawPart {
    /// The clause that the part belongs to, by what was due.
    pub fn clause(&self, slot: Slot) -> Clause
        ensures { result ≡ clause_of slot self.now }
    {
        match self {
            RawPart::All(_) => Clause::All,
            RawPart::Item(_) => Clause::Items,
            RawPart::Table(_) => table_clause(slot),
            RawPart::Test(_) => test_clause(slot),
            RawPart::Group(_) => Clause::Groups,
            RawPart::Key(_) => Clause::Keys,
            RawPart::Limit(_) => Clause::Limited,
        }
    }
}

impl Clause {
    /// Whether a SELECT may end here.
    pub fn is_whole(self) -> bool
        ensures { result ≡ is_whole self }
    {
        match self {
            Clause::Begin | Clause::All | Clause::Items | Clause::Joined => false,
            Clause::Tables
            | Clause::Ons
            | Clause::Tests
            | Clause::Groups
            | Clause::Keys
            | Clause::Limited => true,
        }
    }
}
