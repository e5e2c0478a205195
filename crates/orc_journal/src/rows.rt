//! The rows of a journal: an entry in 16 bytes each, and tables of what doesn't fit there. An entry's *line* is its text; its numbers are those of
//! tokens (their *marks*), of cells and of calls, or a time.
//!
//! Tables only grow at their ends, so each row stands for one entry for good (`Keeps`). What a refused call has added stays in them, but no row names
//! it. A value's place is its number among the values, from 0. In clauses `Names` says which parts a row has, `StandsFor` for which entry it stands,
//! and `IsWithin` that all that it names is in the tables; `grown` are tables with more at their ends.

ghost use Rattle.std.specs.Prelude.{◌≡◌, ◌≤◌, ◌∷◌, List, [], length, take, drop, slice_index_or, option_to_list, IfOk, IfSome, OnOk, OnErr};
ghost use Rattle.orc_rules.specs.Trace.{published};
ghost use Rattle.orc_rules.specs.declared.limits.TheConstants.{MOST_ARGUMENTS};
ghost use Rattle.orc_rules.specs.declared.entry.Entry.TheVariants.{Call};
ghost use Rattle.orc_journal.specs.Rows.{last_of, parts_in, no_call, value_at, call_by, entry_of, grown, plain, given, HasArguments, HasCall, HasValue, IsPlain, IsThere, IsWithin, Keeps, Names, StandsAt, StandFrom, StandsFor};
ghost use Rattle.orc_journal.specs.declared.rows.Parts.{Parts as PartsOf};

use crate::room::put;
use orc_rules::entry::Entry;
use orc_rules::kind::Kind;
use orc_rules::value::{Args, Value};
use std::alloc::{AllocError, Global};
use std::marker::Model;
use std::mem::size_of;

/// An entry's numbers in the order of its line, 0 for those that it doesn't have. If it has a value, the third one is the value's place; if it is a
/// call, the third one is the place of its site and arguments among the calls.
#[derive(Clone, Copy)]
pub struct Parts {
    pub kind: Kind,
    pub first: u64,
    pub second: u64,
    pub third: u64,
    pub fourth: u64,
}

/// A row, which stands for an entry: it has the entry's parts, that is, its kind and numbers, or names their place.
#[derive(Clone, Copy)]
pub enum Row {
    /// Its kind and the first three of its numbers, if these fit 32 bits; the kind and the third one tell the fourth (`last_of`).
    Narrow(Kind, u32, u32, u32),
    /// Any other entry: the place of its parts among `wides`.
    Wide(usize),
}

// The doc comment of `Journal` says that an entry takes 16 bytes.
const _: () = prove!(size_of::<Row>() == 16);

/// A call's site, by its number in the program's table, the place of its first argument among the values, and how many arguments it has.
#[derive(Clone, Copy)]
pub struct Called {
    pub site: u32,
    pub start: u32,
    pub count: u8,
}

// The doc comment of `Journal` says that a call takes 12 bytes more.
const _: () = prove!(size_of::<Called>() == 12);

/// What the rows of a journal name by its place: values, calls and parts of wide rows.
#[derive(Drop)]
pub(crate) struct Tables {
    pub(crate) values: Vec<Value>,
    pub(crate) calls: Vec<Called>,
    pub(crate) wides: Vec<Parts>,
}

// Contracts see the three lists.
impl Model for Tables {
    ghost use Rattle.orc_journal.specs.Rows.{Contents};

    ghost Value = { Contents };

    ghost view = { λ t. record { values = t.values.items; calls = t.calls.items; wides = t.wides.items } };
}

// The kind and the numbers of an entry as its parts.
#[inline(always)]
fn numbered(kind: Kind, first: u64, second: u64, third: u64, fourth: u64) -> Parts
    ensures { result ≡ record { kind = kind; first = first; second = second; third = third; fourth = fourth } }
{
    Parts {
        kind,
        first,
        second,
        third,
        fourth,
    }
}

// The fourth number of a narrow row, by its third: only an `open` has one, and its two new marks, the third and the fourth, follow one another.
#[inline(always)]
fn last_of(kind: Kind, third: u32) -> u64
    ensures { result ≡ last_of kind third }
{
    match kind {
        Kind::Open => third as u64 + 1,
        _ => 0,
    }
}

// The number in 32 bits. None if it doesn't fit.
#[inline(always)]
pub(crate) fn short(number: u64) -> Option<u32>
    ensures { IfSome result (λ n. n ≡ number) }
{
    if number <= u32::MAX as u64 {
        Some(number as u32)
    } else {
        None
    }
}

// The narrow row of these parts. None if a number doesn't fit 32 bits, or the fourth isn't the one that the third tells.
#[inline(always)]
fn narrow(parts: Parts) -> Option<Row>
    ensures { IfSome result (λ r. (wides : List PartsOf) → Names wides r parts) }
{
    let first = short(parts.first)?;
    let second = short(parts.second)?;
    let third = short(parts.third)?;
    if parts.fourth == last_of(parts.kind, third) {
        Some(Row::Narrow(parts.kind, first, second, third))
    } else {
        None
    }
}

// These values as the arguments of a call, which are `MOST_ARGUMENTS` at most.
fn args_of(values: &[Value]) -> Args
    requires { length values.now ≤ MOST_ARGUMENTS }
    ensures { result ≡ values.now }
{
    let mut args = Args::new();
    for value in values {
        args.push(*value);
    }
    args
}

// The value at a place; `signal` if there is none, which is no place that a row names.
fn value_at(values: &Vec<Value>, at: u64) -> Value
    ensures { result ≡ value_at values.now.items at }
{
    match values.get(at as usize) {
        Some(value) => *value,
        None => Value::Signal,
    }
}

impl Tables {
    /// Empty tables.
    pub(crate) fn new(alloc: Global) -> Tables
        ensures { result ≡ record { values = []; calls = []; wides = [] } }
    {
        Tables {
            values: Vec::new(alloc),
            calls: Vec::new(alloc),
            wides: Vec::new(alloc),
        }
    }

    // Adds these parts to `wides`, and gives a wide row that names their place. The error is refused memory. By `Names` the row has these parts.
    #[cold]
    #[inline(never)]
    fn add_wide(&mut self, parts: Parts) -> Result<Row, AllocError>
        ensures names { IfOk result (λ r. Names self.new.wides r parts) }
        // Refused or not, the tables only gain parts at the end.
        ensures grown { (more : List PartsOf) × (self.new ≡ grown self.old [] [] more) }
    {
        let at = self.wides.len();
        put(&mut self.wides, parts)?;
        Ok(Row::Wide(at))
    }

    // A row of these parts: a narrow one if they have one, else a wide one. The error is refused memory. By `Names` the row has these parts.
    #[inline(always)]
    fn add_parts(&mut self, parts: Parts) -> Result<Row, AllocError>
        ensures names { IfOk result (λ r. Names self.new.wides r parts) }
        // Refused or not, the tables only gain parts at the end.
        ensures grown { (more : List PartsOf) × (self.new ≡ grown self.old [] [] more) }
    {
        if let Some(row) = narrow(parts) {
            return Ok(row);
        }
        self.add_wide(parts)
    }

    /// Makes the row of an entry that has only numbers, neither a value nor arguments, from the numbers as `Parts` has them. The error is refused
    /// memory. Each row so far stands for what it did (`Keeps`).
    pub(crate) fn add_plain(
        &mut self,
        kind: Kind,
        first: u64,
        second: u64,
        third: u64,
        fourth: u64,
    ) -> Result<Row, AllocError>
        requires { IsPlain kind }
        ensures kept { Keeps self.old self.new }
        ensures row { IfOk result (λ r. StandsFor self.new r (plain kind first second third fourth)) }
    {
        self.add_parts(numbered(kind, first, second, third, fourth))
    }

    // The place of a value among the values, from 0. A value that equals the one stored last isn't stored again: most often a `send` follows a
    // `return` with its value, and then a call has that value as its argument. The error is refused memory. The other tables stay, and each row so
    // far stands for what it did (`Keeps`).
    #[inline(always)]
    fn place(&mut self, value: Value) -> Result<usize, AllocError>
        ensures kept { Keeps self.old self.new }
        ensures same { (self.new.calls ≡ self.old.calls) × (self.new.wides ≡ self.old.wides) }
        ensures there { IfOk result (λ at. StandsAt self.new.values at value) }
    {
        let end = self.values.len();
        if end > 0 && self.values[end - 1] == value {
            return Ok(end - 1);
        }
        put(&mut self.values, value)?;
        Ok(end)
    }

    // The place, among the values, of the first of a call's arguments, which follow one another. The error is refused memory. The other tables stay,
    // and each row so far stands for what it did (`Keeps`).
    fn place_all(&mut self, values: &[Value]) -> Result<usize, AllocError>
        ensures kept { Keeps self.old self.new }
        ensures same { (self.new.calls ≡ self.old.calls) × (self.new.wides ≡ self.old.wides) }
        ensures there { IfOk result (λ start. StandFrom self.new.values start values.now) }
    {
        match values {
            [value] => self.place(*value),
            // Several follow one another only if all are stored anew; with none, any place will do.
            _ => {
                let start = self.values.len();
                self.values.extend_from_slice(values)?;
                Ok(start)
            }
        }
    }

    /// Makes the row of an entry with a value, from its two numbers as `Parts` has them: the second one of a `publish` is 0. The error is refused
    /// memory. Each row so far stands for what it did (`Keeps`).
    pub(crate) fn add_given(
        &mut self,
        kind: Kind,
        first: u64,
        second: u64,
        value: Value,
    ) -> Result<Row, AllocError>
        requires { HasValue kind }
        ensures kept { Keeps self.old self.new }
        ensures row { IfOk result (λ r. StandsFor self.new r (given kind first second value)) }
    {
        // The value's place is the third number of the parts.
        let at = self.place(value)?;
        self.add_parts(numbered(kind, first, second, at as u64, 0))
    }

    /// Makes the row of a call, by the mark of the token that makes it, the call's number, and its site's number. The error is refused memory. Each
    /// row so far stands for what it did (`Keeps`).
    #[inline(always)]
    pub(crate) fn add_call(
        &mut self,
        token: u64,
        call: u64,
        site: u32,
        args: &[Value],
    ) -> Result<Row, AllocError>
        requires { length args.now ≤ MOST_ARGUMENTS }
        ensures kept { Keeps self.old self.new }
        ensures row { IfOk result (λ r. StandsFor self.new r (Call token call site args.now)) }
    {
        // The place at which `put` adds the call below: only if that succeeds the row is handed out.
        let at = self.calls.len() as u64;
        // 2^32 values would take 64 GiB: a place that doesn't fit 32 bits counts as refused memory.
        let Some(start) = short(self.place_all(args)? as u64) else {
            return Err(AllocError);
        };
        // At most `MOST_ARGUMENTS`, which is 16.
        let count = args.len() as u8;
        let row = self.add_parts(numbered(Kind::Call, token, call, at, 0))?;
        put(&mut self.calls, Called { site, start, count })?;
        Ok(row)
    }

    /// The kind and the numbers of a row's entry. By `requires` the place that a wide row names is there.
    #[inline(always)]
    pub(crate) fn parts_at(&self, row: Row) -> Parts
        requires { IsThere self.now.wides row }
        ensures { result ≡ parts_in self.now.wides row }
    {
        match row {
            Row::Narrow(kind, a, b, c) => {
                numbered(kind, a as u64, b as u64, c as u64, last_of(kind, c))
            }
            Row::Wide(at) => self.wides[at],
        }
    }

    /// What the call at a place among the calls has: its site and where its arguments are. By `requires` the call and its arguments are there.
    #[inline(always)]
    pub(crate) fn called(&self, at: u64) -> Called
        requires { HasCall self.now at }
        ensures called { result ≡ slice_index_or self.now.calls at no_call }
        ensures arguments { HasArguments self.now.values result }
    {
        self.calls[at as usize]
    }

    /// The arguments of a call, by what `called` gives for it.
    #[inline(always)]
    pub(crate) fn args(&self, called: Called) -> &[Value]
        requires { HasArguments self.now.values called }
        ensures value { result.now ≡ take called.count (drop called.start self.now.values) }
        ensures len { length result.now ≤ MOST_ARGUMENTS }
    {
        let start = called.start as usize;
        let end = start + called.count as usize;
        &self.values[start..end]
    }

    /// The value at a place.
    #[inline(always)]
    pub(crate) fn value(&self, at: u64) -> Value
        ensures { result ≡ value_at self.now.values at }
    {
        value_at(&self.values, at)
    }

    // Overwrites `entry` with a `call`: the token's mark `s`, the call's number `k`, and the site and arguments of place `at` among the calls.
    fn read_call(&self, s: u64, k: u64, at: u64, entry: &mut Entry)
        requires { HasCall self.now at }
        ensures { entry.new ≡ call_by self.now.values s k (slice_index_or self.now.calls at no_call) }
    {
        let called = self.called(at);
        *entry = Entry::Call(s, k, called.site, args_of(self.args(called)));
    }

    /// Overwrites `entry` with the entry of a row. The parts have its numbers in the order of its line; if it has a value, the third one is the
    /// value's place.
    pub(crate) fn read(&self, row: Row, entry: &mut Entry)
        requires { IsWithin self.now row }
        ensures { entry.new ≡ entry_of self.now row }
    {
        let p = self.parts_at(row);
        match p.kind {
            Kind::End => *entry = Entry::End(p.first),
            Kind::Fork => *entry = Entry::Fork(p.first, p.second, p.third),
            Kind::Seq => *entry = Entry::Seq(p.first, p.second),
            Kind::Other => *entry = Entry::Other(p.first, p.second),
            Kind::Def => *entry = Entry::Def(p.first, p.second),
            Kind::Void => *entry = Entry::Void(p.first),
            Kind::Open => *entry = Entry::Open(p.first, p.second, p.third, p.fourth),
            Kind::Send => *entry = Entry::Send(p.first, p.second, self.value(p.third)),
            Kind::Call => self.read_call(p.first, p.second, p.third, entry),
            Kind::Return => *entry = Entry::Return(p.first, p.second, self.value(p.third)),
            Kind::ReturnHalt => *entry = Entry::ReturnHalt(p.first),
            Kind::Bind => *entry = Entry::Bind(p.first, p.second, self.value(p.third)),
            Kind::Lost => *entry = Entry::Lost(p.first),
            Kind::Right => *entry = Entry::Right(p.first, p.second),
            Kind::Publish => *entry = Entry::Publish(p.first, self.value(p.third)),
            Kind::Tick => *entry = Entry::Tick(p.first),
            Kind::Cancel => *entry = Entry::Cancel(p.first),
        }
    }

    /// The value that the entry of a row publishes; None if it is no `publish`.
    pub(crate) fn publication(&self, row: Row) -> Option<Value>
        requires { IsWithin self.now row }
        ensures { option_to_list result ≡ published (entry_of self.now row ∷ []) }
    {
        let p = self.parts_at(row);
        match p.kind {
            Kind::Publish => Some(self.value(p.third)),
            _ => None,
        }
    }
}
