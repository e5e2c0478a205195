//! A journal in memory. A *row* stands for an entry, and the *tables* have what doesn't fit into rows. A *token* marks a part of the program's term
//! that runs; its *mark* is its number in the journal. A *cell* stands for the x of an opened `f <x< g`, a pruning. An entry's *kind* (`fork`, say)
//! tells which numbers it has; its *line* is its text in a written journal. A *cancel* is the entry with which a pending call goes, since a `bind`
//! has dropped the right side of a `<x<` in which it was.
//!
//! A call that adds an entry makes room for its row, then adds to the tables, and puts the row in last, which can't fail. So where memory is refused
//! no row was added; what the tables have more is named by none. In calls that add an entry `token` is the mark of the token that moves, and `call`
//! and `cell` are numbers.

ghost use Rattle.std.specs.Prelude.{◌≡◌, ◌+◌, ◌≤◌, ◌++◌, ◌∷◌, [], List, None, Some, length, map, take, true, false, IfOk, OnOk, OnErr};
ghost use Rattle.std.specs.List.{slice_get};
ghost use Rattle.orc_rules.specs.declared.entry.Entry.{Entry as EntryOf};
ghost use Rattle.orc_rules.specs.declared.entry.Entry.TheVariants.{Call, Bind, Cancel};
ghost use Rattle.orc_rules.specs.declared.limits.TheConstants.{MOST_ARGUMENTS};
ghost use Rattle.orc_rules.specs.Trace.{published};
ghost use Rattle.orc_journal.specs.Rows.{entry_of, given, plain, AreWithin, HasValue, IsPlain};
ghost use Rattle.orc_journal.specs.Written.{Written, journal_with};

use crate::room::make_room;
use crate::rows::{Row, Tables};
use orc_rules::entry::Entry;
use orc_rules::kind::Kind;
use orc_rules::value::Value;
use std::alloc::{AllocError, Global};
use std::marker::Model;

/// The version of a journal's text: only the second one has cancels.
#[derive(Clone, Copy, PartialEq, Eq, Debug)]
pub enum Version {
    One,
    Two,
}

/// A journal: its version and its entries. An entry takes 16 bytes, a call 12 more, and a value or an argument 16 more; but a value, or a call's only
/// argument, that equals the value stored last isn't stored again. An entry with a number of over 32 bits, or one that opens a pruning with marks
/// that don't follow one another, takes 40 bytes more.
#[derive(Drop)]
pub struct Journal {
    version: Version,
    // A row for each entry, and in the tables what doesn't fit into rows.
    pub(crate) rows: Vec<Row>,
    pub(crate) tables: Tables,
}

// Contracts see the version and the entries for which the rows stand. All that a row names is in the tables.
impl Model for Journal {
    ghost Value = { Written };

    ghost view = { λ j. record { version = j.version; entries = map (entry_of j.tables) j.rows.items } };

    ghost invariant = { λ j. AreWithin j.tables j.rows.items };
}

impl Journal {
    /// A journal without entries.
    pub fn new(alloc: Global, version: Version) -> Journal
        ensures { result ≡ record { version = version; entries = [] } }
    {
        Journal {
            version,
            rows: Vec::new(alloc),
            tables: Tables::new(alloc),
        }
    }

    /// The version of the journal's text.
    pub fn version(&self) -> Version
        ensures { result ≡ self.now.version }
    {
        self.version
    }

    /// How many entries there are, cancels counted.
    pub fn len(&self) -> usize
        ensures { result ≡ length self.now.entries }
    {
        self.rows.len()
    }

    /// The number that the next entry will have. Entries count from 1.
    pub fn next_number(&self) -> u64
        ensures { result ≡ length self.now.entries + 1 }
    {
        // A slice has fewer than 2^63 items, so one more fits.
        let rows = self.rows.as_slice();
        rows.len() as u64 + 1
    }

    /// Makes room for the rows of that many entries more (each entry has a row), so that adding them asks for memory less often. The error is refused
    /// memory; the entries stay as they are.
    pub fn reserve(&mut self, entries: usize) -> Result<(), AllocError>
        ensures { self.new ≡ self.old }
    {
        self.rows.try_reserve(entries)
    }

    /// Adds an entry at the end. The error is refused memory, and then nothing changes.
    // Inlined, so that a caller which knows the entry's kind makes one call and builds no `Entry`. A number that the kind doesn't have is 0. Of the
    // letters s, a and b are marks, c is a cell, k a call, v a value, and t a time.
    #[inline(always)]
    pub fn push(&mut self, entry: &Entry) -> Result<(), AllocError>
        ensures added { OnOk result (self.new ≡ record { version = self.old.version; entries = self.old.entries ++ entry.now ∷ [] }) }
        ensures refused { OnErr result (self.new ≡ self.old) }
    {
        match entry {
            Entry::End(s) => self.push_plain(Kind::End, *s, 0, 0, 0),
            Entry::Fork(s, a, b) => self.push_plain(Kind::Fork, *s, *a, *b, 0),
            Entry::Seq(s, a) => self.push_plain(Kind::Seq, *s, *a, 0, 0),
            Entry::Other(s, a) => self.push_plain(Kind::Other, *s, *a, 0, 0),
            Entry::Def(s, a) => self.push_plain(Kind::Def, *s, *a, 0, 0),
            Entry::Void(s) => self.push_plain(Kind::Void, *s, 0, 0, 0),
            Entry::Open(s, c, a, b) => self.push_plain(Kind::Open, *s, *c, *a, *b),
            Entry::Send(s, a, v) => self.push_given(Kind::Send, *s, *a, *v),
            Entry::Call(s, k, site, args) => self.push_call(*s, *k, *site, args.as_slice()),
            Entry::Return(k, a, v) => self.push_given(Kind::Return, *k, *a, *v),
            Entry::ReturnHalt(k) => self.push_plain(Kind::ReturnHalt, *k, 0, 0, 0),
            Entry::Bind(s, c, v) => self.push_given(Kind::Bind, *s, *c, *v),
            Entry::Lost(c) => self.push_plain(Kind::Lost, *c, 0, 0, 0),
            Entry::Right(s, a) => self.push_plain(Kind::Right, *s, *a, 0, 0),
            Entry::Publish(s, v) => self.push_given(Kind::Publish, *s, 0, *v),
            Entry::Tick(t) => self.push_plain(Kind::Tick, *t, 0, 0, 0),
            Entry::Cancel(k) => self.push_plain(Kind::Cancel, *k, 0, 0, 0),
        }
    }

    // Adds an entry of numbers alone at the end, with neither a value nor arguments. The numbers are in the order of its line (`Parts`), 0 for those
    // that it hasn't. Where memory is refused nothing changes. Neither it nor `push_given` is inlined, so that `push` stays small.
    #[inline(never)]
    fn push_plain(
        &mut self,
        kind: Kind,
        first: u64,
        second: u64,
        third: u64,
        fourth: u64,
    ) -> Result<(), AllocError>
        requires { IsPlain kind }
        ensures added { OnOk result (self.new ≡ journal_with self.old (plain kind first second third fourth ∷ [])) }
        ensures refused { OnErr result (self.new ≡ self.old) }
    {
        // The room for the row comes first, so that to put it in can't fail. If memory for the tables is refused, no row names what they have more.
        make_room(&mut self.rows)?;
        let row = self.tables.add_plain(kind, first, second, third, fourth)?;
        self.rows.push_reserved(row);
        Ok(())
    }

    // Adds an entry with a value at the end. `first` and `second` are its numbers in the order of its line, and `second` is 0 if it has one alone.
    // Where memory is refused nothing changes.
    #[inline(never)]
    fn push_given(
        &mut self,
        kind: Kind,
        first: u64,
        second: u64,
        value: Value,
    ) -> Result<(), AllocError>
        requires { HasValue kind }
        ensures added { OnOk result (self.new ≡ journal_with self.old (given kind first second value ∷ [])) }
        ensures refused { OnErr result (self.new ≡ self.old) }
    {
        // The room for the row comes first, so that to put it in can't fail. If memory for the tables is refused, no row names what they have more.
        make_room(&mut self.rows)?;
        let row = self.tables.add_given(kind, first, second, value)?;
        self.rows.push_reserved(row);
        Ok(())
    }

    /// Adds a `call` as `push` does, without an `Entry`: by the mark of the token that calls, the call's number, and its site's. The arguments,
    /// `MOST_ARGUMENTS` at most, are copied once. The error is refused memory, and then nothing changes.
    pub fn push_call(
        &mut self,
        token: u64,
        call: u64,
        site: u32,
        args: &[Value],
    ) -> Result<(), AllocError>
        requires { length args.now ≤ MOST_ARGUMENTS }
        ensures added { OnOk result (self.new ≡ journal_with self.old (Call token call site args.now ∷ [])) }
        ensures refused { OnErr result (self.new ≡ self.old) }
    {
        // The room for the row comes first, so that to put it in can't fail. If memory for the tables is refused, no row names what they have more.
        make_room(&mut self.rows)?;
        let row = self.tables.add_call(token, call, site, args)?;
        self.rows.push_reserved(row);
        Ok(())
    }

    /// Drops all entries but the first `len`; none if there are no more. The memory of what is dropped stays reserved.
    pub fn truncate(&mut self, len: usize)
        ensures { self.new ≡ record { version = self.old.version; entries = take len self.old.entries } }
    {
        self.rows.truncate(len);
    }

    // Adds the cancels of the calls with these numbers. The error is refused memory; some of the cancels may be added by then.
    fn push_cancels(&mut self, calls: &[u64]) -> Result<(), AllocError>
        ensures added { OnOk result (self.new ≡ journal_with self.old (map Cancel calls.now)) }
        ensures begun { (es : List EntryOf) × (self.new ≡ journal_with self.old es) }
    {
        for call in calls {
            self.push(&Entry::Cancel(*call))?;
        }
        Ok(())
    }

    /// Adds a `bind` of this cell by the token with the mark `token` and, behind it, the cancels of the calls with the numbers `cancelled`, in their
    /// order. The error is refused memory, and then nothing changes.
    pub fn push_bind(
        &mut self,
        token: u64,
        cell: u64,
        value: Value,
        cancelled: &[u64],
    ) -> Result<(), AllocError>
        ensures added { OnOk result (self.new ≡ journal_with self.old (Bind token cell value ∷ map Cancel cancelled.now)) }
        ensures refused { OnErr result (self.new ≡ self.old) }
    {
        let len = self.rows.len();
        self.push_given(Kind::Bind, token, cell, value)?;
        let pushed = self.push_cancels(cancelled);
        // If one is refused, the bind and the cancels before it are dropped again.
        if pushed.is_err() {
            self.truncate(len);
        }
        pushed
    }

    /// Writes the entry at a place, counted from 0, into `entry`, and returns whether there is one. If not, `entry` stays as it was. The entry itself
    /// isn't returned, since an `Entry` has room for a call's arguments: to copy it takes longer than to write its line.
    pub fn read(&self, at: usize, entry: &mut Entry) -> bool
        ensures read { result ≡ true → slice_get self.now.entries at ≡ Some entry.new }
        ensures none { result ≡ false → slice_get self.now.entries at ≡ None }
        ensures same { result ≡ false → entry.new ≡ entry.old }
    {
        let Some(row) = self.rows.get(at) else {
            return false;
        };
        self.tables.read(*row, entry);
        true
    }

    /// The entry at a place, counted from 0. None if there are fewer entries.
    pub fn get(&self, at: usize) -> Option<Entry>
        ensures { result ≡ slice_get self.now.entries at }
    {
        // A placeholder, which `read` overwrites.
        let mut entry = Entry::Tick(0);
        if self.read(at, &mut entry) {
            Some(entry)
        } else {
            None
        }
    }

    /// The values that the journal's entries publish, in order. The error is refused memory.
    pub fn published(&self, alloc: Global) -> Result<Vec<Value>, AllocError>
        ensures { IfOk result (λ values. values.items ≡ published self.now.entries) }
    {
        let mut values = Vec::new(alloc);
        for row in &self.rows {
            if let Some(value) = self.tables.publication(*row) {
                values.push(value)?;
            }
        }
        Ok(values)
    }
}
