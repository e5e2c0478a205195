//! The journal of a part's own run, appended to the enclosing run's journal under the numbers that `Numbering` gives. `own` is a number in the part.
//! A *row* stands for an entry, whose kind and numbers are its parts; the *tables* have what doesn't fit into rows. A tick is the entry that sets the
//! time, a cancel the one with which a pending call goes. A *mark* is the number of a token. A *cell* stands for the x of an opened `f <x< g`.

ghost use Rattle.std.specs.Prelude.{◌≡◌, ◌+◌, ◌∷◌, [], List, map, true, IfOk, OnOk, OnErr};
ghost use Rattle.orc_rules.specs.declared.entry.Entry.{Entry as EntryOf};
ghost use Rattle.orc_subrun.specs.Moved.{cell_in, mark_in, moved, IsLocal, AreLocal, IsSilent, AreSilent};
ghost use Rattle.orc_journal.specs.Rows.{entry_of, IsWithin, Keeps, StandsFor};
ghost use Rattle.orc_journal.specs.Written.{journal_with};

use crate::journal::Journal;
use crate::room::make_room;
use crate::rows::{Row, Tables};
use orc_rules::answers::Answers;
use orc_rules::kind::Kind;
use orc_subrun::Numbering;
use std::alloc::AllocError;

// The mark in the enclosing run for the mark `own` of a *part*, a call of a definition that was run by itself. The error is that the mark doesn't fit
// 64 bits, which counts as refused memory.
#[inline(always)]
fn mark_of(numbering: Numbering, own: u64) -> Result<u64, AllocError>
    ensures { IfOk result (λ mark. mark ≡ mark_in numbering own) }
{
    numbering.mark_of(own).ok_or(AllocError)
}

// The number in the enclosing run for the call `own` of a *part*, a call of a definition that was run by itself. The error is that the number doesn't
// fit 64 bits, which counts as refused memory.
#[inline(always)]
fn call_of(numbering: Numbering, own: u64) -> Result<u64, AllocError>
    ensures { IfOk result (λ call. call ≡ numbering.calls + own) }
{
    numbering.call_of(own).ok_or(AllocError)
}

// The number in the enclosing run for the cell `own` of a *part*, a call of a definition that was run by itself. The error is that the number doesn't
// fit 64 bits, which counts as refused memory.
#[inline(always)]
fn cell_of(numbering: Numbering, own: u64) -> Result<u64, AllocError>
    ensures { IfOk result (λ cell. cell ≡ cell_in numbering own) }
{
    numbering.cell_of(own).ok_or(AllocError)
}

impl Tables {
    // Whether the entry of a row is local: no tick, no cancel, and no call that a script answers.
    #[inline(always)]
    fn is_local(&self, row: Row, answers: &Answers) -> bool
        requires { IsWithin self.now row }
        ensures { result ≡ true → IsLocal answers.now.sites (entry_of self.now row) }
    {
        let p = self.parts_at(row);
        match p.kind {
            Kind::Tick | Kind::Cancel => false,
            Kind::Call => {
                let called = self.called(p.third);
                !answers.is_scripted(called.site)
            }
            _ => true,
        }
    }

    // Whether the entry of a row is no publication.
    #[inline(always)]
    fn is_silent(&self, row: Row) -> bool
        requires { IsWithin self.now row }
        ensures { result ≡ true → IsSilent (entry_of self.now row) }
    {
        let p = self.parts_at(row);
        match p.kind {
            Kind::Publish => false,
            _ => true,
        }
    }

    // Adds a part's entry to these tables under the enclosing run's numbers, and gives its row here. `row` is its row in the part; the letters s, a,
    // b, c and k are those of `Entry`, in the enclosing run. The error is refused memory, or a number that doesn't fit 64 bits. In each case the rows
    // so far stand for what they did (`Keeps`).
    #[inline(always)]
    fn add_moved(
        &mut self,
        part: &Tables,
        row: Row,
        numbering: Numbering,
    ) -> Result<Row, AllocError>
        requires { IsWithin part.now row }
        ensures kept { Keeps self.old self.new }
        ensures row { IfOk result (λ r. StandsFor self.new r (moved numbering (entry_of part.now row))) }
    {
        // `p` is the entry's kind and numbers in the part; `n` says which numbers these become.
        let n = numbering;
        let p = part.parts_at(row);
        match p.kind {
            Kind::End => self.add_plain(Kind::End, mark_of(n, p.first)?, 0, 0, 0),
            Kind::Fork => {
                let s = mark_of(n, p.first)?;
                let a = mark_of(n, p.second)?;
                let b = mark_of(n, p.third)?;
                self.add_plain(Kind::Fork, s, a, b, 0)
            }
            Kind::Seq | Kind::Other | Kind::Def | Kind::Right => {
                let s = mark_of(n, p.first)?;
                let a = mark_of(n, p.second)?;
                self.add_plain(p.kind, s, a, 0, 0)
            }
            Kind::Void => self.add_plain(Kind::Void, mark_of(n, p.first)?, 0, 0, 0),
            Kind::Open => {
                let s = mark_of(n, p.first)?;
                let c = cell_of(n, p.second)?;
                let a = mark_of(n, p.third)?;
                let b = mark_of(n, p.fourth)?;
                self.add_plain(Kind::Open, s, c, a, b)
            }
            Kind::Send => {
                let s = mark_of(n, p.first)?;
                let a = mark_of(n, p.second)?;
                self.add_given(Kind::Send, s, a, part.value(p.third))
            }
            Kind::Call => {
                let s = mark_of(n, p.first)?;
                let k = call_of(n, p.second)?;
                let called = part.called(p.third);
                self.add_call(s, k, called.site, part.args(called))
            }
            Kind::Return => {
                let k = call_of(n, p.first)?;
                let a = mark_of(n, p.second)?;
                self.add_given(Kind::Return, k, a, part.value(p.third))
            }
            Kind::ReturnHalt => self.add_plain(Kind::ReturnHalt, call_of(n, p.first)?, 0, 0, 0),
            Kind::Bind => {
                let s = mark_of(n, p.first)?;
                let c = cell_of(n, p.second)?;
                self.add_given(Kind::Bind, s, c, part.value(p.third))
            }
            Kind::Lost => self.add_plain(Kind::Lost, cell_of(n, p.first)?, 0, 0, 0),
            Kind::Publish => {
                let s = mark_of(n, p.first)?;
                self.add_given(Kind::Publish, s, 0, part.value(p.third))
            }
            // A part that is appended has neither (`are_local`); they stay as they are.
            Kind::Tick | Kind::Cancel => self.add_plain(p.kind, p.first, 0, 0, 0),
        }
    }
}

impl Journal {
    /// Whether all entries are local: no tick, no cancel, and no call that a script answers. A local entry of a part doesn't depend on what the
    /// enclosing run does, since only a script's answers depend on how many such calls there were.
    pub fn are_local(&self, answers: &Answers) -> bool
        ensures { result ≡ true → AreLocal answers.now.sites self.now.entries }
    {
        for row in &self.rows {
            if !self.tables.is_local(*row, answers) {
                return false;
            }
        }
        true
    }

    /// Whether no entry is a publication.
    pub fn is_silent(&self) -> bool
        ensures { result ≡ true → AreSilent self.now.entries }
    {
        for row in &self.rows {
            if !self.tables.is_silent(*row) {
                return false;
            }
        }
        true
    }

    // Adds a part's entry under these numbers, from its row in the part. The error is refused memory, or a number that doesn't fit 64 bits; then no
    // entry is added.
    #[inline(always)]
    fn push_moved(
        &mut self,
        part: &Tables,
        row: Row,
        numbering: Numbering,
    ) -> Result<(), AllocError>
        requires { IsWithin part.now row }
        ensures added { OnOk result (self.new ≡ journal_with self.old (moved numbering (entry_of part.now row) ∷ [])) }
        ensures refused { OnErr result (self.new ≡ self.old) }
    {
        make_room(&mut self.rows)?;
        let row = self.tables.add_moved(part, row, numbering)?;
        self.rows.push_reserved(row);
        Ok(())
    }

    // Adds a part's entries under these numbers, one by one. The error is refused memory, or a number that doesn't fit 64 bits; some of them may be
    // added by then. Not inlined, since mostly `push_shifted` does it all.
    #[cold]
    #[inline(never)]
    fn push_each(&mut self, part: &Journal, numbering: Numbering) -> Result<(), AllocError>
        ensures added { OnOk result (self.new ≡ journal_with self.old (map (moved numbering) part.now.entries)) }
        ensures begun { (es : List EntryOf) × (self.new ≡ journal_with self.old es) }
    {
        self.reserve(part.len())?;
        for row in &part.rows {
            self.push_moved(&part.tables, *row, numbering)?;
        }
        Ok(())
    }

    /// Adds the entries of a part's own run at the end, under the enclosing run's numbers, which `numbering` gives; a *part* is a call of a
    /// definition that was run by itself. The error is refused memory, or a number that doesn't fit 64 bits, and then nothing changes.
    pub fn append(&mut self, part: &Journal, numbering: Numbering) -> Result<(), AllocError>
        ensures added { OnOk result (self.new ≡ journal_with self.old (map (moved numbering) part.now.entries)) }
        ensures refused { OnErr result (self.new ≡ self.old) }
    {
        // First by moving the rows; if one of them can't be moved, nothing was added, and the entries are added one by one.
        if self.push_shifted(part, numbering)? {
            return Ok(());
        }
        // If an entry can't be added, those before it are dropped again.
        let len = self.len();
        let pushed = self.push_each(part, numbering);
        if pushed.is_err() {
            self.truncate(len);
        }
        pushed
    }
}
