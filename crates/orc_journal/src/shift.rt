//! A part's rows, moved to the end of the enclosing journal's rows: most of them by adding to each number what the enclosing run has used before. A
//! *part* is the journal of a sub-run, a call of a definition that was run by itself. A *row* stands for an entry: a narrow one has the entry's first
//! three numbers in 32 bits each, a wide one names the place of its numbers. The *tables* have the values and calls that rows name. A `Numbering` has
//! the mark of the token that stood where the part is, the enclosing run's next mark, and how many calls and cells that run had before. A *mark* is
//! the number of a token. A *cell* stands for the x of an opened `f <x< g`.

ghost use Rattle.std.specs.Prelude.{◌≡◌, ◌+◌, ◌≤◌, ◌++◌, [], true, false, length, map, IfOk, IfSome, OnErr, OnSome, vec_len, vec_capacity};
ghost use Rattle.std.specs.List.{All};
ghost use Rattle.orc_subrun.specs.Moved.{moved};
ghost use Rattle.orc_journal.specs.Rows.{grown, Keeps};
ghost use Rattle.orc_journal.specs.Shifts.{called_by, mark_by, row_by, IsMovable, Shifts};
ghost use Rattle.orc_journal.specs.Written.{journal_with};

use crate::journal::Journal;
use crate::rows::{Called, Row, Tables, short};
use orc_rules::kind::Kind;
use orc_subrun::Numbering;
use std::alloc::AllocError;

/// What is added to a part's own numbers; a part is a call of a definition that was run by itself. `token` isn't added: it is the mark of the token
/// that stood where the part is, and replaces the part's mark 1.
#[derive(Clone, Copy)]
pub struct Shift {
    pub token: u32,
    /// Added to its marks from 2 on.
    pub marks: u32,
    /// Added to the numbers of its calls.
    pub calls: u32,
    /// Added to the numbers of its cells.
    pub cells: u32,
    /// Added to the places of its values.
    pub values: u32,
    /// Added to the places of its calls, where each call's site and arguments are.
    pub called: u32,
}

impl Shift {
    // The mark in the enclosing run for the part's mark `own`: that of the token for mark 1. None if it doesn't fit 32 bits.
    #[inline(always)]
    fn mark(self, own: u32) -> Option<u32>
        ensures { IfSome result (λ mark. mark ≡ mark_by self own) }
    {
        if own == 1 {
            return Some(self.token);
        }
        self.marks.checked_add(own)
    }

    // Rewrites a part's row for the same entry under the enclosing run's numbers; a, b and c are the first three of its `Parts`. None for a wide row,
    // if a number doesn't fit 32 bits, or if an `open` has mark 1 among its new marks, since these would no longer follow one another. At None some
    // numbers may have been rewritten.
    #[inline(always)]
    fn move_row(self, row: &mut Row) -> Option<()>
        ensures moved { OnSome result (row.new ≡ row_by self row.old) }
        ensures movable { OnSome result (IsMovable row.old) }
    {
        let Row::Narrow(kind, a, b, c) = row else {
            // A wide row isn't rewritten.
            return None;
        };
        match *kind {
            Kind::End | Kind::Void => *a = self.mark(*a)?,
            Kind::Fork => {
                *a = self.mark(*a)?;
                *b = self.mark(*b)?;
                *c = self.mark(*c)?;
            }
            Kind::Seq | Kind::Other | Kind::Def | Kind::Right => {
                *a = self.mark(*a)?;
                *b = self.mark(*b)?;
            }
            Kind::Open => {
                // Mark 1 becomes the token's, far from the mark behind it. A run's own `open` never has it as a new mark.
                if *c < 2 {
                    return None;
                }
                *a = self.mark(*a)?;
                *b = self.cells.checked_add(*b)?;
                *c = self.marks.checked_add(*c)?;
            }
            Kind::Send => {
                *a = self.mark(*a)?;
                *b = self.mark(*b)?;
                *c = self.values.checked_add(*c)?;
            }
            Kind::Call => {
                *a = self.mark(*a)?;
                *b = self.calls.checked_add(*b)?;
                *c = self.called.checked_add(*c)?;
            }
            Kind::Return => {
                *a = self.calls.checked_add(*a)?;
                *b = self.mark(*b)?;
                *c = self.values.checked_add(*c)?;
            }
            Kind::ReturnHalt => *a = self.calls.checked_add(*a)?,
            Kind::Bind => {
                *a = self.mark(*a)?;
                *b = self.cells.checked_add(*b)?;
                *c = self.values.checked_add(*c)?;
            }
            Kind::Lost => *a = self.cells.checked_add(*a)?,
            Kind::Publish => {
                *a = self.mark(*a)?;
                *c = self.values.checked_add(*c)?;
            }
            // A part that is appended has neither (`are_local`); they stay as they are.
            Kind::Tick | Kind::Cancel => {}
        }
        Some(())
    }

    // The site and arguments of a part's call, once the part's values stand behind the enclosing run's. None if a place doesn't fit 32 bits.
    #[inline(always)]
    fn called(self, called: Called) -> Option<Called>
        ensures { IfSome result (λ c. c ≡ called_by self called) }
    {
        let start = self.values.checked_add(called.start)?;
        Some(Called {
            site: called.site,
            start,
            count: called.count,
        })
    }
}

// Rewrites a part's rows for the enclosing run's numbers, each by `move_row`. None if one of them can't be rewritten; the rows before it have been by
// then.
fn move_rows(rows: &mut [Row], shift: Shift) -> Option<()>
    ensures len { length rows.new ≡ length rows.old }
    ensures moved { OnSome result (rows.new ≡ map (row_by shift) rows.old) }
    ensures movable { OnSome result (All IsMovable rows.old) }
{
    for row in rows.iter_mut() {
        shift.move_row(row)?;
    }
    Some(())
}

// Adds a part's rows at the end, rewritten for the enclosing run's numbers. Gives whether each could be rewritten; if not, or if memory is refused,
// nothing changes.
fn push_rows(rows: &mut Vec<Row>, part: &[Row], shift: Shift) -> Result<bool, AllocError>
    ensures added { IfOk result (λ fit. fit ≡ true → rows.new.items ≡ rows.old.items ++ map (row_by shift) part.now) }
    ensures movable { IfOk result (λ fit. fit ≡ true → All IsMovable part.now) }
    ensures unfit { IfOk result (λ fit. fit ≡ false → rows.new.items ≡ rows.old.items) }
    ensures refused { OnErr result (rows.new.items ≡ rows.old.items) }
{
    let len = rows.len();
    rows.extend_from_slice(part)?;
    let moved = move_rows(&mut rows[len..], shift);
    if moved.is_none() {
        rows.truncate(len);
        return Ok(false);
    }
    Ok(true)
}

// Adds what a part's calls have, for which there must be room, with the places of their arguments moved. Gives whether all of these places fit 32
// bits; if not, nothing changes.
fn push_calls(calls: &mut Vec<Called>, part: &[Called], shift: Shift) -> bool
    requires room { vec_len calls.old + length part.now ≤ vec_capacity calls.old }
    ensures added { result ≡ true → calls.new.items ≡ calls.old.items ++ map (called_by shift) part.now }
    ensures refused { result ≡ false → calls.new.items ≡ calls.old.items }
{
    let len = calls.len();
    for called in part {
        let Some(moved) = shift.called(*called) else {
            calls.truncate(len);
            return false;
        };
        calls.push_reserved(moved);
    }
    true
}

impl Tables {
    // What is added to the numbers of a part's journal when it goes to the end of these tables. None if one of these numbers doesn't fit 32 bits, or
    // the part has a wide row.
    fn shift(&self, part: &Tables, numbering: Numbering) -> Option<Shift>
        ensures { IfSome result (λ s. Shifts self.now part.now numbering s) }
    {
        if part.wides.len() > 0 {
            return None;
        }
        // A part's own marks behind mark 1 begin with 2, which becomes `numbering.mark`.
        let before = numbering.mark.checked_sub(2)?;
        Some(Shift {
            token: short(numbering.token)?,
            marks: short(before)?,
            calls: short(numbering.calls)?,
            cells: short(numbering.cells)?,
            values: short(self.values.len() as u64)?,
            called: short(self.calls.len() as u64)?,
        })
    }

    // Adds a part's values and calls behind the others. Gives whether the places of all arguments fit 32 bits. The error is refused memory. In each
    // case the rows so far stand for what they did.
    fn append(&mut self, part: &Tables, shift: Shift) -> Result<bool, AllocError>
        ensures kept { Keeps self.old self.new }
        ensures added { IfOk result (λ fit. fit ≡ true → self.new ≡ grown self.old part.now.values (map (called_by shift) part.now.calls) []) }
    {
        // Room for all calls, which `push_calls` then adds without a test.
        self.calls.try_reserve(part.calls.len())?;
        if !push_calls(&mut self.calls, &part.calls, shift) {
            return Ok(false);
        }
        self.values.extend_from_slice(&part.values)?;
        Ok(true)
    }
}

impl Journal {
    // Adds a part's entries by moving its rows. Gives whether all of them have narrow rows, in the part and here. If not, or if memory is refused,
    // the entries stay as they were; values and calls of the part may be left in the tables, which no row names.
    pub(crate) fn push_shifted(
        &mut self,
        part: &Journal,
        numbering: Numbering,
    ) -> Result<bool, AllocError>
        ensures added { IfOk result (λ fit. fit ≡ true → self.new ≡ journal_with self.old (map (moved numbering) part.now.entries)) }
        ensures unfit { IfOk result (λ fit. fit ≡ false → self.new ≡ self.old) }
        ensures refused { OnErr result (self.new ≡ self.old) }
    {
        let Some(shift) = self.tables.shift(&part.tables, numbering) else {
            // The part has a wide row, or a number that is added doesn't fit 32 bits.
            return Ok(false);
        };
        if !self.tables.append(&part.tables, shift)? {
            // The place of some call's arguments doesn't fit 32 bits.
            return Ok(false);
        }
        push_rows(&mut self.rows, &part.rows, shift)
    }
}
