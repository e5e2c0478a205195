//! The entries that are allowed at a place of a run, as an explanation shows them: the first few, and how many there are. A token's number is its
//! *mark*. A *cell* stands for the variable of an opened `<x<`. A *cancel* is due where a `bind` has dropped a pending call. A *side* is the right
//! one of an opened `<x<`, which `lost` drops once it has halted, or the left one of an entered `;`, which `right` drops.

ghost use Rattle.std.specs.Prelude.{◌≡◌, IfOk, IfSome};
ghost use Rattle.orc_rules.specs.Journal.{Place};
ghost use Rattle.orc_rules.specs.Nodes.{code, definitions};
ghost use Rattle.orc_rules.specs.Refusal.{Fits};
ghost use Rattle.orc_rules.specs.Timed.{Context};
ghost use Rattle.orc_checker.specs.Checker.{Spells};
ghost use Rattle.orc_verdict.specs.Allowed.{AreTaken};

use crate::moves::{return_entry, side_entry, token_entry};
use crate::reasons::first_reason;
use orc_checker::{Marked, Side};
use orc_rules::answers::Answers;
use orc_rules::entry::Entry;
use orc_rules::param::{Operand, Param};
use orc_rules::program::{Program, TermNode};
use orc_term::arena::{Kind, Tip};
use std::alloc::{AllocError, Global};
use std::marker::Model;

/// How many entries are kept: an explanation shows no more.
const KEPT: usize = 4;

/// The first entries that are allowed, `KEPT` at most, and how many there are with those that aren't kept.
#[derive(Drop)]
pub struct Allowed {
    // The first `KEPT` entries.
    first: Vec<Entry>,
    // How many there are, kept or not.
    count: u64,
}

impl Model for Allowed {
    ghost use Rattle.std.specs.Prelude.{List};
    ghost use Rattle.orc_rules.specs.declared.entry.Entry.{Entry as EntryOf};

    // Contracts see the entries that are kept.
    ghost Value = { List EntryOf };

    ghost view = { λ a. a.first.items };
}

// Those of `entries` that the rules allow at the place of `marked`: the running term with the marks of its tokens, its calls and the time. The caller
// gives allowed ones only, but its contract rests on this test alone. The error is refused memory. By `AreTaken` each that stays meets the conditions
// of all reasons.
fn taken(
    alloc: Global,
    marked: &mut Marked,
    program: &Program,
    answers: &Answers,
    entries: Vec<Entry>,
) -> Result<Vec<Entry>, AllocError>
    ensures taken { IfOk result (λ es. AreTaken program.now answers.now marked.old es.items) }
    ensures same { marked.new ≡ marked.old }
{
    let mut taken = Vec::new(alloc);
    for entry in entries {
        match first_reason(marked, program, answers, &entry) {
            // No reason refuses the entry.
            None => taken.push(entry)?,
            Some(_) => {}
        }
    }
    Ok(taken)
}

/// The entry by which the token with the mark `token` can go on; what the entry makes has the next numbers. None where there is no such token, a
/// cancel is due, or the token waits.
pub fn entry_of(marked: &Marked, program: &Program, token: u64) -> Option<Entry>
    ensures fits { IfSome result (λ e. (x : Context) (p : Place) → x.definitions ≡ definitions program.now → Spells x (code program.now) marked.now p → Fits x p e) }
{
    token_entry(marked, token, marked.next(program, token)?)
}

// Whether a call of a site with these operands can go on in the scope with this number, which says what variables mean: all are values, or one is
// void, that is, a variable whose cell was lost.
fn is_callable(marked: &Marked, operands: &[Operand], scope: usize) -> bool {
    let mut waits = false;
    for operand in operands {
        match marked.param(*operand, scope) {
            Param::Void => return true,
            Param::Is(_) => {}
            // The call waits for this one's value, unless another operand is void.
            Param::Cell(_) | Param::Name(_) => waits = true,
        }
    }
    !waits
}

// Whether the token of a node with this `kind` can go on; false where the node has none. What takes the token's publication isn't looked for:
// something always does, or the whole publishes it.
fn is_free(marked: &Marked, program: &Program, kind: Kind) -> bool {
    match kind {
        // A token on a value, which it publishes.
        Kind::Leaf(Tip::Bears(_, _)) => true,
        Kind::Leaf(Tip::Token(_, node, scope)) => match program.node(node as usize) {
            // A variable without a value lets the token wait, unless the variable is void.
            TermNode::Operand(operand) => {
                matches!(
                    marked.param(operand, scope as usize),
                    Param::Is(_) | Param::Void
                )
            }
            TermNode::Site(_, list) => {
                is_callable(marked, program.operands(list), scope as usize)
            }
            // On any other node the token can go on alone: by `end`, `def`, `fork`, `seq`, `open` or `other`.
            _ => true,
        },
        // No token: a node with parts, a pending call, or a leaf where a token has ended or that is gone.
        _ => false,
    }
}

impl Allowed {
    /// The entries that are allowed at the place to which `marked`, the running term with its numbers, was brought, in the order cancel, moves of
    /// tokens by their marks, `lost`, `right`, returns, tick. Where a cancel is due it is the only one. The error is refused memory. The term stays
    /// the same.
    pub fn new(
        alloc: Global,
        marked: &mut Marked,
        program: &Program,
        answers: &Answers,
    ) -> Result<Allowed, AllocError>
        ensures taken { IfOk result (AreTaken program.now answers.now marked.old) }
        ensures same { marked.new ≡ marked.old }
    {
        let mut allowed = Allowed {
            first: Vec::new(alloc),
            count: 0,
        };
        match marked.next_cancel() {
            Some(call) => allowed.add(Entry::Cancel(call))?,
            None => {
                allowed.add_tokens(marked, program)?;
                allowed.add_sides(marked)?;
                allowed.add_returns(marked)?;
                allowed.add_tick(marked)?;
            }
        }
        // The contract rests on this test of each entry, whatever the calls above have added.
        let Allowed { first, count } = allowed;
        let first = taken(alloc, marked, program, answers, first)?;
        Ok(Allowed { first, count })
    }

    // Counts an entry, and keeps it if there is room. The error is refused memory.
    fn add(&mut self, entry: Entry) -> Result<(), AllocError> {
        self.count = self.count.saturating_add(1);
        if self.first.len() < KEPT {
            self.first.push(entry)?;
        }
        Ok(())
    }

    // Adds the moves of tokens in the order of their marks. Of those that aren't kept it only counts the tokens that can go on. The error is refused
    // memory.
    fn add_tokens(&mut self, marked: &Marked, program: &Program) -> Result<(), AllocError> {
        // Marks count from 1, and `new_mark` is the next one: so these are all marks so far.
        for mark in 1..marked.new_mark() {
            if self.first.len() >= KEPT {
                break;
            }
            if let Some(entry) = entry_of(marked, program, mark) {
                self.add(entry)?;
            }
        }
        // The loop above may have stopped early, so the tokens are counted again by their nodes.
        self.count = 0;
        for slot in marked.nodes() {
            if is_free(marked, program, slot.node().kind) {
                self.count = self.count.saturating_add(1);
            }
        }
        Ok(())
    }

    // Adds `lost` for each cell and then `right` for each otherwise whose side has halted. The error is refused memory.
    fn add_sides(&mut self, marked: &Marked) -> Result<(), AllocError> {
        // Cells count from 1, and `new_cell` is the next one.
        for cell in 1..marked.new_cell() {
            if let Some(entry) = side_entry(marked, Side::Right(cell)) {
                self.add(entry)?;
            }
        }
        // The numbers of otherwises are marks.
        for mark in 1..marked.new_mark() {
            if let Some(entry) = side_entry(marked, Side::Left(mark)) {
                self.add(entry)?;
            }
        }
        Ok(())
    }

    // Adds the return of each call that is due now. The error is refused memory.
    fn add_returns(&mut self, marked: &Marked) -> Result<(), AllocError> {
        // Calls count from 1, and `new_call` is the next one.
        for call in 1..marked.new_call() {
            match marked.due(call) {
                Some((answer, time)) if time == marked.now() => {
                    self.add(return_entry(marked, call, answer))?;
                }
                // It doesn't pend, or isn't due now.
                _ => {}
            }
        }
        Ok(())
    }

    // Adds a tick, where nothing else can be done now. The error is refused memory.
    fn add_tick(&mut self, marked: &mut Marked) -> Result<(), AllocError>
        ensures { marked.new ≡ marked.old }
    {
        if self.count == 0 {
            if let Some(time) = marked.next_due() {
                self.add(Entry::Tick(time))?;
            }
        }
        Ok(())
    }

    /// The first entries that are allowed, `KEPT` at most.
    pub fn entries(&self) -> &[Entry]
        ensures { result.now ≡ self.now }
    {
        self.first.as_slice()
    }

    /// How many entries are allowed, with those that aren't kept. No contract covers it.
    pub fn count(&self) -> u64 {
        self.count
    }
}
