//! The labels that entries show: what can be seen of a step from outside. In entries s is a *mark* (the number of a token), k a call, c a cell, v a
//! value. A *cell* stands for the variable x of an opened `f <x< g` (a *pruning*), whose right side is g; it is *bound* to the first value that g
//! publishes, or *lost* if g halts without one. The *marked term* is what is left of the program's term after the entries before.
//!
//! In contracts `Spells x code m p` says that the marked term m stands at the place p of a journal.

ghost use Rattle.std.specs.Prelude.{◌≡◌, ◌++◌, List, IfOk, OnOk, OnErr};
ghost use Rattle.orc_rules.specs.Journal.{Place};
ghost use Rattle.orc_rules.specs.Nodes.{Listing, code};
ghost use Rattle.orc_rules.specs.Timed.{Context};
ghost use Rattle.orc_checker.specs.Checker.{Spells};
ghost use Rattle.orc_checker.specs.Labelling.{cell_above, AreAround, IsLabel, Shows, StandsInside};

use crate::marked::Marked;
use orc_rules::answers::Answers;
use orc_rules::entry::{Entry, Label, RuleFault};
use orc_rules::program::Program;
use orc_rules::value::Answer;
use orc_term::arena::{Double, Kind};
use orc_term::nodes::Nodes;
use std::alloc::{AllocError, Global};

/// `above` is the kind of the node above the node at `place`. If it is an opened pruning that has the node at `place` as its right side, adds the
/// pruning's cell to `cells`. The error is refused memory.
fn push_cell(cells: &mut Vec<u64>, above: Kind, place: u32) -> Result<(), AllocError>
    ensures { OnOk result (cells.new.items ≡ cells.old.items ++ cell_above above place) }
{
    if let Kind::Two(double, left, _) = above {
        if let Double::Side(cell) = double {
            // A pruning has two parts, so one that isn't its left side is its right side.
            if left != place {
                cells.push(cell)?;
            }
        }
    }
    Ok(())
}

/// The cells of the prunings that have node `from` of the marked term in their right sides, the outermost first. The error is refused memory.
fn cells_around(alloc: Global, nodes: &Nodes, from: u32) -> Result<Vec<u64>, AllocError>
    ensures { IfOk result (λ cells. AreAround nodes.now.items from cells.items) }
{
    let mut cells = Vec::new(alloc);
    let mut place = from;
    // Each step goes from the node at `place` to the one above. The bound shows that the loop ends.
    for _steps in 0..nodes.len() {
        // Node 0 is the top. The cells were found from the innermost pruning outwards.
        if place == 0 {
            cells.reverse();
            return Ok(cells);
        }
        let parent = nodes.node_at(place as usize).parent;
        let above = nodes.node_at(parent as usize).kind;
        push_cell(&mut cells, above, place)?;
        place = parent;
    }
    // Not reached: the way up to node 0 has fewer steps than there are nodes.
    Err(AllocError)
}

impl Marked {
    /// The cells of the prunings that have token `s` in their right sides, the outermost first. The errors: Cancel where a cancel is due, Mark where
    /// there is no such token, Memory.
    fn cells_of(&self, alloc: Global, s: u64) -> Result<Vec<u64>, RuleFault>
        ensures { IfOk result (λ cells. (x : Context) (l : Listing) (p : Place) → Spells x (code l) self.now p → StandsInside p s cells.items) }
    {
        // Where token `s` stands: `at` is its node in the marked term.
        let holder = self.holder(s)?;
        match cells_around(alloc, &self.nodes, holder.at) {
            Ok(cells) => Ok(cells),
            Err(_) => Err(RuleFault::Memory),
        }
    }

    /// The label of an entry, which is what those outside see of the step (`Silent`: a rule was used, but nothing can be seen of it), whether the
    /// entry is allowed or not. None for a move of marks (`end`, `fork`, `seq`, `other`), which uses no rule of Orc, or a tick. Only a `call` has
    /// errors: Cancel where a cancel is due, Mark where there is no such token, Memory.
    fn label(&self, alloc: Global, entry: &Entry) -> Result<Option<Label>, RuleFault>
        ensures { IfOk result (λ label. (x : Context) (l : Listing) (p : Place) → Spells x (code l) self.now p → IsLabel p entry.now label) }
    {
        match entry {
            Entry::End(_) => Ok(None),
            Entry::Fork(_, _, _) => Ok(None),
            Entry::Seq(_, _) => Ok(None),
            Entry::Other(_, _) => Ok(None),
            Entry::Tick(_) => Ok(None),
            Entry::Def(_, _) => Ok(Some(Label::Silent)),
            Entry::Void(_) => Ok(Some(Label::Silent)),
            Entry::Open(_, _, _, _) => Ok(Some(Label::Silent)),
            Entry::Send(_, _, _) => Ok(Some(Label::Silent)),
            Entry::Right(_, _) => Ok(Some(Label::Silent)),
            Entry::Return(k, _, v) => Ok(Some(Label::Return(*k, Answer::Value(*v)))),
            Entry::ReturnHalt(k) => Ok(Some(Label::Return(*k, Answer::Halt))),
            Entry::Bind(_, c, v) => Ok(Some(Label::Bind(*c, *v))),
            Entry::Lost(c) => Ok(Some(Label::Lost(*c))),
            Entry::Publish(_, v) => Ok(Some(Label::Publish(*v))),
            Entry::Cancel(k) => Ok(Some(Label::Cancel(*k))),
            Entry::Call(s, k, site, args) => {
                // A call's label has the cells of the prunings that have the call in their right sides: when one of them is bound, the call is
                // dropped.
                let cells = self.cells_of(alloc, *s)?;
                Ok(Some(Label::Call(*k, *site, args.copied(), cells)))
            }
        }
    }

    /// Applies one entry and gives its label, which is what those outside see of the step; None for a move of marks (`end`, `fork`, `seq`, `other`)
    /// or a tick. `answers` is the table of what sites answer. After a RuleFault nothing has changed. Each fault but Memory names a condition that
    /// the entry breaks, not always the first such one, as with `step`.
    pub fn apply(
        &mut self,
        alloc: Global,
        program: &Program,
        answers: &Answers,
        entry: &Entry,
    ) -> Result<Option<Label>, RuleFault>
        ensures done { IfOk result (λ label. Shows program.now answers.now entry.now self.old self.new label) }
        ensures refused { OnErr result (self.new ≡ self.old) }
    {
        // The label comes first, since the entry uses up the token whose place a call's label needs.
        let label = self.label(alloc, entry)?;
        self.step(program, answers, entry)?;
        Ok(label)
    }
}
