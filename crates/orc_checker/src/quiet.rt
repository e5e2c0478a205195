//! Whether something can happen, and when the next call is due. These questions leave the term as it is; they need `&mut self` since they shorten its
//! indexes. These are the sides that may have halted (`candidates`), the nodes whose tokens wait, and the due times that are noted (`due`). A *side*
//! is the right one of an opened pruning (`<x<`), or the left one of an entered otherwise (`;`). A *tick* is the entry by which the time goes on to
//! the least due time.
//!
//! `program_is_source` and `tests_are_right` show the prover laws of `orc_rules`; nothing runs.
//!
//! In contracts `Spells x code m p` says that the marked term m stands at the place p of a journal.

ghost use Rattle.std.specs.Prelude.{◌≡◌, ◌↔◌, true};
ghost use Rattle.orc_rules.specs.Idle.{can_move};
ghost use Rattle.orc_rules.specs.Journal.{Place, moment};
ghost use Rattle.orc_rules.specs.Marked.{erase};
ghost use Rattle.orc_rules.specs.Nodes.{Listing, code, definitions};
ghost use Rattle.orc_rules.specs.Pending.{IsNextDue};
ghost use Rattle.orc_rules.specs.Timed.{Context, IsQuiet};
ghost use Rattle.orc_checker.specs.Checker.{Spells};

use crate::marked::Marked;
use crate::stillness::can_some_move;
use orc_rules::laws::{program_is_source, tests_are_right};
use orc_rules::program::Program;
use orc_term::candidates::ended_side;

impl Marked {
    /// The least due time of the pending calls, in units of logical time. None where none of them is ever due.
    pub fn next_due(&mut self) -> Option<u64>
        ensures next { (x : Context) (l : Listing) (p : Place) → Spells x (code l) self.old p → IsNextDue x (moment p) result }
        ensures same { self.new ≡ self.old }
    {
        // A law that the prover is shown; nothing runs.
        program_is_source();
        self.rest.next_due(&self.nodes, &mut self.due)
    }

    /// Whether a rule of Orc that is no return of a call can be used, with the program's definitions: a side of a pruning or otherwise has halted, so
    /// that it can be dropped, or a token can move.
    pub fn can_move(&mut self, program: &Program) -> bool
        ensures moves { (x : Context) (p : Place) → x.definitions ≡ definitions program.now → Spells x (code program.now) self.old p → result ≡ can_move x.definitions (erase p.marked) }
        ensures same { self.new ≡ self.old }
    {
        // A side that has halted is dropped by a rule.
        if let Some(_) = ended_side(&self.nodes, &self.flags, &mut self.candidates) {
            return true;
        }
        // If the nodes that wait are asked again, those without a token go out of their list.
        self.nodes.tidy();
        can_some_move(
            program,
            &mut self.halts,
            &self.scopes,
            &self.cells,
            &self.nodes,
        )
    }

    /// Whether the term hasn't halted, no rule can be used, and no tick is possible, with the program's definitions.
    pub fn is_quiet(&mut self, program: &Program) -> bool
        ensures quiet { (x : Context) (p : Place) → x.definitions ≡ definitions program.now → Spells x (code program.now) self.old p → (result ≡ true) ↔ IsQuiet x (moment p) }
        ensures same { self.new ≡ self.old }
    {
        // Laws that the prover is shown; nothing runs.
        tests_are_right();
        if self.has_halted() {
            return false;
        }
        match self.next_due() {
            // The call returns at that time, or a tick leads there.
            Some(_) => false,
            None => !self.can_move(program),
        }
    }
}
