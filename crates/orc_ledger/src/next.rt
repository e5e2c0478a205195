//! What comes next in a run, where its caller has no token in mind: a token that can move, an empty group, a tick, or nothing. A *token* marks a part
//! of the program's term that runs, in a *slot* of the table of tokens. A *tick* is the entry that sets the time to the next one at which a call is
//! due. In contracts `numbers_of` says which number each group has and in which group each record is; `members` counts those of one group. `P` names
//! the run: `P.listing` is its program, where `code` gives the term of a node, and `P.sites` the table of its sites.

ghost use Rattle.std.specs.Prelude.{◌≡◌, ◌≤◌, ◌↔◌, true, false, MatchOption};
ghost use Rattle.orc_rules.specs.Nodes.{code, definitions};
ghost use Rattle.orc_frames.specs.Doing.{is_wait};
ghost use Rattle.orc_indexes.specs.Same.{only};
ghost use Rattle.orc_tables.specs.Tokens.{is_live, IsHeld};
ghost use Rattle.orc_tables.specs.declared.records.Group.{Group as Its};
ghost use Rattle.orc_ledger_spec.specs.Doing.{what_of};
ghost use Rattle.orc_ledger_spec.specs.Halting.{IsGroup};
ghost use Rattle.orc_ledger_spec.specs.Next.{numbers_of, ready, ready_one, empty_groups, open_empty, members, next_of};
ghost use Rattle.orc_ledger_spec.specs.Spoken.{spoken, IsRight};

use crate::inputs::Inputs;
use crate::ledger::Ledger;
use orc_frames::Action;
use orc_ledger_spec::Next;
use orc_log::Run;
use orc_tables::Token;

impl<P: Run> Ledger<P> {
    // Whether a slot, of which `slot` is the content, holds a token that doesn't wait. In a free slot the serial (the token's mark) is 0. `none`
    // promises of `false` that this slot adds nothing to the count of tokens that can move.
    fn can_move(&self, inputs: &Inputs<'_, P>, slot: &Token) -> bool
        ensures held { result ≡ true → 1 ≤ slot.now.serial }
        ensures moves { result ≡ true → is_wait (what_of (code P.listing) (definitions P.listing) self.now slot.now) ≡ false }
        ensures none { result ≡ false → only is_live (ready_one (code P.listing) (definitions P.listing) self.now) slot.now ≡ 0 }
    {
        if slot.serial == 0 {
            return false;
        }
        match self.what(inputs, slot) {
            Action::Wait(_) => false,
            // Every other action writes an entry.
            _ => true,
        }
    }

    /// A token that doesn't wait, with its slot. None where each token waits: the clause counts the tokens that don't (`ready`). The function looks
    /// at one token after another, and at none where all are parked: noted as ones that wait.
    pub fn movable(&self, inputs: &Inputs<'_, P>) -> Option<(usize, Token)>
        ensures { MatchOption result (ready (code P.listing) (definitions P.listing) self.now ≡ 0) (λ m. IsHeld self.now.slots m.0 m.1 × (is_wait (what_of (code P.listing) (definitions P.listing) self.now m.1) ≡ false)) }
    {
        // All tokens are parked: no search is needed.
        if self.tokens.all_wait() {
            return None;
        }
        for (slot, token) in self.tokens.slots().iter().enumerate() {
            if self.can_move(inputs, token) {
                return Some((slot, *token));
            }
        }
        None
    }

    // Whether some token doesn't wait. `ready` in the clauses is how many tokens don't.
    fn any_moves(&self, inputs: &Inputs<'_, P>) -> bool
        ensures some { result ≡ true → 1 ≤ ready (code P.listing) (definitions P.listing) self.now }
        ensures none { result ≡ false → ready (code P.listing) (definitions P.listing) self.now ≡ 0 }
    {
        // Shows the prover the invariant; nothing runs.
        let _tokens = &self.tokens;
        self.movable(inputs).is_some()
    }

    /// How many members the group with this number has: the tokens, pending calls and groups that are directly in it. A group is a right side of a
    /// `<x<` or a left side of a `;` that runs; the program's own group is number 0. A number that no group has counts none.
    pub fn member_count(&self, number: u32) -> u32
        ensures { result ≡ members (numbers_of self.now) self.now number }
    {
        self.groups.size(number)
    }

    /// Whether the group with this number has no members: no token, no pending call and no group. A group without members has halted. The program's
    /// own group is number 0.
    pub fn is_empty(&self, number: u32) -> bool
        ensures { result ≡ true ↔ (members (numbers_of self.now) self.now number ≡ 0) }
    {
        self.member_count(number) == 0
    }

    /// The number of an open group (a right side of a `<x<` or a left side of a `;`) without members, other than the program's own. None where there
    /// is no such group.
    pub fn empty_group(&self) -> Option<u32>
        ensures { MatchOption result (empty_groups (numbers_of self.now) self.now ≡ 0) (λ number. (members (numbers_of self.now) self.now number ≡ 0) × ((g : Its) × IsGroup self.now number g)) }
    {
        // The table counts the open groups without members (`empty`), so the search is made only where it finds one.
        if self.groups.empty() == 0 {
            return None;
        }
        for group in self.groups.items() {
            if self.is_empty(group.number) {
                return Some(group.number);
            }
        }
        None
    }

    // Whether the program's own group, number 0, or an open one has no members. `open_empty` in the clauses is how many these are.
    fn any_empty(&self) -> bool
        ensures some { result ≡ true → 1 ≤ open_empty (numbers_of self.now) self.now }
        ensures none { result ≡ false → open_empty (numbers_of self.now) self.now ≡ 0 }
    {
        self.is_empty(0) || self.empty_group().is_some()
    }

    // What comes next: work, a tick, or that the run is quiet. The contract says the answer as an equation (`next_of`); `next` also promises that
    // Orc's rules agree.
    fn find_next(&mut self, inputs: &Inputs<'_, P>) -> Next
        ensures is { spoken result ≡ next_of (code P.listing) (definitions P.listing) (numbers_of self.old) self.old }
        ensures same { self.new ≡ self.old }
    {
        // A token can move, or a group, perhaps the program's own, has no members.
        if self.any_moves(inputs) || self.any_empty() {
            return Next::Work;
        }
        match self.next_due() {
            // No pending call is ever due, so nothing comes any more.
            None => Next::Quiet,
            Some(time) => {
                // The earliest due time is still to come: a tick to it.
                if self.time < time {
                    Next::Ticks(time)
                } else {
                    // A call is due now.
                    Next::Work
                }
            }
        }
    }

    /// What comes next. Work where a token can move, a group (a right side of a `<x<`, a left side of a `;`, or the whole program) has no members, or
    /// a call is due; else a tick to the least due time of the pending calls; else the run is quiet. Orc's rules agree with the answer. The function
    /// may look at each token, unless all are parked (noted as ones that wait). No record changes: `&mut` is for the notes of due times, of which the
    /// function drops those whose calls are gone.
    pub fn next(&mut self, inputs: &Inputs<'_, P>) -> Next
        ensures is { spoken result ≡ next_of (code P.listing) (definitions P.listing) (numbers_of self.old) self.old }
        ensures right { IsRight P.listing P.sites self.old result }
        ensures same { self.new ≡ self.old }
    {
        // Shows the prover the invariant; nothing runs.
        let _time = &self.time;
        self.find_next(inputs)
    }
}
