//! Groups that halt: no token, no pending call and no other group is in them any more. A *group* is what runs in the right side of an `f <x< g`,
//! whose *cell* stands for x and is *void* once no value can come any more, or in the left side of an *otherwise*, an `f ; g`, whose number is the
//! mark of the token that entered it. A *step* is the entry into such a side, or into the left side of a `>x>`; `group.outer` is the number of the
//! innermost step around the whole `f <x< g` or `f ; g`, 0 for none. `P` names the run: `P.listing` is its program, where `code` gives the term of a
//! node.

ghost use Rattle.std.specs.Prelude.{◌≡◌, Some, IfOk, OnOk, OnErr, IfErr, MatchOption};
ghost use Rattle.orc_rules.specs.Nodes.{code};
ghost use Rattle.orc_rules.specs.Timed.{IsIn};
ghost use Rattle.orc_tables.specs.Steps.{group_at};
ghost use Rattle.orc_frames.specs.Paths.{has_published};
ghost use Rattle.orc_ledger_spec.specs.Halting.{HasHalted, IsHinderedAt};
ghost use Rattle.orc_tables.specs.declared.records.Group.{Group as Its};
ghost use Rattle.orc_ledger.specs.Others.{KeepsAll};

use crate::ledger::Ledger;
use orc_frames::{has_published, published_at};
use orc_ledger_spec::{HaltFault, Halted};
use orc_log::Run;
use orc_tables::{Call, Group, Side, Token};

impl<P: Run> Ledger<P> {
    /// The open group with this number: a right side of a `<x<` or a left side of a `;` that runs. None if no open group has this number (the
    /// program's own, 0, isn't one).
    pub fn group_with(&self, number: u32) -> Option<Group>
        ensures { MatchOption result ((g : Its) → IsIn g self.now.groups → g.number ≡ number → ⊥) (λ g. IsIn g self.now.groups × (g.number ≡ number)) }
    {
        self.groups.get(number)
    }

    // The number of the group around a group: the next right side of a `<x<` or left side of a `;` outwards, or 0, the whole program.
    fn parent_of(&self, group: Group) -> u32
        ensures { result ≡ group_at self.now.steps group.outer }
    {
        self.steps.group_at(group.outer)
    }

    // Whether the left side of the otherwise (`f ; g`) with the number `number` has published: g never runs then. `group` is the number of the group
    // that this left side is.
    fn other_has_published(&self, group: u32, number: u64) -> bool
        ensures { result ≡ has_published self.now.steps number }
    {
        // The hint is the number of the step that entered the left side, so one look tells. None if the hint is wrong: then `has_published` looks at
        // each step.
        match published_at(&self.steps, self.groups.hint(group), number) {
            Some(published) => published,
            None => has_published(&self.steps, number),
        }
    }

    /// Ends the group with this number, which has no member: no token, no pending call and no inner group. If it is a right side of a `<x<`, it is
    /// lost: its cell becomes void. If it is the left side of an otherwise, the right side starts, unless the left side has published: then the group
    /// goes without an entry. Each token stays in its slot. The answer is `Lost` with the cell and the group around, `Resumed` with the slot of the
    /// token on the right side, or `Closed` with the group around. Gone if no open group has this number (the program's own, 0, isn't one), Live if
    /// the group has members, Refused with the ledger's fault if the group's entry is refused. A group that is refused stays.
    pub fn halt(&mut self, number: u32) -> Result<Halted, HaltFault>
        ensures done { IfOk result (λ h. HasHalted (code P.listing) self.old self.new number h) }
        ensures others { OnOk result (KeepsAll self.old.slots self.new.slots) }
        ensures refused { OnErr result (self.new ≡ self.old) }
        ensures why { IfErr result (λ fault. IsHinderedAt self.old number fault) }
    {
        let group = match self.group_with(number) {
            Some(group) => group,
            None => return Err(HaltFault::Gone),
        };
        if !self.is_empty(number) {
            return Err(HaltFault::Live);
        }
        // The answer names the group around this one, which may have no member any more.
        let parent = self.parent_of(group);
        match group.side {
            Side::Right(cell) => match self.lost(group, cell) {
                Ok(()) => Ok(Halted::Lost(cell, parent)),
                Err(fault) => Err(HaltFault::Refused(fault)),
            },
            Side::Left(other, node, scope) => {
                // The left side has published: the right side never runs.
                if self.other_has_published(number, other) {
                    self.close(group);
                    return Ok(Halted::Closed(parent));
                }
                match self.right(group, other, node, scope) {
                    Ok(slot) => Ok(Halted::Resumed(slot)),
                    Err(fault) => Err(HaltFault::Refused(fault)),
                }
            }
        }
    }

    /// The number of the group in which a call pends: the innermost right side of a `<x<` or left side of a `;` around the call; 0 is the program's
    /// own group.
    pub fn group_of_call(&self, call: &Call) -> u32
        ensures { result ≡ group_at self.now.steps call.now.step }
    {
        self.steps.group_at(call.step)
    }

    /// The number of the group in which a token stands: the innermost right side of a `<x<` or left side of a `;` around the token; 0 is the
    /// program's own group.
    pub fn group_of_token(&self, token: &Token) -> u32
        ensures { result ≡ group_at self.now.steps token.now.step }
    {
        self.steps.group_at(token.step)
    }
}
