//! The entries of a token that stands at a node: an end, a void token, a fork, the left side of a `>x>` and of an otherwise, a pruning. A *token*
//! marks a part of the program's term that runs, in a *slot* of the table of tokens; its *mark*, or serial, is its number in the journal. A *scope*
//! says by number what names stand for, and a *cell* stands for the x of an opened `f <x< g`. A *step* is the entry into the right side of a `<x<`,
//! or into the left side of a `;` or a `>x>`; a token has the number of the innermost one around it, 0 for none.
//!
//! Each function first asks the limits (`within`: Full or Limit) and reserves memory (Memory), and then writes its entry: once that is written,
//! nothing refuses it any more. So what is refused has changed nothing. Each takes the token that is in the slot, and the scope of its term; `left`
//! and `right` are the nodes of the term's two sides, and `name` is the number of its variable.
//!
//! Of the clauses `held` says that the token is in the slot, `at` or `form` what it is on, `done` what becomes of the records, `others` which tokens
//! stay in their slots, `refused` that a refused call changes nothing, and `why` its cause.
//!
//! `within(t, g, d)` asks whether the limits allow an entry that brings t tokens and g groups more, and a token inside d left sides of a `>x>` (0
//! where it enters none). `IsRefused` has the same three numbers. Full means that the tokens with the pending calls, the groups, or the left sides of
//! a `>x>` around one token would be too many, Limit that the journal has as many entries as it may, Memory that memory was refused. `P` names the
//! run: `P.listing` is its program, where `code` gives the term of a node.

ghost use Rattle.std.specs.Prelude.{◌≡◌, ◌+◌, ℕ, length, IfOk, IfErr, OnOk, OnErr};
ghost use Rattle.orc_rules.specs.Nodes.{code};
ghost use Rattle.orc_rules.specs.Term.{stop, par, seq, prune, other};
ghost use Rattle.orc_rules.specs.Journal.{IsVoid};
ghost use Rattle.orc_ledger_spec.specs.Records.{its_env};
ghost use Rattle.orc_frames.specs.Paths.{standing};
ghost use Rattle.orc_tables.specs.Steps.{group_at, depth_at};
ghost use Rattle.orc_tables.specs.Tokens.{IsHeld};
ghost use Rattle.orc_ledger_spec.specs.Claims.{IsBarred};
ghost use Rattle.orc_ledger_spec.specs.Calls.{IsRefused, IsFree, IsEnded, IsVoided, IsForked, IsFed, IsTried, IsOpened, born};
ghost use Rattle.orc_tables.specs.declared.records.Standing.TheVariants.{At};
ghost use Rattle.orc_ledger.specs.Others.{KeepsOthers};

use crate::claim::Claim;
use crate::ledger::{Ledger, write, write_claimed};
use orc_env::{Bound, Scope, StoredScope, outer_number};
use orc_indexes::{push_within, reserve};
use orc_ledger_spec::LedgerFault;
use orc_log::Run;
use orc_rules::entry::Entry;
use orc_rules::limits::MOST_FRAMES;
use orc_tables::{Frame, Side, Standing, Step, Token};

impl<P: Run> Ledger<P> {
    /// `stop`: the token in the slot `slot` ends, and the slot is free. Full, Limit or Memory if the entry is refused; nothing has changed then.
    /// Tokens in other slots stay there.
    pub fn end(&mut self, slot: usize, token: Token) -> Result<(), LedgerFault>
        requires held { IsHeld self.old.slots slot token }
        requires at { (node : ℕ) × (scope : ℕ) × (token.standing ≡ At node scope) × (code P.listing node ≡ stop) }
        ensures done { IfOk result (λ _. IsEnded self.old token self.new) }
        ensures others { OnOk result (KeepsOthers self.old.slots slot self.new.slots) }
        ensures refused { OnErr result (self.new ≡ self.old) }
        ensures why { IfErr result (λ fault. IsRefused self.old 0 0 0 fault) }
    {
        // No token and no group comes, and no left side of a `>x>` is entered.
        self.within(0, 0, 0)?;
        // The group that the token is a member of, and leaves: the innermost right side of a `<x<` or left side of a `;` around it, or the program.
        let group = self.steps.group_at(token.step);
        write(&mut self.journal, &Entry::End(token.serial))?;
        self.entries += 1;
        self.tokens.remove(slot);
        self.groups.leave(group);
        Ok(())
    }

    /// A void variable, or a call of a site with a void argument: the right side of the variable's `<x<` has halted without a value, and nothing can
    /// give the variable a value any more. The token in the slot `slot` ends, and the slot is free. Full, Limit or Memory if the entry is refused;
    /// nothing has changed then. Tokens in other slots stay there.
    pub fn void(&mut self, slot: usize, token: Token) -> Result<(), LedgerFault>
        requires held { IsHeld self.old.slots slot token }
        requires void { IsVoid (standing (code P.listing) (its_env (code P.listing) self.old) token.standing) }
        ensures done { IfOk result (λ _. IsVoided self.old token self.new) }
        ensures others { OnOk result (KeepsOthers self.old.slots slot self.new.slots) }
        ensures refused { OnErr result (self.new ≡ self.old) }
        ensures why { IfErr result (λ fault. IsRefused self.old 0 0 0 fault) }
    {
        // No token and no group comes, and no left side of a `>x>` is entered.
        self.within(0, 0, 0)?;
        // The group that the token is a member of, and leaves: the innermost right side of a `<x<` or left side of a `;` around it, or the program.
        let group = self.steps.group_at(token.step);
        write(&mut self.journal, &Entry::Void(token.serial))?;
        self.entries += 1;
        self.tokens.remove(slot);
        self.groups.leave(group);
        Ok(())
    }

    /// `f | g`: a token on each side, the left one in the same slot. `left` and `right` are the nodes of f and g, `scope` is the scope of the whole
    /// term. Gives the slot of the token on g. Full, Limit or Memory if the entry is refused; nothing has changed then. Tokens in other slots stay
    /// there.
    #[inline(always)]
    pub fn fork(
        &mut self,
        slot: usize,
        token: Token,
        scope: usize,
        left: u32,
        right: u32,
    ) -> Result<usize, LedgerFault>
        requires held { IsHeld self.old.slots slot token }
        requires at { (node : ℕ) × (token.standing ≡ At node scope) × (code P.listing node ≡ par (code P.listing left) (code P.listing right)) }
        ensures done { IfOk result (λ _. IsForked self.old token scope left right self.new) }
        ensures left { IfOk result (λ _. IsHeld self.new.slots slot (born self.old token self.old.next_mark left scope token.step)) }
        ensures right { IfOk result (λ other. IsHeld self.new.slots other (born self.old token (self.old.next_mark + 1) right scope token.step)) }
        ensures others { OnOk result (KeepsOthers self.old.slots slot self.new.slots) }
        ensures refused { OnErr result (self.new ≡ self.old) }
        ensures why { IfErr result (λ fault. IsRefused self.old 1 0 0 fault) }
    {
        // Two tokens come for one.
        self.within(1, 0, 0)?;
        // Makes room for the token on g; that on f uses the old slot.
        self.tokens.reserve()?;
        // The group that the token is a member of: the innermost right side of a `<x<` or left side of a `;` around it, or the program.
        let group = self.steps.group_at(token.step);
        // The mark by which the journal names the token on f; the token on g has the next one.
        let mark = self.next_mark;
        write(
            &mut self.journal,
            &Entry::Fork(token.serial, mark, mark + 1),
        )?;
        self.entries += 1;
        self.next_mark = mark + 2;
        // One token of the group becomes two: the group has one member more.
        self.groups.join(group);
        self.tokens.replace(
            slot,
            Token {
                serial: mark,
                standing: Standing::At(left, scope),
                step: token.step,
            },
            group,
        );
        let other = self.tokens.add(
            Token {
                serial: mark + 1,
                standing: Standing::At(right, scope),
                step: token.step,
            },
            group,
        );
        Ok(other)
    }

    /// `f >x> g`: a token on the left side, in the same slot. A new step says that the token is inside this left side. `left` and `right` are the
    /// nodes of f and g, `name` is the number of x, `scope` the scope of the whole term. Full, Limit or Memory if the entry is refused; nothing has
    /// changed then. Tokens in other slots stay there.
    #[inline(always)]
    pub fn feed(
        &mut self,
        slot: usize,
        token: Token,
        scope: usize,
        left: u32,
        name: u32,
        right: u32,
    ) -> Result<(), LedgerFault>
        requires held { IsHeld self.old.slots slot token }
        requires at { (node : ℕ) × (token.standing ≡ At node scope) × (code P.listing node ≡ seq (code P.listing left) name (code P.listing right)) }
        ensures done { IfOk result (λ _. IsFed self.old token scope left name right self.new) }
        ensures left { IfOk result (λ _. IsHeld self.new.slots slot (born self.old token self.old.next_mark left scope (length self.old.steps + 1))) }
        ensures others { OnOk result (KeepsOthers self.old.slots slot self.new.slots) }
        ensures refused { OnErr result (self.new ≡ self.old) }
        ensures why { IfErr result (λ fault. IsRefused self.old 0 0 (depth_at self.old.steps token.step + 1) fault) }
    {
        // A left side of a `>x>` is no group: the new token is in the group of the old one.
        let group = self.steps.group_at(token.step);
        // In how many left sides of a `>x>` the token is, out to the innermost right side of a `<x<`.
        let depth = self.steps.depth_at(token.step);
        // Asked before `within`, so that `depth + 1` doesn't overflow.
        if depth as usize >= MOST_FRAMES {
            return Err(LedgerFault::Full);
        }
        // The new token is inside one left side of a `>x>` more.
        self.within(0, 0, depth + 1)?;
        // Makes room for the step into the left side.
        self.steps.reserve()?;
        // The mark by which the journal names the token on f.
        let mark = self.next_mark;
        write(&mut self.journal, &Entry::Seq(token.serial, mark))?;
        self.entries += 1;
        self.next_mark = mark + 1;
        // The number of the step that is added next: steps count from 1.
        let step = self.steps.len() + 1;
        self.steps.push(Step {
            // The left side of a `>x>`: the number of x, the node of g and the scope for it, once a value comes.
            entered: Frame::SeqLeft(name, right, scope),
            outer: token.step,
            group,
            depth: depth + 1,
            published: false,
        });
        self.tokens.replace(
            slot,
            Token {
                serial: mark,
                standing: Standing::At(left, scope),
                step,
            },
            group,
        );
        Ok(())
    }

    /// `f ; g`: a token on the left side, in the same slot. The left side is a new group: what runs in it, and ends as a whole. `left` and `right`
    /// are the nodes of f and g, `scope` is the scope of the whole term. The claim (what another worker may have won first) is asked last. Full,
    /// Limit or Memory if the entry is refused, Unclaimed if the claim is lost; nothing has changed then. Tokens in other slots stay there.
    pub fn other<C: Claim>(
        &mut self,
        slot: usize,
        token: Token,
        scope: usize,
        left: u32,
        right: u32,
        claim: &mut C,
    ) -> Result<(), LedgerFault>
        requires held { IsHeld self.old.slots slot token }
        requires at { (node : ℕ) × (token.standing ≡ At node scope) × (code P.listing node ≡ other (code P.listing left) (code P.listing right)) }
        ensures done { IfOk result (λ _. (number : ℕ) × IsFree self.old number × IsTried self.old token scope left right number self.new) }
        ensures left { IfOk result (λ _. IsHeld self.new.slots slot (born self.old token self.old.next_mark left scope (length self.old.steps + 1))) }
        ensures got { OnOk result (C.got claim.old claim.new) }
        ensures others { OnOk result (KeepsOthers self.old.slots slot self.new.slots) }
        ensures refused { OnErr result (self.new ≡ self.old) }
        ensures why { IfErr result (λ fault. IsBarred (claim.new ≡ claim.old) (C.lost claim.old claim.new) (IsRefused self.old 0 1 0) fault) }
    {
        // A token comes for the token, and a group is opened.
        self.within(0, 1, 0)?;
        // Room for the step into the left side, and for the group that the left side is.
        self.steps.reserve()?;
        self.groups.reserve()?;
        // In how many left sides of a `>x>` the token is, out to the innermost right side of a `<x<`: a `;` adds none.
        let depth = self.steps.depth_at(token.step);
        // The mark by which the journal names the token on f.
        let mark = self.next_mark;
        write_claimed(&mut self.journal, &Entry::Other(token.serial, mark), claim)?;
        self.entries += 1;
        self.next_mark = mark + 1;
        // The number of the step that is added below: steps count from 1.
        let step = self.steps.len() + 1;
        // The number of the group that the token is in, around the whole `f ; g`.
        let parent = self.steps.group_at(token.step);
        // The group around the otherwise loses the token and gets the new group: it has as many members as before. The old token's mark becomes the
        // number of the otherwise, by which the journal and the step name it.
        let number = self.groups.open(
            Side::Left(token.serial, right, scope),
            token.step,
            step,
            parent,
        );
        // The new group's first member is the token on the left side.
        self.groups.join(number);
        self.steps.push(Step {
            entered: Frame::OtherwiseLeft(token.serial),
            outer: token.step,
            group: number,
            depth,
            published: false,
        });
        self.tokens.replace(
            slot,
            Token {
                serial: mark,
                standing: Standing::At(left, scope),
                step,
            },
            number,
        );
        Ok(())
    }

    /// `f <x< g`: a token on each side, that on f in the same slot. A new cell stands for x in f. The right side is a new group: what runs in it, and
    /// ends as a whole. `left` and `right` are the nodes of f and g, `name` is the number of x, `scope` the scope of the whole term. Gives the slot
    /// of the token on g. The claim (what another worker may have won first) is asked last. Full, Limit or Memory if the entry is refused, Unclaimed
    /// if the claim is lost; nothing has changed then. Tokens in other slots stay there.
    pub fn prune<C: Claim>(
        &mut self,
        slot: usize,
        token: Token,
        scope: usize,
        left: u32,
        name: u32,
        right: u32,
        claim: &mut C,
    ) -> Result<usize, LedgerFault>
        requires held { IsHeld self.old.slots slot token }
        requires at { (node : ℕ) × (token.standing ≡ At node scope) × (code P.listing node ≡ prune (code P.listing left) name (code P.listing right)) }
        ensures done { IfOk result (λ _. (number : ℕ) × IsFree self.old number × IsOpened self.old token scope left name right number self.new) }
        ensures left { IfOk result (λ _. IsHeld self.new.slots slot (born self.old token self.old.next_mark left (length self.old.scopes + 1) token.step)) }
        ensures right { IfOk result (λ other. IsHeld self.new.slots other (born self.old token (self.old.next_mark + 1) right scope (length self.old.steps + 1))) }
        ensures got { OnOk result (C.got claim.old claim.new) }
        ensures others { OnOk result (KeepsOthers self.old.slots slot self.new.slots) }
        ensures refused { OnErr result (self.new ≡ self.old) }
        ensures why { IfErr result (λ fault. IsBarred (claim.new ≡ claim.old) (C.lost claim.old claim.new) (IsRefused self.old 1 1 0) fault) }
    {
        // Two tokens come for one, and a group is opened.
        self.within(1, 1, 0)?;
        // A scope keeps the number of the one that it extends in 32 bits. A longer number counts as refused memory.
        let outer = outer_number(scope)?;
        // Room for the token on g, the scope of f, the step into g, the cell and the group: once the entry is written, only the claim can be lost.
        self.tokens.reserve()?;
        reserve(&mut self.scopes)?;
        self.steps.reserve()?;
        reserve(&mut self.cells)?;
        self.groups.reserve()?;
        // The number of the group that the token is in, around the whole `f <x< g`.
        let parent = self.steps.group_at(token.step);
        // The mark by which the journal names the token on f; the token on g has the next one.
        let mark = self.next_mark;
        // The number of the new cell: cells count from 1, since item 0 of `cells` is no cell.
        let cell = self.cells.len() as u64;
        write_claimed(
            &mut self.journal,
            &Entry::Open(token.serial, cell, mark, mark + 1),
            claim,
        )?;
        self.entries += 1;
        self.next_mark = mark + 2;
        // The numbers of f's scope and of the step into g, which are added below.
        let inner = self.scopes.len() + 1;
        let step = self.steps.len() + 1;
        // The number of the right side's group.
        let number = self
            .groups
            .open(Side::Right(cell), token.step, step, parent);
        // The parent keeps one token, on the left side, and gets the group, whose first member is the token on the right side.
        self.groups.join(parent);
        self.groups.join(number);
        // In the scope of f the name x is the new cell.
        push_within(
            &mut self.scopes,
            StoredScope::new(Scope {
                name,
                bound: Bound::Cell(cell),
                outer,
            }),
        );
        self.steps.push(Step {
            entered: Frame::PruneRight(cell),
            outer: token.step,
            group: number,
            // Left sides of a `>x>` outside a right side don't count in it.
            depth: 0,
            published: false,
        });
        // The cell stands for itself: it has no value yet.
        push_within(&mut self.cells, Bound::Cell(cell));
        self.tokens.replace(
            slot,
            Token {
                serial: mark,
                standing: Standing::At(left, inner),
                step: token.step,
            },
            parent,
        );
        let other = self.tokens.add(
            Token {
                serial: mark + 1,
                standing: Standing::At(right, scope),
                step,
            },
            number,
        );
        Ok(other)
    }
}
