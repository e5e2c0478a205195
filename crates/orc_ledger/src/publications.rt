//! What a token publishes: a publication of the program, or what a `>x>` takes. A *token* marks a part of the program's term that runs, in a *slot*
//! of the table of tokens. A *step* is the entry into the right side of a `<x<`, or into the left side of a `;` or a `>x>`; a token has the number of
//! the innermost one around it, 0 for none. A *scope* says by number what names stand for. A *cell* stands for the x of an opened `f <x< g`.
//!
//! In contracts a path is what is around a token, the innermost first: `feeding` is the left side of a `>x>`, `aiding` the right side of a cell,
//! `trying` the left side of an otherwise, and `whole` nothing. `crossed` are the otherwises that a publication passes.
//!
//! Of the clauses `takes` says what takes the value, `way` that this is around the token, `fits` that it is there, `held` says that the token is in
//! the slot, `at` or `form` what it is on, `done` what becomes of the records, `others` which tokens stay in their slots, `refused` that a refused
//! call changes nothing, and `why` its cause.
//!
//! `within(t, g, d)` asks whether the limits allow an entry that brings t tokens and g groups more, and a token inside d left sides of a `>x>` (0
//! where it enters none). `IsRefused` has the same three numbers. Full means that the tokens with the pending calls, the groups, or the left sides of
//! a `>x>` around one token would be too many, Limit that the journal has as many entries as it may, Memory that memory was refused. `P` names the
//! run: `P.listing` is its program, where `code` gives the term of a node.

ghost use Rattle.std.specs.Prelude.{◌≡◌, ◌+◌, ◌<◌, ◌≤◌, ◌∷◌, [], ℕ, length, IfOk, IfErr, OnOk, OnErr};
ghost use Rattle.orc_rules.specs.Nodes.{code};
ghost use Rattle.orc_rules.specs.Term.{param};
ghost use Rattle.orc_rules.specs.declared.param.Param.TheVariants.{Is};
ghost use Rattle.orc_rules.specs.declared.entry.Entry.TheVariants.{Send, Publish};
ghost use Rattle.orc_env.specs.Scopes.{close, without};
ghost use Rattle.orc_frames.specs.Spelling.{whole, feeding};
ghost use Rattle.orc_tables.specs.Tokens.{IsHeld};
ghost use Rattle.orc_frames.specs.Taking.{taker, crossed, reach};
ghost use Rattle.orc_ledger_spec.specs.Records.{its_env, its_path};
ghost use Rattle.orc_frames.specs.Paths.{standing};
ghost use Rattle.orc_ledger_spec.specs.Calls.{Crosses, IsRefused};
ghost use Rattle.orc_tables.specs.declared.records.Standing.TheVariants.{At};
ghost use Rattle.orc_ledger.specs.Others.{KeepsOthers};

use crate::ledger::{Ledger, write};
use orc_env::{Bound, Scope, StoredScope, outer_number};
use orc_frames::leave_others;
use orc_indexes::{push_within, reserve};
use orc_ledger_spec::LedgerFault;
use orc_log::Run;
use orc_rules::entry::Entry;
use orc_rules::value::Value;
use orc_tables::{Standing, Token};

impl<P: Run> Ledger<P> {
    /// A publication of the program: nothing around the token takes the value, as the clause `takes` asks. `slot` is the token's slot. The token
    /// ends, and the otherwises (`f ; g`) in whose left sides the token is have published: their right sides never run. Full, Limit or Memory where
    /// the entry is refused; nothing has changed then. Tokens in other slots stay there.
    #[inline(always)]
    pub fn publish(&mut self, slot: usize, token: Token, value: Value) -> Result<(), LedgerFault>
        requires held { IsHeld self.old.slots slot token }
        requires form { standing (code P.listing) (its_env (code P.listing) self.old) token.standing ≡ param (Is value) }
        requires takes { taker (its_path (code P.listing) self.old token.step) ≡ whole }
        ensures done { IfOk result (λ _. Crosses self.old self.new token [] [] (crossed (its_path (code P.listing) self.old token.step)) (Publish token.serial value)) }
        ensures others { OnOk result (KeepsOthers self.old.slots slot self.new.slots) }
        ensures refused { OnErr result (self.new ≡ self.old) }
        ensures why { IfErr result (λ fault. IsRefused self.old 0 0 0 fault) }
    {
        // The token goes: no token and no group comes, and no left side of a `>x>` is entered.
        self.within(0, 0, 0)?;
        // The group that the token is a member of, and leaves: the innermost right side of a `<x<` or left side of a `;` around it, or the program.
        let group = self.steps.group_at(token.step);
        write(&mut self.journal, &Entry::Publish(token.serial, value))?;
        self.entries += 1;
        // Marks the otherwises that the value passes as published: their right sides never run.
        leave_others(&mut self.steps, token.step);
        self.tokens.remove(slot);
        self.groups.leave(group);
        Ok(())
    }

    /// A `>x>` takes the value that the token publishes: a token on a copy of the `>x>`'s right side takes the slot, and the otherwises (`f ; g`)
    /// between token and `>x>` have published. `name`, `right` and `scope` are the number of x, the right side's node and the scope of that `>x>`,
    /// `outer` is the number of the step around it ([`Taker::SeqLeft`]): the entry into the side or `>x>` that is next outwards. Full, Limit or
    /// Memory where the entry is refused; nothing has changed then. Tokens in other slots stay there.
    #[inline(always)]
    pub fn send(
        &mut self,
        slot: usize,
        token: Token,
        value: Value,
        name: u32,
        right: u32,
        scope: usize,
        outer: usize,
    ) -> Result<(), LedgerFault>
        requires held { IsHeld self.old.slots slot token }
        requires form { standing (code P.listing) (its_env (code P.listing) self.old) token.standing ≡ param (Is value) }
        requires takes { taker (its_path (code P.listing) self.old token.step) ≡ feeding name (close (without name (its_env (code P.listing) self.old scope)) (code P.listing right)) (its_path (code P.listing) self.old outer) }
        requires way { (n : ℕ) × (reach self.old.steps n token.step ≡ outer) }
        requires fits { (scope ≤ length self.old.scopes) × (outer ≤ length self.old.steps) }
        ensures done { IfOk result (λ _. Crosses self.old self.new token (record { serial = self.old.next_mark; standing = At right (length self.old.scopes + 1); step = outer } ∷ []) (record { name = name; bound = Bound.Is value; outer = scope } ∷ []) (crossed (its_path (code P.listing) self.old token.step)) (Send token.serial self.old.next_mark value)) }
        ensures right { IfOk result (λ _. IsHeld self.new.slots slot (record { serial = self.old.next_mark; standing = At right (length self.old.scopes + 1); step = outer })) }
        ensures others { OnOk result (KeepsOthers self.old.slots slot self.new.slots) }
        ensures refused { OnErr result (self.new ≡ self.old) }
        ensures why { IfErr result (λ fault. IsRefused self.old 0 0 0 fault) }
    {
        // A token comes for the token, and no group. It leaves a left side of a `>x>`, and enters none.
        self.within(0, 0, 0)?;
        // The new scope extends that of the `>x>`, whose number it keeps in 32 bits. A longer number counts as refused memory.
        let extended = outer_number(scope)?;
        reserve(&mut self.scopes)?;
        // The numbers of the groups that the token leaves and joins. A group is what runs inside one right side of a `<x<`, one left side of a `;`,
        // or the program.
        let left = self.steps.group_at(token.step);
        let joined = self.steps.group_at(outer);
        // The mark by which the journal names the new token.
        let mark = self.next_mark;
        write(&mut self.journal, &Entry::Send(token.serial, mark, value))?;
        self.entries += 1;
        self.next_mark = mark + 1;
        // The two may be one group: as it is joined first, it isn't without members in between.
        self.groups.join(joined);
        self.groups.leave(left);
        // Marks the otherwises that the value passes as published: their right sides never run.
        leave_others(&mut self.steps, token.step);
        // The number of the new scope, in which x is the value: scopes count from 1.
        let inner = self.scopes.len() + 1;
        push_within(
            &mut self.scopes,
            StoredScope::new(Scope {
                name,
                bound: Bound::Is(value),
                outer: extended,
            }),
        );
        self.tokens.replace(
            slot,
            Token {
                serial: mark,
                standing: Standing::At(right, inner),
                step: outer,
            },
            joined,
        );
        Ok(())
    }
}
