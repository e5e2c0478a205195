//! Calls of definitions. A *token* marks a part of the program's term that runs: it is in a *slot* of the table of tokens, and its step is the
//! innermost entry around it into the right side of a `<x<`, or into the left side of a `;` or a `>x>`, 0 for none. A *scope* binds one name, and
//! extends another scope; scope 0 has no names. `self.cells` says by number what each cell, which stands for the x of an opened `f <x< g`, has
//! become. An operand is a name or a value.
//!
//! Of the clauses `held` says that the token is in the slot, `at` what it is on, `done` what becomes of the records, `undone` why the call isn't
//! made, `others` which tokens stay in their slots, `refused` that a refused call changes nothing, and `why` its cause.
//!
//! `within(t, g, d)` asks whether the limits allow an entry that brings t tokens and g groups more, and a token inside d left sides of a `>x>` (0
//! where it enters none). `IsRefused` has the same three numbers. Full means that the tokens with the pending calls, the groups, or the left sides of
//! a `>x>` around one token would be too many, Limit that the journal has as many entries as it may, Memory that memory was refused. `P` names the
//! run: `P.listing` is its program, where `code` gives the term of a node.

ghost use Rattle.std.specs.Prelude.{◌≡◌, ◌+◌, ◌≤◌, ◌++◌, [], ℕ, true, false, length, map, vec_len, vec_capacity, slice_index_or, IfOk, IfErr, OnErr, OnOk};
ghost use Rattle.orc_rules.specs.Nodes.{code, param_of};
ghost use Rattle.orc_rules.specs.Term.{call};
ghost use Rattle.orc_ledger_spec.specs.Calls.{IsRefused};
ghost use Rattle.orc_tables.specs.Tokens.{IsHeld};
ghost use Rattle.orc_ledger_spec.specs.Parameters.{IsCalled, IsUndone};
ghost use Rattle.orc_tables.specs.declared.records.Standing.TheVariants.{At};
ghost use Rattle.orc_tables.specs.declared.records.Token.{Token as Its};
ghost use Rattle.orc_ledger.specs.Others.{KeepsOthers};

use crate::inputs::Inputs;
use crate::ledger::{Ledger, write};
use orc_env::StoredScope;
use orc_frames::parameter_scopes;
use orc_ledger_spec::LedgerFault;
use orc_log::Run;
use orc_rules::entry::Entry;
use orc_tables::{Standing, Token};

// Makes room for `count` more scopes, so that they can be added once the entry is written, when nothing may be refused any more. The scopes stay as
// they are. The only fault is `Memory`.
fn reserve_scopes(scopes: &mut Vec<StoredScope>, count: usize) -> Result<(), LedgerFault>
    ensures items { scopes.new.items ≡ scopes.old.items }
    ensures room { OnOk result (vec_len scopes.new + count ≤ vec_capacity scopes.new) }
    ensures why { IfErr result (λ fault. fault ≡ LedgerFault.Memory) }
{
    match scopes.reserve(count) {
        Ok(()) => Ok(()),
        Err(_) => Err(LedgerFault::Memory),
    }
}

// Adds the scopes `more` behind those in `scopes`, in their order. `reserve_scopes` has made the room that the clause asks.
fn extend_within(scopes: &mut Vec<StoredScope>, more: &[StoredScope])
    requires { vec_len scopes.old + length more.now ≤ vec_capacity scopes.old }
    ensures { scopes.new.items ≡ scopes.old.items ++ more.now }
{
    // A definition without parameters adds no scope.
    if more.is_empty() {
        return;
    }
    // There is room, so memory isn't refused: the prover shows that the answer is Ok.
    let added = scopes.extend_from_slice(more);
    prove!(added.is_ok());
}

impl<P: Run> Ledger<P> {
    /// Makes a call of a definition: a token on its body takes the slot, with a scope for each parameter, and the answer is Ok(true). `token` is the
    /// one in the slot `slot`: it is at a call of the definition with the number `definition`, with the operands of the list with the number `list`,
    /// in the scope with the number `scope`. `added` is lent for the new scopes, and what it held is lost. Ok(false), and nothing changes, if there
    /// is no such definition, if it has more or fewer parameters than there are operands, or if an operand isn't bound: no checked program has such a
    /// call. Full, Limit or Memory if the entry is refused; then nothing changes but `added`. Tokens in other slots stay there.
    #[inline(always)]
    pub fn def(
        &mut self,
        inputs: &Inputs<'_, P>,
        slot: usize,
        token: Token,
        scope: usize,
        definition: u32,
        list: u32,
        added: &mut Vec<StoredScope>,
    ) -> Result<bool, LedgerFault>
        requires held { IsHeld self.old.slots slot token }
        requires at { (node : ℕ) × (token.standing ≡ At node scope) × (code P.listing node ≡ call definition (map param_of (slice_index_or P.listing.lists list []))) }
        ensures done { IfOk result (λ done. done ≡ true → IsCalled P.listing self.old token scope definition list self.new) }
        ensures held { IfOk result (λ done. done ≡ true → (t : Its) × IsHeld self.new.slots slot t × (t.serial ≡ self.old.next_mark)) }
        ensures undone { IfOk result (λ done. done ≡ false → IsUndone P.listing self.old scope definition list) }
        ensures same { IfOk result (λ done. done ≡ false → self.new ≡ self.old) }
        ensures others { OnOk result (KeepsOthers self.old.slots slot self.new.slots) }
        ensures refused { OnErr result (self.new ≡ self.old) }
        ensures why { IfErr result (λ fault. IsRefused self.old 0 0 0 fault) }
    {
        // The token on the body takes the place of the one at the call: no token and no group more, and no left side of a `>x>` is entered.
        self.within(0, 0, 0)?;
        // `body` is the number of the node of the body. None: there is no such definition.
        let Some(body) = inputs.graph.body(definition as usize) else {
            return Ok(false);
        };
        // The names of the parameters, and the operands of the call, which stand for them.
        let params = inputs.graph.params(definition as usize);
        let operands = inputs.graph.operands(list as usize);
        // Writes a scope for each parameter over `added`, and gives the number that the innermost one will have in `self.scopes`. The error is
        // refused memory, or a number of over 32 bits, which counts as that.
        let fitted = parameter_scopes(&self.scopes, &self.cells, params, operands, scope, added)?;
        // None: there are more or fewer operands than parameters, or an operand isn't bound.
        let Some(newest) = fitted else {
            return Ok(false);
        };
        reserve_scopes(&mut self.scopes, added.len())?;
        // A group is what runs inside one right side of a `<x<`, one left side of a `;`, or the whole program. The new token is in the group of the
        // one that it replaces, so no group changes its number of members.
        let group = self.steps.group_at(token.step);
        // The mark by which the journal names the new token.
        let mark = self.next_mark;
        write(&mut self.journal, &Entry::Def(token.serial, mark))?;
        self.entries += 1;
        self.next_mark = mark + 1;
        extend_within(&mut self.scopes, added);
        self.tokens.replace(
            slot,
            Token {
                serial: mark,
                standing: Standing::At(body, newest),
                step: token.step,
            },
            group,
        );
        Ok(true)
    }
}
