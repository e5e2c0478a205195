//! Moves of tokens: a token takes its action. Each `move_..` makes the entry that one kind of node, or of taker, asks for, and says as [`Moved`] what
//! has become of the token: `On` is one new token in its slot. A fault is that of the entry, and then nothing has changed: Full if tokens with
//! pending calls, groups, or left sides of a `>x>` around a token would be too many, Limit if the journal has as many entries as it may, Memory if
//! memory is refused. A *token* marks a part of the program's term that runs: it is in a *slot* of the table of tokens, and on a value, or at a node
//! in a *scope* (by number, what the names there stand for). A *cell* stands for the x of an opened `f <x< g`. A *step* is the entry into the right
//! side of a `<x<`, or into the left side of a `;` or a `>x>`; a token has the number of the innermost one around it, and `outer` is one further out.
//! `inputs` are the program's nodes and the table that answers calls.
//!
//! Of the clauses `held` says that the token is in the slot, `at` or `form` what it is on, `done` what becomes of the records, `others` which tokens
//! stay in their slots, `refused` that a refused call changes nothing, and `why` its cause. `asked` says that a claim was got if the move needs one:
//! `HasAsked` takes what is true of a claim that wasn't asked and of one that was got, `IsBarredAt` the first and that of one that was lost. The ks
//! in `Moves` are the calls that a bind cancels: for other moves any list will do. `takes` says what takes the value, `way` and `side` that this is
//! around the token, and `there` and `fits` that the scope and the step that go with it are there. `P` names the run: `P.listing` is its program,
//! where `code` gives the term of a node.

ghost use Rattle.std.specs.Prelude.{◌≡◌, ◌≤◌, ℕ, List, [], map, length, true, false, Some, None as Nothing, slice_index_or, IfOk, IfErr, IfSome, IfNone, OnOk, OnErr};
ghost use Rattle.orc_rules.specs.declared.param.Param.TheVariants.{Name, Is};
ghost use Rattle.orc_rules.specs.Term.{stop, param, site, call, par, seq, prune, other, values_of};
ghost use Rattle.orc_rules.specs.declared.limits.TheConstants.{MOST_ARGUMENTS};
ghost use Rattle.orc_rules.specs.declared.value.Value.{Value as ValueOf};
ghost use Rattle.orc_rules.specs.Nodes.{code, param_of};
ghost use Rattle.orc_rules.specs.Journal.{IsVoid};
ghost use Rattle.orc_env.specs.Scopes.{close, close_param, given, without};
ghost use Rattle.orc_frames.specs.Spelling.{whole, feeding, aiding};
ghost use Rattle.orc_tables.specs.Tokens.{IsHeld};
ghost use Rattle.orc_frames.specs.Taking.{Takes, IsOnWay, HasStep, taker, reach};
ghost use Rattle.orc_ledger_spec.specs.Records.{its_env, its_path};
ghost use Rattle.orc_frames.specs.Paths.{standing, has_published};
ghost use Rattle.orc_tables.specs.Steps.{group_at};
ghost use Rattle.orc_frames.specs.Doing.{scan, closed};
ghost use Rattle.orc_tables.specs.declared.records.Frame.TheVariants.{PruneRight};
ghost use Rattle.orc_tables.specs.declared.records.Standing.TheVariants.{On};
ghost use Rattle.orc_ledger_spec.specs.Claims.{HasAsked, IsBarredAt};
ghost use Rattle.orc_ledger_spec.specs.Moves.{StandsAt, IsThere, Moves, IsHindered};
ghost use Rattle.orc_ledger.specs.Others.{KeepsBy};

use crate::claim::{Always, Claim};
use crate::inputs::Inputs;
use crate::ledger::Ledger;
use orc_env::{Bound, StoredScope, meaning};
use orc_frames::{Action, Taker, are_values, find_taker, site_call_action, take_values};
use orc_graph::Node;
use orc_ledger_spec::{LedgerFault, Moved};
use orc_log::Run;
use orc_rules::param::Operand;
use orc_rules::value::{Args, Value};
use orc_tables::{Standing, Token};

impl<P: Run> Ledger<P> {
    /// The number of the group of a token whose innermost step has the number `step`; 0, the program's own, for step 0. A group is what runs inside
    /// one right side of a `<x<`, one left side of a `;`, or the whole program.
    pub fn group_of(&self, step: usize) -> u32
        ensures { result ≡ group_at self.now.steps step }
    {
        self.steps.group_at(step)
    }

    /// What takes a value that the token publishes: a `>x>`, a cell, or nothing, and then the program publishes the value. `takes` and `way` promise
    /// that this is the nearest around the token, `there` that the scope and the step in the answer exist.
    #[inline(always)]
    pub fn taker_of(&self, token: Token) -> Taker
        requires { (slot : ℕ) × IsHeld self.now.slots slot token }
        ensures takes { Takes (code P.listing) (its_env (code P.listing) self.now) (has_published self.now.steps) self.now.steps token.step result }
        ensures way { IsOnWay self.now.steps token.step result }
        ensures there { IsThere self.now result }
    {
        find_taker(&self.steps, token.step)
    }

    // What stands for an operand in the scope with the number `scope`: a value, an unbound cell, or void (a cell that can't get a value any more).
    // None for a name that isn't bound there.
    fn bound_of(&self, operand: Operand, scope: usize) -> Option<Bound>
        ensures bound { IfSome result (λ b. close_param (its_env (code P.listing) self.now scope) (param_of operand) ≡ given b) }
        ensures free { IfNone result ((x : ℕ) × (close_param (its_env (code P.listing) self.now scope) (param_of operand) ≡ Name x)) }
    {
        meaning(&self.scopes, &self.cells, operand, scope)
    }

    // Whether each operand of a call has a value in the scope with the number `scope`. The contract promises that of `true` alone.
    #[inline(always)]
    pub(crate) fn have_values(&self, operands: &[Operand], scope: usize) -> bool
        ensures { result ≡ true → scan false Nothing (closed (its_env (code P.listing) self.now scope) operands.now) ≡ Action.Call }
    {
        are_values(&self.scopes, &self.cells, operands, scope)
    }

    // Writes the values that a call's operands have in the scope with the number `scope` over `args`, and says whether each operand has one. If not,
    // `args` has some of them.
    #[inline(always)]
    pub(crate) fn take_values(&self, operands: &[Operand], scope: usize, args: &mut Args) -> bool
        requires few { length operands.now ≤ MOST_ARGUMENTS }
        ensures values { result ≡ true → values_of (closed (its_env (code P.listing) self.now scope) operands.now) ≡ Some args.new }
        ensures none { result ≡ false → (vs : List ValueOf) → values_of (closed (its_env (code P.listing) self.now scope) operands.now) ≡ Some vs → ⊥ }
    {
        take_values(&self.scopes, &self.cells, operands, scope, args)
    }

    // What a token at a call of a site with these operands, in the scope with the number `scope`, does: `Call` if all have values, `Void` if one is
    // void, `Wait` otherwise.
    pub(crate) fn scan(&self, operands: &[Operand], scope: usize) -> Action
        ensures { result ≡ scan false Nothing (closed (its_env (code P.listing) self.now scope) operands.now) }
    {
        // False and None: all operands are still to be looked at, so no unbound cell was met before them.
        site_call_action(&self.scopes, &self.cells, operands, scope, false, None)
    }

    // `stop`: the token goes, out of the group that the answer names, which may have no member any more. `done` promises that the records become what
    // the token's action makes of them; its ks are the calls that a bind cancels, so here any will do. Tokens in other slots stay there.
    #[inline(always)]
    fn move_end(&mut self, slot: usize, token: Token) -> Result<Moved, LedgerFault>
        requires held { IsHeld self.old.slots slot token }
        requires at { (scope : ℕ) × StandsAt P.listing token scope stop }
        ensures done { (ks : List ℕ) → IfOk result (λ m. Moves P.listing self.old slot token m ks self.new) }
        ensures others { IfOk result (λ m. KeepsBy (code P.listing) self.old slot m self.new) }
        ensures refused { OnErr result (self.new ≡ self.old) }
        ensures why { IfErr result (λ fault. IsHindered P.listing self.old token fault) }
    {
        // Asked before the move, which takes the token out of its group.
        let group = self.group_of(token.step);
        self.end(slot, token)?;
        Ok(Moved::Gone(group))
    }

    // A void variable (its cell can't get a value any more), or a call of a site with a void argument: the token goes, out of the group that the
    // answer names, which may have no member any more. `done` promises that the records become what the token's action makes of them; its ks are the
    // calls that a bind cancels, so here any will do. Tokens in other slots stay there.
    fn move_void(&mut self, slot: usize, token: Token) -> Result<Moved, LedgerFault>
        requires held { IsHeld self.old.slots slot token }
        requires void { IsVoid (standing (code P.listing) (its_env (code P.listing) self.old) token.standing) }
        ensures done { (ks : List ℕ) → IfOk result (λ m. Moves P.listing self.old slot token m ks self.new) }
        ensures others { IfOk result (λ m. KeepsBy (code P.listing) self.old slot m self.new) }
        ensures refused { OnErr result (self.new ≡ self.old) }
        ensures why { IfErr result (λ fault. IsHindered P.listing self.old token fault) }
    {
        // Asked before the move, which takes the token out of its group.
        let group = self.group_of(token.step);
        self.void(slot, token)?;
        Ok(Moved::Gone(group))
    }

    // `f | g`, whose sides are the nodes `left` and `right`, in the scope with the number `scope`: a token on the left side comes into the slot, and
    // one on the right side into the slot that the answer names. `done` promises that the records become what the token's action makes of them; its
    // ks are the calls that a bind cancels, so here any will do. Tokens in other slots stay there.
    #[inline(always)]
    fn move_fork(
        &mut self,
        slot: usize,
        token: Token,
        scope: usize,
        left: u32,
        right: u32,
    ) -> Result<Moved, LedgerFault>
        requires held { IsHeld self.old.slots slot token }
        requires at { StandsAt P.listing token scope (par (code P.listing left) (code P.listing right)) }
        ensures done { (ks : List ℕ) → IfOk result (λ m. Moves P.listing self.old slot token m ks self.new) }
        ensures others { IfOk result (λ m. KeepsBy (code P.listing) self.old slot m self.new) }
        ensures refused { OnErr result (self.new ≡ self.old) }
        ensures why { IfErr result (λ fault. IsHindered P.listing self.old token fault) }
    {
        let right_slot = self.fork(slot, token, scope, left, right)?;
        Ok(Moved::Forked(right_slot))
    }

    // `f >x> g`: a token on f comes into the slot. `left` is the node of f, `name` the number of x, `right` the node of g, `scope` the number of the
    // whole term's scope. `done` promises that the records become what the token's action makes of them; its ks are the calls that a bind cancels, so
    // here any will do. Tokens in other slots stay there.
    fn move_feed(
        &mut self,
        slot: usize,
        token: Token,
        scope: usize,
        left: u32,
        name: u32,
        right: u32,
    ) -> Result<Moved, LedgerFault>
        requires held { IsHeld self.old.slots slot token }
        requires at { StandsAt P.listing token scope (seq (code P.listing left) name (code P.listing right)) }
        ensures done { (ks : List ℕ) → IfOk result (λ m. Moves P.listing self.old slot token m ks self.new) }
        ensures others { IfOk result (λ m. KeepsBy (code P.listing) self.old slot m self.new) }
        ensures refused { OnErr result (self.new ≡ self.old) }
        ensures why { IfErr result (λ fault. IsHindered P.listing self.old token fault) }
    {
        self.feed(slot, token, scope, left, name, right)?;
        Ok(Moved::On)
    }

    // `f ; g`, whose sides are the nodes `left` and `right`, in the scope with the number `scope`: a token on the left side comes into the slot. The
    // claim (what another worker may have won first) is asked last, since a side is opened: if the move is made, the claim was got (`asked`). `done`
    // promises that the records become what the token's action makes of them; its ks are the calls that a bind cancels, so here any will do. Tokens
    // in other slots stay there.
    fn move_other<C: Claim>(
        &mut self,
        slot: usize,
        token: Token,
        scope: usize,
        left: u32,
        right: u32,
        claim: &mut C,
    ) -> Result<Moved, LedgerFault>
        requires held { IsHeld self.old.slots slot token }
        requires at { StandsAt P.listing token scope (other (code P.listing left) (code P.listing right)) }
        ensures done { (ks : List ℕ) → IfOk result (λ m. Moves P.listing self.old slot token m ks self.new) }
        ensures asked { OnOk result (HasAsked P.listing self.old token (claim.new ≡ claim.old) (C.got claim.old claim.new)) }
        ensures others { IfOk result (λ m. KeepsBy (code P.listing) self.old slot m self.new) }
        ensures refused { OnErr result (self.new ≡ self.old) }
        ensures why { IfErr result (λ fault. IsBarredAt P.listing self.old token (claim.new ≡ claim.old) (C.lost claim.old claim.new) fault) }
    {
        self.other(slot, token, scope, left, right, claim)?;
        Ok(Moved::On)
    }

    // `f <x< g`: a token on f comes into the slot, and one on g into the slot that the answer names. `left` is the node of f, `name` the number of x,
    // `right` the node of g, `scope` the number of the whole term's scope. The claim (what another worker may have won first) is asked last, since a
    // side is opened: if the move is made, the claim was got (`asked`). `done` promises that the records become what the token's action makes of
    // them; its ks are the calls that a bind cancels, so here any will do. Tokens in other slots stay there.
    fn move_prune<C: Claim>(
        &mut self,
        slot: usize,
        token: Token,
        scope: usize,
        left: u32,
        name: u32,
        right: u32,
        claim: &mut C,
    ) -> Result<Moved, LedgerFault>
        requires held { IsHeld self.old.slots slot token }
        requires at { StandsAt P.listing token scope (prune (code P.listing left) name (code P.listing right)) }
        ensures done { (ks : List ℕ) → IfOk result (λ m. Moves P.listing self.old slot token m ks self.new) }
        ensures asked { OnOk result (HasAsked P.listing self.old token (claim.new ≡ claim.old) (C.got claim.old claim.new)) }
        ensures others { IfOk result (λ m. KeepsBy (code P.listing) self.old slot m self.new) }
        ensures refused { OnErr result (self.new ≡ self.old) }
        ensures why { IfErr result (λ fault. IsBarredAt P.listing self.old token (claim.new ≡ claim.old) (C.lost claim.old claim.new) fault) }
    {
        let right_slot = self.prune(slot, token, scope, left, name, right, claim)?;
        Ok(Moved::Forked(right_slot))
    }

    // A call of the definition with the number `definition`, with the operands of list `list`, read in the scope with the number `scope`: a token on
    // the body comes into the slot. `added` is lent for the scopes of the parameters. The token waits (the answer is `Waits`) where the call can't be
    // made; no checked program has such a call. Tokens in other slots stay there.
    #[inline(always)]
    fn move_def(
        &mut self,
        inputs: &Inputs<'_, P>,
        slot: usize,
        token: Token,
        scope: usize,
        definition: u32,
        list: u32,
        added: &mut Vec<StoredScope>,
    ) -> Result<Moved, LedgerFault>
        requires held { IsHeld self.old.slots slot token }
        requires at { StandsAt P.listing token scope (call definition (map param_of (slice_index_or P.listing.lists list []))) }
        ensures done { (ks : List ℕ) → IfOk result (λ m. Moves P.listing self.old slot token m ks self.new) }
        ensures others { IfOk result (λ m. KeepsBy (code P.listing) self.old slot m self.new) }
        ensures refused { OnErr result (self.new ≡ self.old) }
        ensures why { IfErr result (λ fault. IsHindered P.listing self.old token fault) }
    {
        match inputs.graph.body(definition as usize) {
            // No such definition. `def` asks the limits first, so the definition is looked for before: a call of a definition that isn't there waits,
            // and is never refused.
            None => Ok(Moved::Waits),
            Some(_) => {
                // `def` answers false where the operands don't fit the parameters.
                if self.def(inputs, slot, token, scope, definition, list, added)? {
                    Ok(Moved::On)
                } else {
                    Ok(Moved::Waits)
                }
            }
        }
    }

    // Nothing around the token takes its value (`takes`): the program publishes it, and the token goes, out of the group that the answer names, which
    // may have no member any more. Tokens in other slots stay there.
    #[inline(always)]
    fn move_publish(
        &mut self,
        slot: usize,
        token: Token,
        value: Value,
    ) -> Result<Moved, LedgerFault>
        requires held { IsHeld self.old.slots slot token }
        requires form { standing (code P.listing) (its_env (code P.listing) self.old) token.standing ≡ param (Is value) }
        requires takes { taker (its_path (code P.listing) self.old token.step) ≡ whole }
        ensures done { (ks : List ℕ) → IfOk result (λ m. Moves P.listing self.old slot token m ks self.new) }
        ensures others { IfOk result (λ m. KeepsBy (code P.listing) self.old slot m self.new) }
        ensures refused { OnErr result (self.new ≡ self.old) }
        ensures why { IfErr result (λ fault. IsHindered P.listing self.old token fault) }
    {
        // Asked before the move, which takes the token out of its group.
        let group = self.group_of(token.step);
        self.publish(slot, token, value)?;
        Ok(Moved::Gone(group))
    }

    // A `>x>` takes the token's value: a token on the `>x>`'s right side comes into the slot. `name` is the number of x, `right` the node of the
    // right side, `scope` the scope of the whole `>x>`, `outer` the step around it (the entry into the side or `>x>` that is next outwards). The
    // answer names the group that the old token was in, which may have no member any more. Tokens in other slots stay there.
    #[inline(always)]
    fn move_send(
        &mut self,
        slot: usize,
        token: Token,
        value: Value,
        name: u32,
        right: u32,
        scope: usize,
        outer: usize,
    ) -> Result<Moved, LedgerFault>
        requires held { IsHeld self.old.slots slot token }
        requires form { standing (code P.listing) (its_env (code P.listing) self.old) token.standing ≡ param (Is value) }
        requires takes { taker (its_path (code P.listing) self.old token.step) ≡ feeding name (close (without name (its_env (code P.listing) self.old scope)) (code P.listing right)) (its_path (code P.listing) self.old outer) }
        requires way { (n : ℕ) × (reach self.old.steps n token.step ≡ outer) }
        requires fits { (scope ≤ length self.old.scopes) × (outer ≤ length self.old.steps) }
        ensures done { (ks : List ℕ) → IfOk result (λ m. Moves P.listing self.old slot token m ks self.new) }
        ensures others { IfOk result (λ m. KeepsBy (code P.listing) self.old slot m self.new) }
        ensures refused { OnErr result (self.new ≡ self.old) }
        ensures why { IfErr result (λ fault. IsHindered P.listing self.old token fault) }
    {
        // Asked before the move, which takes the token out of its group.
        let group = self.group_of(token.step);
        self.send(slot, token, value, name, right, scope, outer)?;
        Ok(Moved::Sent(group))
    }

    // The right side of this cell publishes the token's value: the cell is bound, and all inside that side goes. `outer` is the number of the step
    // around the whole `f <x< g`. The claim (what another worker may have won first) is asked last, and `cancelled` gets the numbers of the calls
    // that are cancelled. Tokens in other slots stay there, but for those that a bind drops with the right side.
    fn move_bind<C: Claim>(
        &mut self,
        slot: usize,
        token: Token,
        value: Value,
        cell: u64,
        outer: usize,
        claim: &mut C,
        cancelled: &mut Vec<u64>,
    ) -> Result<Moved, LedgerFault>
        requires held { IsHeld self.old.slots slot token }
        requires form { standing (code P.listing) (its_env (code P.listing) self.old) token.standing ≡ param (Is value) }
        requires takes { taker (its_path (code P.listing) self.old token.step) ≡ aiding cell (its_path (code P.listing) self.old outer) }
        requires side { HasStep self.old.steps (PruneRight cell) outer }
        ensures done { IfOk result (λ m. Moves P.listing self.old slot token m cancelled.new.items self.new) }
        ensures asked { OnOk result (HasAsked P.listing self.old token (claim.new ≡ claim.old) (C.got claim.old claim.new)) }
        ensures others { IfOk result (λ m. KeepsBy (code P.listing) self.old slot m self.new) }
        ensures refused { OnErr result (self.new ≡ self.old) }
        ensures why { IfErr result (λ fault. IsBarredAt P.listing self.old token (claim.new ≡ claim.old) (C.lost claim.old claim.new) fault) }
    {
        // The group around the whole `f <x< g`, which the answer names: it loses the right side's group, and may have no member any more.
        let group = self.group_of(outer);
        self.bind(slot, token, value, cell, claim, cancelled)?;
        Ok(Moved::Bound(cell, group))
    }

    // A token whose term is this value publishes the value to what takes it: the program, a `>x>` or a cell. For a cell alone the claim (what another
    // worker may have won first) is asked, and `cancelled` gets the numbers of the calls that are cancelled. Tokens in other slots stay there, but
    // for those that a bind drops with the right side.
    #[inline(always)]
    pub(crate) fn move_value<C: Claim>(
        &mut self,
        slot: usize,
        token: Token,
        value: Value,
        claim: &mut C,
        cancelled: &mut Vec<u64>,
    ) -> Result<Moved, LedgerFault>
        requires held { IsHeld self.old.slots slot token }
        requires form { standing (code P.listing) (its_env (code P.listing) self.old) token.standing ≡ param (Is value) }
        ensures done { IfOk result (λ m. Moves P.listing self.old slot token m cancelled.new.items self.new) }
        ensures asked { OnOk result (HasAsked P.listing self.old token (claim.new ≡ claim.old) (C.got claim.old claim.new)) }
        ensures others { IfOk result (λ m. KeepsBy (code P.listing) self.old slot m self.new) }
        ensures refused { OnErr result (self.new ≡ self.old) }
        ensures why { IfErr result (λ fault. IsBarredAt P.listing self.old token (claim.new ≡ claim.old) (C.lost claim.old claim.new) fault) }
    {
        match self.taker_of(token) {
            // Nothing around the token takes the value: the program publishes it.
            Taker::Whole => self.move_publish(slot, token, value),
            // The left side of a `>x>`: the number of x, the right side's node, the scope of the whole term, and the step around it.
            Taker::SeqLeft(name, right, scope, outer) => {
                self.move_send(slot, token, value, name, right, scope, outer)
            }
            // The right side of this cell: the cell is bound. `outer` is the step around the whole `f <x< g`.
            Taker::PruneRight(cell, outer) => self.move_bind(
                slot, token, value, cell, outer, claim, cancelled,
            ),
        }
    }

    // The variable with the number `name`, by what stands for it in this scope: a value is published, an unbound cell is awaited, and with void (no
    // value can come any more) the token goes. `claim` and `cancelled` are used only if the value binds a cell. Tokens in other slots stay there, but
    // for those that a bind drops with the right side.
    fn move_name<C: Claim>(
        &mut self,
        slot: usize,
        token: Token,
        scope: usize,
        name: u32,
        claim: &mut C,
        cancelled: &mut Vec<u64>,
    ) -> Result<Moved, LedgerFault>
        requires held { IsHeld self.old.slots slot token }
        requires at { StandsAt P.listing token scope (param (Name name)) }
        ensures done { IfOk result (λ m. Moves P.listing self.old slot token m cancelled.new.items self.new) }
        ensures asked { OnOk result (HasAsked P.listing self.old token (claim.new ≡ claim.old) (C.got claim.old claim.new)) }
        ensures others { IfOk result (λ m. KeepsBy (code P.listing) self.old slot m self.new) }
        ensures refused { OnErr result (self.new ≡ self.old) }
        ensures why { IfErr result (λ fault. IsBarredAt P.listing self.old token (claim.new ≡ claim.old) (C.lost claim.old claim.new) fault) }
    {
        match self.bound_of(Operand::Name(name), scope) {
            Some(Bound::Is(value)) => self.move_value(slot, token, value, claim, cancelled),
            Some(Bound::Void) => self.move_void(slot, token),
            Some(Bound::Cell(_)) => Ok(Moved::Waits),
            // A name that isn't bound; no checked program has one. The token waits for ever.
            None => Ok(Moved::Waits),
        }
    }

    // A call of a site, with the operands of list `list`, read in the scope with the number `scope`: once all operands have values the answer is
    // `Calls`, and the caller makes the call by another function (`call`). With a void operand the token goes, else it waits. Tokens in other slots
    // stay there.
    #[inline(always)]
    fn move_site(
        &mut self,
        inputs: &Inputs<'_, P>,
        slot: usize,
        token: Token,
        scope: usize,
        list: u32,
    ) -> Result<Moved, LedgerFault>
        requires held { IsHeld self.old.slots slot token }
        requires at { (m : ℕ) × StandsAt P.listing token scope (site m (map param_of (slice_index_or P.listing.lists list []))) }
        ensures done { (ks : List ℕ) → IfOk result (λ m. Moves P.listing self.old slot token m ks self.new) }
        ensures others { IfOk result (λ m. KeepsBy (code P.listing) self.old slot m self.new) }
        ensures refused { OnErr result (self.new ≡ self.old) }
        ensures why { IfErr result (λ fault. IsHindered P.listing self.old token fault) }
    {
        // The operands of the list: names and literals.
        let operands = inputs.graph.operands(list as usize);
        // The operands are asked for values by themselves first: most calls have theirs, and a `bool` is quicker to hand back than an `Action`.
        if self.have_values(operands, scope) {
            return Ok(Moved::Calls);
        }
        match self.scan(operands, scope) {
            // Not reached: some operand has no value. But the contract of `have_values` says nothing of `false`.
            Action::Call => Ok(Moved::Calls),
            Action::Void => self.move_void(slot, token),
            // `scan` gives no action but these two and `Wait`.
            _ => Ok(Moved::Waits),
        }
    }

    /// Moves this token, which is in this slot, by its action, what it does next (`what` gives it): the kind of entry follows from the token's node
    /// and from what takes its value. A call of a site is not made, and a token that waits stays as it is. If a cell is bound or a side opened, the
    /// claim (what another worker may have won first) is asked last. Any other move leaves the claim untouched, and so does a refusal before it is
    /// asked. Full, Limit or Memory if the entry is refused, Unclaimed if the claim is lost; the records are as before then. `added` and `cancelled`
    /// are lent: what they held may be lost, and if a cell is bound, `cancelled` then holds the numbers of the calls that are cancelled, in rising
    /// order. Tokens in other slots stay there, but for those that a bind drops with the right side.
    pub fn advance_by<C: Claim>(
        &mut self,
        inputs: &Inputs<'_, P>,
        slot: usize,
        token: Token,
        claim: &mut C,
        added: &mut Vec<StoredScope>,
        cancelled: &mut Vec<u64>,
    ) -> Result<Moved, LedgerFault>
        requires held { IsHeld self.old.slots slot token }
        ensures done { IfOk result (λ m. Moves P.listing self.old slot token m cancelled.new.items self.new) }
        ensures asked { OnOk result (HasAsked P.listing self.old token (claim.new ≡ claim.old) (C.got claim.old claim.new)) }
        ensures others { IfOk result (λ m. KeepsBy (code P.listing) self.old slot m self.new) }
        ensures refused { OnErr result (self.new ≡ self.old) }
        ensures why { IfErr result (λ fault. IsBarredAt P.listing self.old token (claim.new ≡ claim.old) (C.lost claim.old claim.new) fault) }
    {
        match token.standing {
            Standing::On(value) => self.move_value(slot, token, value, claim, cancelled),
            Standing::At(node, scope) => match inputs.graph.node(node as usize) {
                Node::Stop => self.move_end(slot, token),
                Node::Name(name) => self.move_name(slot, token, scope, name, claim, cancelled),
                Node::Is(value) => self.move_value(slot, token, value, claim, cancelled),
                Node::Site(_, list) => self.move_site(inputs, slot, token, scope, list),
                Node::Call(definition, list) => {
                    self.move_def(inputs, slot, token, scope, definition, list, added)
                }
                Node::Par(left, right) => self.move_fork(slot, token, scope, left, right),
                Node::Seq(left, name, right) => {
                    self.move_feed(slot, token, scope, left, name, right)
                }
                Node::Prune(left, name, right) => {
                    self.move_prune(slot, token, scope, left, name, right, claim)
                }
                Node::Other(left, right) => self.move_other(slot, token, scope, left, right, claim),
            },
        }
    }

    /// Moves this token as `advance_by` does, with a claim that is always got: no other worker can win the move. Full, Limit or Memory if its entry
    /// is refused, and then nothing changes. `added` and `cancelled` are lent: what they held may be lost, and if a cell is bound, `cancelled` then
    /// holds the numbers of the calls that are cancelled, in rising order. Tokens in other slots stay there, but for those that a bind drops with the
    /// right side.
    pub fn advance(
        &mut self,
        inputs: &Inputs<'_, P>,
        slot: usize,
        token: Token,
        added: &mut Vec<StoredScope>,
        cancelled: &mut Vec<u64>,
    ) -> Result<Moved, LedgerFault>
        requires held { IsHeld self.old.slots slot token }
        ensures done { IfOk result (λ m. Moves P.listing self.old slot token m cancelled.new.items self.new) }
        ensures others { IfOk result (λ m. KeepsBy (code P.listing) self.old slot m self.new) }
        ensures refused { OnErr result (self.new ≡ self.old) }
        ensures why { IfErr result (λ fault. IsHindered P.listing self.old token fault) }
    {
        // No other worker can win the move: the claim is always got.
        let mut claim = Always;
        self.advance_by(inputs, slot, token, &mut claim, added, cancelled)
    }

    /// Moves this token, which is in this slot and on this value: the token publishes the value to what takes it (the program, a `>x>` or a cell).
    /// Full, Limit or Memory if its entry is refused, and then nothing changes. `cancelled` is lent: if a cell is bound, it then holds the numbers of
    /// the calls that are cancelled, in rising order. Tokens in other slots stay there, but for those that a bind drops with the right side.
    #[inline(always)]
    pub fn advance_value(
        &mut self,
        slot: usize,
        token: Token,
        value: Value,
        cancelled: &mut Vec<u64>,
    ) -> Result<Moved, LedgerFault>
        requires held { IsHeld self.old.slots slot token }
        requires on { token.standing ≡ On value }
        ensures done { IfOk result (λ m. Moves P.listing self.old slot token m cancelled.new.items self.new) }
        ensures others { IfOk result (λ m. KeepsBy (code P.listing) self.old slot m self.new) }
        ensures refused { OnErr result (self.new ≡ self.old) }
        ensures why { IfErr result (λ fault. IsHindered P.listing self.old token fault) }
    {
        // No other worker can win the move: the claim is always got.
        let mut claim = Always;
        self.move_value(slot, token, value, &mut claim, cancelled)
    }
}
