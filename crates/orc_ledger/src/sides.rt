//! Sides that end: the right side of a cell that is bound or lost, and the left side of an otherwise. `self.steps` are the run's steps. A *step* is
//! the entry into one of these sides, or into the left side of a `>x>`; a token and a call have the number of the innermost one around them. A
//! *token* marks a part of the program's term that runs, in a *slot* of the table of tokens. A *group* is an open side with its members: the tokens,
//! pending calls and groups directly in it. A *cell* stands for the x of an opened `f <x< g`, and is *lost*, or void, if g halts without a value.
//!
//! Of the clauses `held` says that the token is in the slot, `at` or `form` what it is on, `done` what becomes of the records, `others` which tokens
//! stay in their slots, `refused` that a refused call changes nothing, and `why` its cause. `taker path ≡ aiding cell p` says that the right side of
//! that cell is the nearest that takes what the token publishes.
//!
//! A function that writes an entry first asks `within` whether the limits allow it. The arguments are how many tokens and how many groups the entry
//! adds, and in how many left sides of a `>x>` it puts a token: 0 here, where none is entered. `IsRefused` has the same three numbers. Full means
//! that the tokens with the pending calls would be too many, Limit that the journal has as many entries as it may, Memory that memory was refused.
//! `P` names the run: `P.listing` is its program, where `code` gives the term of a node.

ghost use Rattle.std.specs.Prelude.{◌≡◌, ◌+◌, ◌-◌, ◌++◌, ◌∷◌, [], ◌<◌, true, length, map, false, IfOk, OnOk, OnErr, IfErr, slice_set};
ghost use Rattle.orc_rules.specs.Nodes.{code};
ghost use Rattle.orc_rules.specs.Term.{param};
ghost use Rattle.orc_rules.specs.declared.param.Param.TheVariants.{Is};
ghost use Rattle.orc_rules.specs.declared.entry.Entry.TheVariants.{Bind, Cancel, Lost};
ghost use Rattle.orc_rules.specs.Timed.{IsIn};
ghost use Rattle.orc_ledger_spec.specs.Next.{members, numbers_of};
ghost use Rattle.orc_tables.specs.declared.records.Side.TheVariants.{Left, Right};
ghost use Rattle.orc_tables.specs.declared.records.Standing.TheVariants.{At};
ghost use Rattle.orc_tables.specs.Tokens.{IsHeld};
ghost use Rattle.orc_frames.specs.Spelling.{Path, aiding};
ghost use Rattle.orc_frames.specs.Taking.{taker};
ghost use Rattle.orc_ledger_spec.specs.Records.{its_env, its_path, is_over};
ghost use Rattle.orc_frames.specs.Paths.{standing, has_published};
ghost use Rattle.orc_tables.specs.Steps.{group_at};
ghost use Rattle.orc_ledger_spec.specs.Claims.{IsBarred};
ghost use Rattle.orc_ledger_spec.specs.Calls.{Drops, GoesAlone, Closes, Resumes, AreCancelled, IsRefused};
ghost use Rattle.orc_log.specs.Logs.{log_with};
ghost use Rattle.orc_ledger.specs.Others.{KeepsAll, KeepsOutside};

use crate::claim::Claim;
use crate::ledger::{Ledger, write};
use orc_env::Bound;
use orc_ledger_spec::LedgerFault;
use orc_log::{Log, Run};
use orc_rules::entry::Entry;
use orc_rules::value::Value;
use orc_tables::{
    Group, Standing, Token, leave_calls, leave_groups, leave_tokens, side_group, take_out,
};

// Writes what the cell with this number has become: a value, or void if its right side halted without one. If there is no such cell, nothing changes.
fn settle(cells: &mut Vec<Bound>, cell: u64, bound: Bound)
    ensures { cells.new.items ≡ slice_set cells.old.items cell bound }
{
    if let Some(place) = cells.get_mut(cell as usize) {
        *place = bound;
    }
}

// Writes a bind (the cell gets the value that the token publishes) and, behind it, the cancels of the calls with the numbers in `cancelled`, then
// asks the claim (what another worker may have won first), and removes these entries if the claim is lost. Memory if memory is refused, Unclaimed if
// the claim is lost; the journal is then as it was. `token` is the token's mark.
fn write_bind<P: Run, C: Claim>(
    journal: &mut Log<P>,
    token: u64,
    cell: u64,
    value: Value,
    cancelled: &Vec<u64>,
    claim: &mut C,
) -> Result<(), LedgerFault>
    ensures added { OnOk result (journal.new ≡ log_with journal.old (Bind token cell value ∷ map Cancel cancelled.now.items)) }
    ensures got { OnOk result (C.got claim.old claim.new) }
    ensures refused { OnErr result (journal.new ≡ journal.old) }
    ensures why { IfErr result (λ fault. IsBarred (claim.new ≡ claim.old) (C.lost claim.old claim.new) (λ reason. reason ≡ LedgerFault.Memory) fault) }
{
    // The journal's length before the bind, to which it is cut if the claim is lost.
    let entries = journal.len();
    match journal.push_bind(token, cell, value, cancelled) {
        Ok(()) => {}
        Err(_) => return Err(LedgerFault::Memory),
    }
    if claim.ask() {
        return Ok(());
    }
    journal.truncate(entries);
    Err(LedgerFault::Unclaimed)
}

impl<P: Run> Ledger<P> {
    /// How many sides are open groups: right sides of a `<x<` whose cell is neither bound nor lost, and left sides of a `;` that haven't ended.
    pub fn side_count(&self) -> usize
        ensures { result ≡ length self.now.groups }
    {
        self.groups.len()
    }

    /// Binds the variable x of an `f <x< g`, which is the cell with the number `cell`, to the value that the token publishes in the right side: all
    /// that is inside that side goes, and the calls that pended there are cancelled. The tokens outside the side stay in their slots. `slot` is the
    /// token's slot, which only the contract uses. `cancelled` gets the numbers of the cancelled calls, in rising order; what it held is lost. The
    /// claim (what another worker may have won first) is asked last. Full, Limit or Memory if the entries are refused, Unclaimed if the claim is
    /// lost; no record has changed then.
    pub fn bind<C: Claim>(
        &mut self,
        slot: usize,
        token: Token,
        value: Value,
        cell: u64,
        claim: &mut C,
        cancelled: &mut Vec<u64>,
    ) -> Result<(), LedgerFault>
        requires held { IsHeld self.old.slots slot token }
        requires form { standing (code P.listing) (its_env (code P.listing) self.old) token.standing ≡ param (Is value) }
        requires takes { (p : Path) × (taker (its_path (code P.listing) self.old token.step) ≡ aiding cell p) }
        ensures done { OnOk result (Drops (code P.listing) cell (Bound.Is value) self.old self.new) }
        ensures journal { OnOk result (self.new.journal ≡ self.old.journal ++ Bind token.serial cell value ∷ map Cancel cancelled.new.items) }
        ensures cancelled { OnOk result (AreCancelled (code P.listing) cell self.old cancelled.new.items) }
        ensures got { OnOk result (C.got claim.old claim.new) }
        ensures others { OnOk result (KeepsOutside (code P.listing) cell self.old self.new) }
        ensures refused { OnErr result (self.new ≡ self.old) }
        ensures why { IfErr result (λ fault. IsBarred (claim.new ≡ claim.old) (C.lost claim.old claim.new) (IsRefused self.old 0 0 0) fault) }
    {
        // No token and no group comes, and no left side of a `>x>` is entered.
        self.within(0, 0, 0)?;
        // Lists what is inside the right side: the numbers of the calls, which are to be cancelled, in `cancelled`, the rest in `self.crowd`. `known`
        // is false if only the calls were found: then each table is searched below. `side_group` guesses the side's group by the token; a wrong guess
        // costs only time.
        let known = self.crowd.list_side(
            &self.tokens,
            &self.calls,
            &self.groups,
            &self.steps,
            cell,
            side_group(&self.steps, token.step),
            cancelled,
        )?;
        // The entries: the bind, and a cancel for each of these calls. Cancels don't count in `self.entries`.
        write_bind(
            &mut self.journal,
            token.serial,
            cell,
            value,
            cancelled,
            claim,
        )?;
        self.entries += 1;
        // What is inside goes from the tables: the tokens, the publishing one too, then the calls, then the groups, the side's own too. Nothing of
        // this asks for memory.
        leave_tokens(
            &mut self.tokens,
            &mut self.groups,
            &self.steps,
            cell,
            known,
            &self.crowd.slots,
        );
        leave_calls(
            &mut self.calls,
            &mut self.groups,
            &self.steps,
            cell,
            known,
            cancelled,
        );
        leave_groups(
            &mut self.groups,
            &self.steps,
            cell,
            known,
            &self.crowd.groups,
        );
        settle(&mut self.cells, cell, Bound::Is(value));
        // The tokens that are parked for this cell (known to wait for it) have to be looked at again.
        self.tokens.wake(cell);
        Ok(())
    }
    /// The right side of an `f <x< g` has halted without a publication: `group`, which is that side, has no members, no token, no pending call and no
    /// inner group. `cell` is the number of the cell that stands for x. The group goes and the cell becomes void; no other record goes, and each
    /// token stays in its slot. Full, Limit or Memory if the entry is refused; nothing has changed then.
    pub fn lost(&mut self, group: Group, cell: u64) -> Result<(), LedgerFault>
        requires there { IsIn group self.old.groups }
        requires side { group.side ≡ Right cell }
        requires empty { members (numbers_of self.old) self.old group.number ≡ 0 }
        ensures done { OnOk result (Drops (code P.listing) cell Bound.Void self.old self.new) }
        ensures alone { OnOk result (GoesAlone self.old self.new group) }
        ensures journal { OnOk result (self.new.journal ≡ self.old.journal ++ Lost cell ∷ []) }
        ensures others { OnOk result (KeepsAll self.old.slots self.new.slots) }
        ensures refused { OnErr result (self.new ≡ self.old) }
        ensures why { IfErr result (λ fault. IsRefused self.old 0 0 0 fault) }
    {
        // No token and no group comes, and no left side of a `>x>` is entered.
        self.within(0, 0, 0)?;
        write(&mut self.journal, &Entry::Lost(cell))?;
        self.entries += 1;
        // The group goes, and the group around it has one member less.
        take_out(&mut self.groups, &self.steps, group);
        settle(&mut self.cells, cell, Bound::Void);
        // The tokens that are parked for this cell (known to wait for it) have to be looked at again: it is void now.
        self.tokens.wake(cell);
        Ok(())
    }

    /// Removes the group of the left side of a `;` that has published, so that the right side never runs, and that has no member any more: no token,
    /// no pending call and no inner group. The journal gets no entry for it. Each token stays in its slot.
    pub fn close(&mut self, group: Group)
        requires there { IsIn group self.old.groups }
        requires over { is_over (code P.listing) self.old group.side ≡ true }
        requires empty { members (numbers_of self.old) self.old group.number ≡ 0 }
        ensures done { Closes self.old self.new group }
        ensures others { KeepsAll self.old.slots self.new.slots }
    {
        // The group goes, and the group around it has one member less.
        take_out(&mut self.groups, &self.steps, group);
    }
    /// The left side of an `f ; g` has halted without a publication: `group`, which is that side, has no members, and the clause `stays` asks that no
    /// value has left it. The group goes, and a token starts the right side, at this `node` and `scope`; each other token stays in its slot. `number`
    /// is the one by which the journal names this `f ; g`. Gives the new token's slot. Full, Limit or Memory if the entry is refused; nothing has
    /// changed then.
    pub fn right(
        &mut self,
        group: Group,
        number: u64,
        node: u32,
        scope: usize,
    ) -> Result<usize, LedgerFault>
        requires there { IsIn group self.old.groups }
        requires side { group.side ≡ Left number node scope }
        requires stays { has_published self.old.steps number ≡ false }
        requires empty { members (numbers_of self.old) self.old group.number ≡ 0 }
        ensures done { IfOk result (λ _. Resumes self.old self.new group number node scope) }
        ensures held { IfOk result (λ slot. IsHeld self.new.slots slot (record { serial = self.old.next_mark; standing = At node scope; step = group.outer })) }
        ensures others { OnOk result (KeepsAll self.old.slots self.new.slots) }
        ensures refused { OnErr result (self.new ≡ self.old) }
        ensures why { IfErr result (λ fault. IsRefused self.old 1 0 0 fault) }
    {
        // One token more: it starts the right side.
        self.within(1, 0, 0)?;
        self.tokens.reserve()?;
        // The mark by which the journal names the new token.
        let mark = self.next_mark;
        write(&mut self.journal, &Entry::Right(number, mark))?;
        self.entries += 1;
        self.next_mark = mark + 1;
        // The number of the group around the whole `f ; g`.
        let parent = self.steps.group_at(group.outer);
        // The parent loses the group and gets the token: it has as many members as before.
        let _left = self.groups.take(group.number);
        let slot = self.tokens.add(
            Token {
                serial: mark,
                standing: Standing::At(node, scope),
                step: group.outer,
            },
            parent,
        );
        Ok(slot)
    }
}
