//! Sub-runs: a call of a definition with values is a program of its own, which a ledger of its own can run, on another thread too. When that run is
//! over, or yields one value, its entries are merged into the journal of the enclosing run, as if they had been made there. A *part* is such a
//! sub-run. A *token* marks a part of the program's term that runs: it is in a *slot* of the table of tokens, and on a value, or at a node in a
//! *scope* (by number, what the names there stand for). Its mark, or serial, is its number in the journal; its step is the innermost entry around it
//! into the right side of a `<x<`, or into the left side of a `;` or a `>x>`, 0 for none. A *cell* stands for the x of an opened `f <x< g`. A
//! *cancel* is the entry with which a pending call goes, since a `bind` has dropped the right side of a `<x<` in which it was.
//!
//! In contracts `weight w items` is the sum of w over the items: an equation for every w says which items there are, in any order. `P` names the run:
//! `P.listing` is its program, where `code` gives the term of a node, and `P.sites` the table of its sites.

ghost use Rattle.std.specs.Prelude.{◌≡◌, ◌≤◌, ◌<◌, ◌+◌, ◌-◌, ◌^◌, ◌++◌, ◌⊎◌, ℕ, true, false, length, None, IfOk, IfErr, IfSome, MatchOption, OnOk, OnErr, vec_len, vec_capacity, option_to_list};
ghost use Rattle.orc_rules.specs.Nodes.{code, definitions, source};
ghost use Rattle.orc_rules.specs.Timed.{IsIn};
ghost use Rattle.orc_subrun.specs.Moved.{AreSilent};
ghost use Rattle.orc_frames.specs.declared.action.Action.TheVariants.{Publish};
ghost use Rattle.orc_tables.specs.OpenGroups.{size_of};
ghost use Rattle.orc_indexes.specs.Same.{is_this, weight};
ghost use Rattle.orc_tables.specs.Tokens.{live, IsHeld, StayParked};
ghost use Rattle.orc_tables.specs.declared.records.Token.{Token as Its};
ghost use Rattle.orc_ledger_spec.specs.Doing.{what_of};
ghost use Rattle.orc_ledger_spec.specs.Parts.{call_of, cells_from, comers, numbering, Fits, IsOver, StandsFor, TakesIn, IsUntaken};
ghost use Rattle.orc_ledger.specs.Others.{KeepsOthers};

use crate::inputs::Inputs;
use crate::ledger::Ledger;
use orc_env::Bound;
use orc_frames::Action;
use orc_graph::Node;
use orc_ledger_spec::{LedgerFault, Yield};
use orc_log::{Log, Run};
use orc_rules::value::{Args, Value};
use orc_subrun::Numbering;
use orc_tables::{Groups, Standing, Token, Tokens};
use std::alloc::AllocError;
use std::marker::{Model, PhantomData};

/// A call of a definition with values, as a task that can be run by itself: the number of the definition and the arguments.
#[derive(Drop)]
pub struct SubRunTask {
    /// The number of the definition that is called.
    pub definition: u32,
    /// The values with which the definition is called, one for each operand: in a checked program one for each parameter.
    pub args: Args,
    /// True only if nothing is around the call, so that the whole run publishes what the call publishes. False also inside the left side of a `;`.
    pub is_outermost: bool,
}

impl SubRunTask {
    /// A copy of the task: the same definition, arguments and `is_outermost`.
    pub fn copied(&self) -> SubRunTask
        ensures { result ≡ self.now }
    {
        SubRunTask {
            definition: self.definition,
            args: self.args.copied(),
            is_outermost: self.is_outermost,
        }
    }
}

/// The result of a call of a definition with values that was run by itself: its entries, its next mark, how many calls of sites it has made and cells
/// it has opened, by its own numbers. Either nothing is left of its run, or a token on a value alone, and then it has published nothing.
pub struct SubRun<P: Run> {
    // The number of the definition that was called, and the arguments.
    definition: u32,
    args: Args,
    // The entries of the sub-run, by its own numbers.
    journal: Log<P>,
    // Whether its run is known to have published nothing.
    is_silent: bool,
    // By its own numbers: its next mark (the journal's name for a token), how many calls of sites it has made, how many cells it has opened.
    next_mark: u64,
    calls: u64,
    cells: usize,
    // The value on which a token is left, with the token's mark, if one is left.
    left: Option<Yield>,
    program: PhantomData<P>,
}

// What contracts see of a sub-run (`Apart`). By the invariant (`IsOver`) the call's run is over but for the token that is `left`, and has published
// nothing where `is_silent` is true.
impl<P: Run> Model for SubRun<P> {
    ghost use Rattle.std.specs.Prelude.{◌≡◌, true};
    ghost use Rattle.orc_subrun.specs.Moved.{AreSilent};
    ghost use Rattle.orc_ledger_spec.specs.Parts.{Apart, IsOver};

    ghost Value = { Apart };

    ghost view = { λ p. record { definition = p.definition; args = p.args; entries = p.journal.entries; mark = p.next_mark; calls = p.calls; cells = p.cells; left = p.left } };

    ghost invariant = { λ p. IsOver P.listing P.sites (record { definition = p.definition; args = p.args; entries = p.journal.entries; mark = p.next_mark; calls = p.calls; cells = p.cells; left = p.left }) × (p.is_silent ≡ true → AreSilent p.journal.entries) };
}

// Written out, so that each exit of a function that has a `SubRun` drops it by one call. Only the journal has memory of its own.
impl<P: Run> Drop for SubRun<P> {
    fn drop(self) {
        let SubRun {
            definition: _,
            args: _,
            journal,
            is_silent: _,
            next_mark: _,
            calls: _,
            cells: _,
            left: _,
            program: _,
        } = self;
        drop(journal);
    }
}

impl<P: Run> SubRun<P> {
    /// How many entries the sub-run has. None of them is a cancel.
    pub fn len(&self) -> usize
        ensures { result ≡ length self.now.entries }
    {
        self.journal.len()
    }

    /// Whether the sub-run's call yields a value: a token on that value is left then.
    pub fn has_value(&self) -> bool
        ensures { MatchOption self.now.left (result ≡ false) (λ _. result ≡ true) }
    {
        self.left.is_some()
    }

    /// Whether the sub-run is the result of this task (same definition, same arguments), and may be merged where the task's call is: a sub-run that
    /// has published something may be merged only where the whole run publishes that (`is_outermost`). The contract promises that of `true` alone.
    pub fn is_of(&self, task: &SubRunTask) -> bool
        ensures { result ≡ true → (self.now.definition ≡ task.now.definition) × (self.now.args ≡ task.now.args) × (self.now.left ≡ None → (task.now.is_outermost ≡ true) ⊎ AreSilent self.now.entries) }
    {
        self.definition == task.definition
            && are_same(self.args.as_slice(), task.args.as_slice())
            && (task.is_outermost || self.is_silent)
    }
}

// Whether the values are the same, as many and in the same order. Its contract says so outright; that of `orc_rules::builtin::are_same` says what the
// site `Eq` makes of them.
fn are_same(values: &[Value], others: &[Value]) -> bool
    ensures { result ≡ true → values.now ≡ others.now }
{
    // The function recurses over the arguments of one call, which are `MOST_ARGUMENTS` at most.
    match values {
        // `values` has ended: the lists are the same if `others` has ended, too.
        [] => others.is_empty(),
        [value, values @ ..] => match others {
            [other, others @ ..] if *value == *other => are_same(values, others),
            // There is no other value to compare, or it differs.
            _ => false,
        },
    }
}

// Makes room for `count` more cells (those that a merged part has opened). The only fault is `Memory`. The cells stay either way.
fn reserve_cells(cells: &mut Vec<Bound>, count: usize) -> Result<(), LedgerFault>
    ensures items { cells.new.items ≡ cells.old.items }
    ensures room { IfOk result (λ _. vec_len cells.new + count ≤ vec_capacity cells.new) }
    ensures why { IfErr result (λ fault. fault ≡ LedgerFault.Memory) }
{
    match cells.try_reserve(count) {
        Ok(()) => Ok(()),
        Err(AllocError) => Err(LedgerFault::Memory),
    }
}

// Adds `count` cells that stand for themselves, neither bound nor lost: those of a part, whose numbers are used up though nothing refers to them any
// more.
fn add_cells(cells: &mut Vec<Bound>, count: usize)
    requires room { vec_len cells.old + count ≤ vec_capacity cells.old }
    ensures { cells.new.items ≡ cells.old.items ++ cells_from (length cells.old.items) count }
{
    for _cell in 0..count {
        // Item n of `cells` is cell n, so the length is the next cell's number.
        let number = cells.len() as u64;
        cells.push_reserved(Bound::Cell(number));
    }
}

// The token that takes the place of `token`, the one at the part's call, when a part (a sub-run) is merged: it is on the value that the part yields,
// which `left` has. None where nothing is left of the part. `numbering` says how the part's numbers become those of the enclosing run; the clauses
// ask that the new mark doesn't overflow and isn't 0.
fn comer_of(numbering: Numbering, token: Token, left: Option<Yield>) -> Option<Token>
    requires marks { IfSome left (λ y. (2 ≤ y.mark) × (numbering.mark + y.mark < 2 ^ 64)) }
    requires next { 1 ≤ numbering.mark }
    ensures comes { option_to_list result ≡ comers numbering token left }
    ensures serial { IfSome result (λ t. 1 ≤ t.serial) }
{
    match left {
        // The part's mark 2 becomes the enclosing run's next mark (`numbering.mark`), and so on; the part's mark 1 is that of `token` itself.
        Some(left) => Some(Token {
            serial: numbering.mark + left.mark - 2,
            standing: Standing::On(left.value),
            step: token.step,
        }),
        None => None,
    }
}

// Puts `comer`, the token that a merged part leaves, into the slot of the token at the part's call; both are in the group with the number `group`
// (what runs inside one right side of a `<x<`, one left side of a `;`, or the whole program). Without a `comer` the function removes the token, from
// its group, too. `parked` promises that no token is known to wait that wasn't before.
fn exchange(
    tokens: &mut Tokens,
    groups: &mut Groups,
    slot: usize,
    token: Token,
    group: u32,
    comer: Option<Token>,
)
    requires held { IsHeld tokens.old.items slot token }
    requires serial { IfSome comer (λ t. 1 ≤ t.serial) }
    ensures tokens { (w : Its → ℕ) → weight w (live tokens.new.items) + w token ≡ weight w (live tokens.old.items) + weight w (option_to_list comer) }
    ensures comer { IfSome comer (IsHeld tokens.new.items slot) }
    ensures others { KeepsOthers tokens.old.items slot tokens.new.items }
    ensures parked { StayParked tokens.old tokens.new }
    ensures groups { groups.new.items ≡ groups.old.items }
    ensures sizes { (j : ℕ) → size_of groups.new.sizes j ≡ size_of groups.old.sizes j + weight (λ (t : Its). is_this j group) (option_to_list comer) - is_this j group }
{
    // Only the contract uses `token`.
    let _ = token;
    match comer {
        Some(comer) => tokens.replace(slot, comer, group),
        None => {
            tokens.remove(slot);
            groups.leave(group);
        }
    }
}

impl<P: Run> Ledger<P> {
    /// The call of a definition with values at which the token is, as a task. None where the token isn't at such a call, or an argument has no value;
    /// the contract doesn't say when the answer is None. The task is outermost only if the token is inside no side and no `>x>`.
    pub fn task(&self, inputs: &Inputs<'_, P>, token: &Token) -> Option<SubRunTask>
        ensures stands { IfSome result (λ task. StandsFor P.listing self.now token.now task.definition task.args) }
        ensures outermost { IfSome result (λ task. task.is_outermost ≡ true → token.now.step ≡ 0) }
    {
        let Standing::At(node, scope) = token.standing else {
            return None;
        };
        let Node::Call(definition, list) = inputs.graph.node(node as usize) else {
            return None;
        };
        let mut args = Args::new();
        // `take_values` writes the operands' values over `args`, and is false if one has none.
        if !self.take_values(inputs.graph.operands(list as usize), scope, &mut args) {
            return None;
        }
        Some(SubRunTask {
            definition,
            args,
            // Step 0 is the program as a whole: nothing is around the token.
            is_outermost: token.step == 0,
        })
    }

    // Whether nothing is left of the run: no token, no call that pends and no open side (right side of a `<x<`, left side of a `;`).
    fn is_over(&self) -> bool
        ensures { result ≡ true → (length self.now.tokens ≡ 0) × (length self.now.calls ≡ 0) × (length self.now.groups ≡ 0) × (2 ≤ self.now.next_mark) }
    {
        // The next mark is never under 2: the test shows it to the prover.
        self.tokens.len() == 0
            && self.calls.len() == 0
            && self.groups.len() == 0
            && self.next_mark >= 2
    }

    // The value of the token in this slot and the token's mark, if the run would publish that value next and nothing else is left of the run. None
    // else.
    fn yielded(&self, inputs: &Inputs<'_, P>, slot: usize) -> Option<Yield>
        ensures alone { IfSome result (λ _. (length self.now.tokens ≡ 1) × (length self.now.calls ≡ 0) × (length self.now.groups ≡ 0) × (2 ≤ self.now.next_mark)) }
        ensures token { IfSome result (λ y. (t : Its) × IsHeld self.now.slots slot t × (t.step ≡ 0) × (t.serial ≡ y.mark) × (2 ≤ y.mark) × (what_of (code P.listing) (definitions P.listing) self.now t ≡ Publish y.value)) }
    {
        // Neither is the next mark under 2, nor is a token on a value the first one, whose mark is 1: both tests show it to the prover.
        if self.tokens.len() != 1
            || self.calls.len() > 0
            || self.groups.len() > 0
            || self.next_mark < 2
        {
            return None;
        }
        // None: the slot is free.
        let token = self.tokens.held(slot)?;
        // With a step above 0 the token is inside a side or a `>x>`.
        if token.step > 0 || token.serial < 2 {
            return None;
        }
        match self.what(inputs, &token) {
            Action::Publish(value) => Some(Yield {
                mark: token.serial,
                value,
            }),
            // Something inside the run takes what the token publishes, or the token isn't on a value.
            _ => None,
        }
    }

    // Turns a ledger that has run this task into the task's result, for the enclosing run `W`, which has the same sites and keeps its journal if this
    // run does. Of the task's run nothing is left but `left`, a token on a value; `is_silent` says that the run is known to have published nothing.
    fn part_of<W: Run>(self, task: SubRunTask, is_silent: bool, left: Option<Yield>) -> SubRun<W>
        requires silent { is_silent ≡ true → AreSilent self.journal }
        requires sites { P.sites ≡ W.sites }
        requires keeps { P.keeps ≡ W.keeps }
        requires over { IsOver W.listing W.sites (record { definition = task.definition; args = task.args; entries = self.journal; mark = self.next_mark; calls = self.made; cells = length self.cells - 1; left = left }) }
        ensures { (result.definition ≡ task.definition) × (result.args ≡ task.args) }
    {
        let next_mark = self.next_mark;
        // Calls are numbered from 1, and item 0 of `cells` is no cell.
        let calls = self.calls.next_number() - 1;
        let cells = self.cells.len() - 1;
        let SubRunTask {
            definition,
            args,
            is_outermost: _,
        } = task;
        SubRun {
            definition,
            args,
            // The log stays as it is: only its type names the enclosing run now.
            journal: self.into_log().named::<W>(),
            is_silent,
            next_mark,
            calls,
            cells,
            left,
            program: PhantomData,
        }
    }

    /// Turns a ledger that has run this task into the task's result, for the enclosing run `W`. None if the enclosing run could affect an entry: time
    /// has passed, a call was cancelled, or a site was called that a script answers; or if that isn't known, since a part was merged into a journal
    /// that isn't kept. None also if something is left of the run (a token, a pending call, an open side), with one exception: a run that has
    /// published nothing may have one token left, in slot `last`, on a value that it would publish next.
    pub fn into_sub_run<W: Run>(
        self,
        inputs: &Inputs<'_, P>,
        task: SubRunTask,
        last: Option<usize>,
    ) -> Option<SubRun<W>>
        requires answers { inputs.now.answers.now.sites ≡ W.sites }
        requires sites { P.sites ≡ W.sites }
        requires keeps { P.keeps ≡ W.keeps }
        requires definitions { definitions P.listing ≡ definitions W.listing }
        requires call { source P.listing ≡ call_of task.definition task.args }
        ensures { IfSome result (λ part. (part.definition ≡ task.definition) × (part.args ≡ task.args)) }
    {
        // `are_local` is false if some entry is a tick, a cancel or a call that a script answers: the enclosing run could affect such an entry.
        if !self.journal.are_local(inputs.answers) {
            return None;
        }
        // Whether the run has published nothing.
        let is_silent = self.journal.is_silent();
        if self.is_over() {
            return Some(self.part_of(task, is_silent, None));
        }
        // A token may be left only of a run that has published nothing.
        if !is_silent {
            return None;
        }
        // None if there is no slot `last`, or if more than a token on a value is left.
        let last = self.yielded(inputs, last?)?;
        Some(self.part_of(task, true, Some(last)))
    }

    /// Merges a part, which is a sub-run: the token, which is in the slot `slot`, is at the call that the part has run. A part that has published
    /// something is merged only where the token is inside no side and no `>x>` (the clause `fits`). The part's entries are appended to the journal
    /// under the numbers that they have in this run. Then the token is gone, or a token on the value that the call yields is in its slot. The fault
    /// is Limit if the limit has no room for all of the entries, else Memory; nothing has changed then.
    pub fn append_sub_run(
        &mut self,
        slot: usize,
        token: Token,
        part: &SubRun<P>,
    ) -> Result<(), LedgerFault>
        requires held { IsHeld self.old.slots slot token }
        requires stands { StandsFor P.listing self.old token part.now.definition part.now.args }
        requires fits { Fits part.now token }
        ensures done { IfOk result (λ _. TakesIn self.old self.new token part.now) }
        ensures comer { OnOk result ((t : Its) → IsIn t (comers (numbering self.old token) token part.now.left) → IsHeld self.new.slots slot t) }
        ensures others { OnOk result (KeepsOthers self.old.slots slot self.new.slots) }
        ensures refused { OnErr result (self.new ≡ self.old) }
        ensures why { IfErr result (λ fault. IsUntaken self.old part.now fault) }
    {
        let entries = part.journal.len();
        // The part's entries have to fit below the limit, all of them.
        if entries > self.limit - self.entries {
            return Err(LedgerFault::Limit);
        }
        // How the part's own numbers become those of this run: from the token's mark, the next mark, and how many calls and cells there were before.
        let numbering = Numbering {
            token: token.serial,
            mark: self.next_mark,
            calls: self.calls.next_number() - 1,
            // Item 0 of `cells` is no cell.
            cells: self.cells.len() as u64 - 1,
        };
        // The token on the value that the part yields, if it yields one.
        let comer = comer_of(numbering, token, part.left);
        // The group that the token is a member of.
        let group = self.steps.group_at(token.step);
        // What can be refused comes first: room for the cells, then `append`, which writes the part's entries and uses up the numbers of its calls,
        // or changes nothing. From there on nothing can fail. A token comes for a token at most, so Full isn't asked.
        reserve_cells(&mut self.cells, part.cells)?;
        self.journal
            .append(&part.journal, numbering, &mut self.calls, part.calls)?;
        self.entries += entries;
        // The part's marks from 2 on are new here; its mark 1 is the token's.
        self.next_mark = self.next_mark + part.next_mark - 2;
        add_cells(&mut self.cells, part.cells);
        // Puts that token into the slot, or without one removes the token at the call, from its group, too.
        exchange(
            &mut self.tokens,
            &mut self.groups,
            slot,
            token,
            group,
            comer,
        );
        Ok(())
    }
}
