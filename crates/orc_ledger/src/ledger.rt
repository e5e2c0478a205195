//! The ledger, a new one, and what it tells of itself. Its invariant (`IsKept`) says above all that the journal leads, by Orc's rules, from the
//! program's term to the marked term (a term with its tokens, pending calls and cells) that its records describe. A *cancel* is the entry with which
//! a pending call goes, since it is inside the right side of a cell that was bound. `P` names the run: its program (`P.listing`), the table of its
//! sites (`P.sites`), the limit of its entries, and whether it keeps its journal.

ghost use Rattle.std.specs.Prelude.{◌≡◌, ◌+◌, ◌<◌, ◌≤◌, ◌∷◌, ◌⊎◌, [], true, false, length, IfOk, IfErr, IfSome, IfNone, OnOk, OnErr};
ghost use Rattle.orc_rules.specs.Timed.{IsIn};
ghost use Rattle.orc_rules.specs.declared.limits.TheConstants.{MOST_ENTRIES};
ghost use Rattle.orc_tables.specs.Tokens.{IsHeld};
ghost use Rattle.orc_journal.specs.declared.journal.Version.TheVariants.{Two};
ghost use Rattle.orc_ledger_spec.specs.Begun.{begun};
ghost use Rattle.orc_ledger_spec.specs.Brought.{FullIsCrowded};
ghost use Rattle.orc_ledger_spec.specs.Calls.{HasRoom, IsRefused};
ghost use Rattle.orc_ledger_spec.specs.Claims.{IsBarred};
ghost use Rattle.orc_log.specs.Logs.{log_with};
ghost use Rattle.orc_rules.specs.Trace.{published};
ghost use Rattle.orc_subrun.specs.Moved.{IsSilent};
ghost use Rattle.orc_ledger_spec.specs.Whole.{IsWhole};
ghost use Rattle.orc_tables.specs.declared.records.Token.{Token as Its};

use crate::claim::Claim;
use orc_calls::Counts;
use orc_env::{Bound, StoredScope};
use orc_indexes::{push_within, reserve};
use orc_journal::Journal;
use orc_ledger_spec::LedgerFault;
use orc_log::{Log, Run};
use orc_rules::entry::Entry;
use orc_rules::limits::{MOST_FRAMES, MOST_GROUPS, MOST_TOKENS};
use orc_rules::value::Value;
use orc_tables::{Crowd, Groups, Pending, Standing, Steps, Token, Tokens};
use std::alloc::{AllocError, Global};
use std::marker::{Model, PhantomData};

/// The records of a run, with its journal. A *token* marks a part of the program's term that runs, a *cell* stands for the value of a variable x of
/// `f <x< g`, and a *group* is what runs inside one right side of a `<x<`, one left side of a `;`, or the whole program.
pub struct Ledger<P: Run> {
    // The most entries that the journal is to have, cancels not counted.
    pub(crate) limit: usize,
    // The journal's entries: held, or only counted if the run doesn't keep its journal.
    pub(crate) journal: Log<P>,
    // How many entries the journal has, cancels not counted: at most `limit`.
    pub(crate) entries: usize,
    // The next mark, by which the journal names a new token, from 2: mark 1 is the first token's. Marks can't overflow: an entry adds two at most,
    // and `MOST_ENTRIES` is small.
    pub(crate) next_mark: u64,
    // The time, in logical units, from 0.
    pub(crate) time: u64,
    // The tokens, each in a slot that it keeps while it lives.
    pub(crate) tokens: Tokens,
    // The calls of sites that pend: they were made and have no answer yet.
    pub(crate) calls: Pending,
    // How often each site that a script answers was called with the same arguments.
    pub(crate) counts: Counts,
    // The scopes: each binds one name, and extends another scope. Scope n is the n-th item of `scopes`, from 1; scope 0 has no names.
    pub(crate) scopes: Vec<StoredScope>,
    // The steps: each enters a side, or the left side of a `>x>`, and is inside another step. They count from 1; step 0 is the program as a whole.
    pub(crate) steps: Steps,
    // The sides that are open (right sides of a `<x<`, left sides of a `;`), each with the number of its members.
    pub(crate) groups: Groups,
    // By the number of a cell, from 1, what it has become: a value, or void if its right side halted without one. A cell that is neither bound nor
    // lost stands for itself.
    pub(crate) cells: Vec<Bound>,
    // Lists that `bind` fills with what is inside a right side, kept so that it rarely asks for memory.
    pub(crate) crowd: Crowd,
    // Names the run, for contracts alone.
    pub(crate) program: PhantomData<P>,
}

// What contracts see of a ledger: its fields as numbers and lists (`Records`), with the tokens once by themselves and once in their slots. The
// invariant `IsKept` says above all that the journal leads, by Orc's rules, to what the records describe.
impl<P: Run> Model for Ledger<P> {
    ghost use Rattle.orc_ledger_spec.specs.Records.{Records};
    ghost use Rattle.orc_ledger_spec.specs.Kept.{IsKept};
    ghost use Rattle.orc_tables.specs.Tokens.{live};

    ghost Value = { Records };

    ghost view = { λ b. record { limit = b.limit; journal = b.journal.entries; entries = b.entries; next_mark = b.next_mark; now = b.time; made = b.calls.made; tokens = live b.tokens.items; slots = b.tokens.items; calls = b.calls.items; scopes = b.scopes.items; steps = b.steps.items; groups = b.groups.items; cells = b.cells.items } };

    ghost invariant = { λ b. IsKept P.listing P.sites P.limit b.journal.version b.counts b.groups.sizes b.tokens.parked (record { limit = b.limit; journal = b.journal.entries; entries = b.entries; next_mark = b.next_mark; now = b.time; made = b.calls.made; tokens = live b.tokens.items; slots = b.tokens.items; calls = b.calls.items; scopes = b.scopes.items; steps = b.steps.items; groups = b.groups.items; cells = b.cells.items }) };
}

// Written out, so that each exit of a function that has a ledger drops it by one call. Each field that has memory of its own is dropped.
impl<P: Run> Drop for Ledger<P> {
    fn drop(self) {
        let Ledger {
            limit: _,
            journal,
            entries: _,
            next_mark: _,
            time: _,
            tokens,
            calls,
            counts,
            scopes,
            steps,
            groups,
            cells,
            crowd,
            program: _,
        } = self;
        drop(journal);
        drop(tokens);
        drop(calls);
        drop(counts);
        drop(scopes);
        drop(steps);
        drop(groups);
        drop(cells);
        drop(crowd);
    }
}

// Writes an entry behind the journal's last one. The only fault is `Memory`, and then nothing changes.
#[inline(always)]
pub(crate) fn write<P: Run>(journal: &mut Log<P>, entry: &Entry) -> Result<(), LedgerFault>
    ensures added { OnOk result (journal.new ≡ log_with journal.old (entry.now ∷ [])) }
    ensures refused { OnErr result (journal.new ≡ journal.old) }
    ensures why { IfErr result (λ fault. fault ≡ LedgerFault.Memory) }
{
    match journal.push(entry) {
        Ok(()) => Ok(()),
        Err(_) => Err(LedgerFault::Memory),
    }
}

// Writes an entry, then asks the claim (what another worker may have won first), and removes the entry if the claim is lost. The clause `silent` asks
// that the entry publishes nothing, since `truncate` removes no other. Memory if memory is refused, Unclaimed if the claim is lost; the journal is
// then as it was.
#[inline(always)]
pub(crate) fn write_claimed<P: Run, C: Claim>(
    journal: &mut Log<P>,
    entry: &Entry,
    claim: &mut C,
) -> Result<(), LedgerFault>
    requires silent { IsSilent entry.now }
    ensures added { OnOk result (journal.new ≡ log_with journal.old (entry.now ∷ [])) }
    ensures got { OnOk result (C.got claim.old claim.new) }
    ensures refused { OnErr result (journal.new ≡ journal.old) }
    ensures why { IfErr result (λ fault. IsBarred (claim.new ≡ claim.old) (C.lost claim.old claim.new) (λ reason. reason ≡ LedgerFault.Memory) fault) }
{
    // The journal's length before the entry, to which it is cut if the claim is lost.
    let entries = journal.len();
    write(journal, entry)?;
    if claim.ask() {
        return Ok(());
    }
    journal.truncate(entries);
    Err(LedgerFault::Unclaimed)
}

impl<P: Run> Ledger<P> {
    /// A new run at time 0: token 1 is on the program's main term, whose node is `root`, in slot 0. The journal is to have at most `limit` entries (1
    /// to `MOST_ENTRIES`), cancels not counted, and its entries are held if `keeps` is true, else only counted. The clauses ask that `limit`, `keeps`
    /// and `root` are those of the run `P`. The only fault is `Memory`.
    pub fn begin(
        alloc: Global,
        keeps: bool,
        limit: usize,
        root: u32,
    ) -> Result<Ledger<P>, LedgerFault>
        requires keeps { keeps ≡ P.keeps }
        requires limit { (1 ≤ limit) × (limit ≤ MOST_ENTRIES) }
        requires named { limit ≡ P.limit }
        requires root { root ≡ P.listing.root }
        ensures begun { IfOk result (λ s. s ≡ begun limit root) }
        ensures why { IfErr result (λ fault. fault ≡ LedgerFault.Memory) }
    {
        let mut cells = Vec::new(alloc);
        reserve(&mut cells)?;
        // There is no cell 0: a void item takes its place, so that cell n is item n.
        push_within(&mut cells, Bound::Void);
        let mut groups = Groups::begin(alloc)?;
        // The first token is a member of the program's own group, number 0.
        groups.join(0);
        // The token is at the node `root`, in scope 0, which has no names, and in step 0, the program as a whole.
        let tokens = Tokens::begin(
            alloc,
            Token {
                serial: 1,
                standing: Standing::At(root, 0),
                step: 0,
            },
        )?;
        let calls = Pending::begin(alloc)?;
        Ok(Ledger {
            limit,
            journal: Log::new(alloc, keeps),
            entries: 0,
            next_mark: 2,
            time: 0,
            tokens,
            calls,
            counts: Counts::new(alloc),
            scopes: Vec::new(alloc),
            steps: Steps::new(alloc),
            groups,
            cells,
            crowd: Crowd::new(alloc),
            program: PhantomData,
        })
    }

    /// A law, and nothing runs: the journal leads, by the rules, from the program's term to a place (a marked term and a time) at the ledger's time
    /// where no cancel is due; and it has as many entries as `entries` says, which is within the limit.
    pub fn is_whole(&self)
        ensures { IsWhole P.listing P.sites self.now }
    {
        // To name a field shows the prover the invariant; nothing runs.
        let _journal = &self.journal;
    }

    /// A law, and nothing runs: the ledger's limit is that of the run `P`.
    pub fn keeps_limit(&self)
        ensures { self.now.limit ≡ P.limit }
    {
        // To name a field shows the prover the invariant; nothing runs.
        let _journal = &self.journal;
    }

    /// A law, and nothing runs: where a move, a call of a site or the end of a group would be refused as Full (there are as many tokens, groups or
    /// left sides of a `>x>` around a token as there may be), the journal shows why. Its entries can have made so many.
    pub fn full_is_crowded(&self)
        ensures { FullIsCrowded P.listing self.now }
    {
        // To name a field shows the prover the invariant; nothing runs.
        let _journal = &self.journal;
    }

    /// The journal of a run that keeps it, as the clause `keeps` asks. Nothing else of the ledger is left.
    pub fn into_journal(self) -> Journal
        requires keeps { P.keeps ≡ true }
        ensures entries { result.entries ≡ self.journal }
        ensures version { result.version ≡ Two }
    {
        self.into_log().into_journal()
    }

    /// The values that the run has published, in order, whether it keeps its journal or not. Nothing else of the ledger is left. The error is refused
    /// memory.
    pub fn into_published(self) -> Result<Vec<Value>, AllocError>
        ensures { IfOk result (λ values. values.items ≡ published self.journal) }
    {
        self.into_log().into_published()
    }

    // The log of the run: its entries, held or only counted. Nothing else of the ledger is left.
    pub(crate) fn into_log(self) -> Log<P>
        ensures entries { result.entries ≡ self.journal }
        ensures version { result.version ≡ Two }
    {
        let Ledger {
            limit: _,
            journal,
            entries: _,
            next_mark: _,
            time: _,
            tokens,
            calls,
            counts,
            scopes,
            steps,
            groups,
            cells,
            crowd,
            program: _,
        } = self;
        drop(tokens);
        drop(calls);
        drop(counts);
        drop(scopes);
        drop(steps);
        drop(groups);
        drop(cells);
        drop(crowd);
        journal
    }

    /// How many entries the journal has, the cancels left out.
    pub fn entries(&self) -> usize
        ensures { result ≡ self.now.entries }
    {
        self.entries
    }

    /// The most entries that the journal is to have, the cancels left out.
    pub fn limit(&self) -> usize
        ensures { result ≡ self.now.limit }
    {
        self.limit
    }

    /// The time of the run, in logical units, from 0.
    pub fn time(&self) -> u64
        ensures { result ≡ self.now.now }
    {
        self.time
    }

    /// The mark that the next new token gets in the journal, from 2 on: mark 1 is the first token's.
    pub fn next_mark(&self) -> u64
        ensures { result ≡ self.now.next_mark }
    {
        self.next_mark
    }

    /// How many tokens (running parts of the program's term) there are. Pending calls don't count.
    pub fn token_count(&self) -> usize
        ensures { result ≡ length self.now.tokens }
    {
        self.tokens.len()
    }

    /// The token with this serial, its mark in the journal, which isn't 0, if it is in the slot with this number; None if it isn't there any more.
    #[inline(always)]
    pub fn token(&self, slot: usize, serial: u64) -> Option<Token>
        requires { 1 ≤ serial }
        ensures held { IfSome result (λ t. IsHeld self.now.slots slot t × (t.serial ≡ serial) × IsIn t self.now.tokens) }
        ensures gone { IfNone result ((t : Its) → IsHeld self.now.slots slot t → t.serial ≡ serial → ⊥) }
    {
        // The match gives what it gets: it only splits the proof into two cases.
        match self.tokens.get(slot, serial) {
            Some(token) => Some(token),
            None => None,
        }
    }

    /// The token in the slot with this number; None if the slot is free or isn't there.
    #[inline(always)]
    pub fn held(&self, slot: usize) -> Option<Token>
        ensures held { IfSome result (λ t. IsHeld self.now.slots slot t × IsIn t self.now.tokens) }
        ensures none { IfNone result ((t : Its) → IsHeld self.now.slots slot t → ⊥) }
    {
        // The match gives what it gets: it only splits the proof into two cases.
        match self.tokens.held(slot) {
            Some(token) => Some(token),
            None => None,
        }
    }

    /// The journal of a run that keeps it, as the clause `keeps` asks. A run that only counts its entries has none.
    pub fn journal(&self) -> &Journal
        requires keeps { P.keeps ≡ true }
        ensures entries { result.now.entries ≡ self.now.journal }
        ensures version { result.now.version ≡ Two }
    {
        self.journal.journal()
    }

    /// How many entries the journal has, the cancels too; `entries` leaves them out.
    pub fn journal_len(&self) -> usize
        ensures { result ≡ length self.now.journal }
    {
        self.journal.len()
    }

    /// Asks whether the limits allow one more entry, with this many more `tokens` and `groups` (0 or 1 each) and a token inside `depth` left sides of
    /// a `>x>` (0 where none is entered). Ok means that they do; nothing is written. Full where there would be more than `MOST_TOKENS`, `MOST_GROUPS`
    /// or `MOST_FRAMES`, else Limit where the journal has as many entries as its limit.
    #[inline(always)]
    pub fn within(&self, tokens: usize, groups: usize, depth: u32) -> Result<(), LedgerFault>
        requires { (tokens ≤ 1) × (groups ≤ 1) }
        ensures why { IfErr result (λ fault. IsRefused self.now tokens groups depth fault) }
        ensures limits { IfErr result (λ fault. (fault ≡ LedgerFault.Full) ⊎ (fault ≡ LedgerFault.Limit)) }
        ensures room { OnOk result (self.now.entries < self.now.limit) }
        ensures places { OnOk result (HasRoom self.now tokens groups depth) }
    {
        // Tokens and pending calls share one limit: the first test keeps the subtraction in the second from going below 0. One of `MOST_GROUPS` is
        // the program's own group, which isn't in the table.
        if self.tokens.len() > MOST_TOKENS - tokens
            || self.calls.len() > MOST_TOKENS - tokens - self.tokens.len()
            || self.groups.len() > MOST_GROUPS - 1 - groups
            || depth as usize > MOST_FRAMES
        {
            return Err(LedgerFault::Full);
        }
        if self.entries >= self.limit {
            return Err(LedgerFault::Limit);
        }
        Ok(())
    }
}
