//! The journal of a run, which holds all of its entries or none. Of entries that aren't held it knows how many they are, what they publish, and
//! whether they are *local*: nothing outside the run affects them (no tick, no cancel, no call that a script answers). Contracts alone can name these
//! entries, by a ghost list, the *past*. A *part* is the log of a sub-run: of a call of a definition that was run by itself. `log_with c es` is the
//! log c with the entries es behind its own. A *token* marks a part of the program's term that runs, and entries name it by its mark. A *cell* stands
//! for the x of an opened `f <x< g`; a *bind* gives it its value. `answers` is the table that answers the run's calls of sites. `calls` are the run's
//! pending calls: contracts have those as `items`, and how many calls the run has made as `made`. `numbering` says under which numbers the tokens,
//! calls and cells of a part stand in this run, and `moved` gives an entry these numbers.

ghost use Rattle.std.specs.Prelude.{◌≡◌, ◌≢◌, ◌+◌, ◌≤◌, ◌^◌, ◌++◌, ◌∷◌, [], ℕ, List, true, false, length, map, take, drop, IfOk, IfSome, IfNone, OnOk, OnErr};
ghost use Rattle.std.specs.List.{slice_get};
ghost use Rattle.orc_rules.specs.declared.entry.Entry.{Entry as EntryOf};
ghost use Rattle.orc_rules.specs.declared.entry.Entry.TheVariants.{Call, Bind, Cancel};
ghost use Rattle.orc_rules.specs.declared.limits.TheConstants.{MOST_ARGUMENTS};
ghost use Rattle.orc_rules.specs.Trace.{published};
ghost use Rattle.orc_rules.specs.Sites.{Site};
ghost use Rattle.orc_subrun.specs.Moved.{moved, IsLocal, AreLocal, AreSilent};
ghost use Rattle.orc_log.specs.Logs.{log_with};

use crate::ghost_list::{GhostList, ghost_list_of};
use crate::run::Run;
use orc_journal::{Journal, Version};
use orc_rules::answers::Answers;
use orc_rules::entry::Entry;
use orc_rules::value::Value;
use orc_subrun::Numbering;
use orc_tables::Pending;
use std::alloc::{AllocError, Global};
use std::marker::{Model, PhantomData};

/// The most entries: more than any memory has room for, and so few that sums of lengths don't overflow.
const MOST: usize = 1 << 62;

/// The journal of a run. Where the run keeps it, it holds all entries; else none.
#[derive(Drop)]
pub struct Log<P: Run> {
    // For the list that `into_published` makes of a journal that is held.
    alloc: Global,
    // Whether entries are held (`P.keeps`).
    keeps: bool,
    // The entries, where they are held.
    held: Journal,
    // The entries that aren't held, for contracts alone.
    past: GhostList<Entry>,
    // How many entries aren't held.
    passed: usize,
    // The values that the entries which aren't held publish, in order.
    published: Vec<Value>,
    // Whether all entries that aren't held are known to be local. True while there are none.
    is_local: bool,
    // Names the run, for contracts alone.
    program: PhantomData<P>,
}

// Contracts see the version and all entries, those of the past before those that are held. By `IsKnown` the fields are right about the past, which is
// empty where the run keeps its journal; where it doesn't, nothing is held.
impl<P: Run> Model for Log<P> {
    ghost use Rattle.std.specs.Prelude.{◌≡◌, length, ◌++◌};
    ghost use Rattle.orc_log.specs.Logs.{Logged, IsKnown};

    ghost Value = { Logged };

    ghost view = { λ c. record { version = c.held.version; entries = c.past.items ++ c.held.entries } };

    ghost invariant = { λ c. (c.keeps ≡ P.keeps) × IsKnown P.sites c.keeps c.past.items c.passed c.published.items c.is_local (length c.held.entries) };
}

// A ghost list of the `items` that the caller's proof picks: the contract promises no more. `push` picks the past, the entries that aren't held, with
// this entry behind them. At run time no argument is used; the proof names them.
fn past_with_entry(past: &GhostList<Entry>, entry: &Entry) -> GhostList<Entry>
    ghost items: { List EntryOf }
    ensures { result.items ≡ items }
{
    let _ = past;
    let _ = entry;
    ghost_list_of::<Entry>()
}

// A ghost list of the `items` that the caller's proof picks: the contract promises no more. `push_call` picks the past, the entries that aren't held,
// with this call behind them. At run time no argument is used; the proof names them.
fn past_with_call(
    past: &GhostList<Entry>,
    token: u64,
    call: u64,
    site: u32,
    args: &[Value],
) -> GhostList<Entry>
    ghost items: { List EntryOf }
    ensures { result.items ≡ items }
{
    let _ = past;
    let _ = (token, call, site);
    let _ = args;
    ghost_list_of::<Entry>()
}

// A ghost list of the `items` that the caller's proof picks: the contract promises no more. `push_bind` picks the past, the entries that aren't held,
// with this bind and its cancels behind them. At run time no argument is used; the proof names them.
fn past_with_bind(
    past: &GhostList<Entry>,
    token: u64,
    cell: u64,
    value: Value,
    cancelled: &[u64],
) -> GhostList<Entry>
    ghost items: { List EntryOf }
    ensures { result.items ≡ items }
{
    let _ = past;
    let _ = (token, cell);
    let _ = value;
    let _ = cancelled;
    ghost_list_of::<Entry>()
}

// A ghost list of the `items` that the caller's proof picks: the contract promises no more. `truncate` picks the first `len` entries of the past,
// which are those that aren't held. At run time no argument is used; the proof names them.
fn first_of_past(past: &GhostList<Entry>, len: usize) -> GhostList<Entry>
    ghost items: { List EntryOf }
    ensures { result.items ≡ items }
{
    let _ = past;
    let _ = len;
    ghost_list_of::<Entry>()
}

// A ghost list of the `items` that the caller's proof picks: the contract promises no more. `append_known` picks the past, the entries that aren't
// held, with those of a part (the log of a sub-run) behind them, under the numbers that they have in this run. At run time no argument is used; the
// proof names them.
fn past_with_part<P: Run>(
    past: &GhostList<Entry>,
    part: &Log<P>,
    numbering: Numbering,
) -> GhostList<Entry>
    ghost items: { List EntryOf }
    ensures { result.items ≡ items }
{
    let _ = past;
    let _ = part;
    let _ = numbering;
    ghost_list_of::<Entry>()
}

// Whether `more` entries may still be held beside those that are: at most `MOST` in all. Where not, callers answer as if memory were refused.
#[inline(always)]
fn has_room(held: &Journal, more: usize) -> bool
    ensures { result ≡ true → length held.now.entries + more ≤ 2 ^ 62 }
{
    more <= MOST && held.len() <= MOST - more
}

// Adds `more` to a count, if it stays within `MOST`. Else the error is as if memory were refused, and the count stays.
#[inline(always)]
fn count_more(count: &mut usize, more: usize) -> Result<(), AllocError>
    requires { count.old ≤ 2 ^ 62 }
    ensures counted { OnOk result (count.new ≡ count.old + more) }
    ensures few { count.new ≤ 2 ^ 62 }
    ensures refused { OnErr result (count.new ≡ count.old) }
{
    if more > MOST - *count {
        return Err(AllocError);
    }
    *count += more;
    Ok(())
}

// Whether something outside the run may affect an entry: it is a tick, a cancel, or a call (a script may answer it). `false` is certain, `true` is
// not.
#[inline(always)]
fn may_bear(entry: &Entry) -> bool
    ensures { result ≡ false → (sites : List Site) → IsLocal sites entry.now }
{
    matches!(
        entry,
        Entry::Tick(_) | Entry::Cancel(_) | Entry::Call(_, _, _, _)
    )
}

// Adds the value that an entry publishes, if it publishes one. The error is refused memory, and then nothing changes.
#[inline(always)]
fn add_published(values: &mut Vec<Value>, entry: &Entry) -> Result<(), AllocError>
    ensures added { OnOk result (values.new.items ≡ values.old.items ++ published (entry.now ∷ [])) }
    ensures refused { OnErr result (values.new.items ≡ values.old.items) }
{
    match entry {
        Entry::Publish(_, value) => match values.push(*value) {
            Ok(()) => Ok(()),
            Err(_) => Err(AllocError),
        },
        // No other entry publishes: a `send` or a `bind` passes a value on inside the program.
        _ => Ok(()),
    }
}

// Appends the entries of `part`, the journal of a sub-run, under the numbers that they have in this run, and has `calls` skip the numbers of the
// part's calls of sites, of which there are `made`. If memory is refused, nothing changes.
fn append_held(
    held: &mut Journal,
    part: &Journal,
    numbering: Numbering,
    calls: &mut Pending,
    made: u64,
) -> Result<(), AllocError>
    ensures items { calls.new.items ≡ calls.old.items }
    ensures version { held.new.version ≡ held.old.version }
    ensures added { OnOk result (held.new.entries ≡ held.old.entries ++ map (moved numbering) part.now.entries) }
    ensures made { OnOk result (calls.new.made ≡ calls.old.made + made) }
    ensures refused { OnErr result ((held.new ≡ held.old) × (calls.new.made ≡ calls.old.made)) }
    ensures room { OnOk result (length held.new.entries ≤ 2 ^ 62) }
{
    if !has_room(held, part.len()) {
        return Err(AllocError);
    }
    let len = held.len();
    held.append(part, numbering)?;
    // The numbers come last: where memory for them is refused, the entries are taken back.
    let passed = calls.skip_numbers(made);
    if passed.is_err() {
        held.truncate(len);
    }
    passed
}

impl<P: Run> Log<P> {
    /// A log without entries. Those that are added are held if the run `keeps` its journal, else only counted. Its version is the one with cancels.
    pub fn new(alloc: Global, keeps: bool) -> Log<P>
        requires { keeps ≡ P.keeps }
        ensures { result ≡ record { version = Version.Two; entries = [] } }
    {
        Log {
            alloc,
            keeps,
            held: Journal::new(alloc, Version::Two),
            past: ghost_list_of::<Entry>(),
            passed: 0,
            published: Vec::new(alloc),
            is_local: true,
            program: PhantomData,
        }
    }

    /// How many entries there are, held or not.
    #[inline(always)]
    pub fn len(&self) -> usize
        ensures entries { result ≡ length self.now.entries }
    {
        // Either all entries are held or none is, so one of the two counts is 0.
        self.passed + self.held.len()
    }

    /// Adds an entry at the end. The error is refused memory, and then nothing changes.
    #[inline(always)]
    pub fn push(&mut self, entry: &Entry) -> Result<(), AllocError>
        ensures added { OnOk result (self.new ≡ log_with self.old (entry.now ∷ [])) }
        ensures refused { OnErr result (self.new ≡ self.old) }
    {
        // If the run keeps its journal, the entry is held.
        if self.keeps {
            if !has_room(&self.held, 1) {
                return Err(AllocError);
            }
            return self.held.push(entry);
        }
        // Only the count could get too great: the entries aren't held. It is answered as if memory were refused.
        if self.passed >= MOST {
            return Err(AllocError);
        }
        // The only step that can fail here comes first.
        add_published(&mut self.published, entry)?;
        self.past = past_with_entry(&self.past, entry);
        self.passed += 1;
        // A call that comes this way counts as not local: which sites have scripts isn't at hand here. `push_call` asks.
        if may_bear(entry) {
            self.is_local = false;
        }
        Ok(())
    }

    /// Adds a `call` as `push` does, without an `Entry`: the arguments, `MOST_ARGUMENTS` at most, are copied once. `token` is the caller's mark,
    /// `call` the call's number.
    #[inline(always)]
    pub fn push_call(
        &mut self,
        answers: &Answers,
        token: u64,
        call: u64,
        site: u32,
        args: &[Value],
    ) -> Result<(), AllocError>
        requires answers { answers.now.sites ≡ P.sites }
        requires few { length args.now ≤ MOST_ARGUMENTS }
        ensures added { OnOk result (self.new ≡ log_with self.old (Call token call site args.now ∷ [])) }
        ensures refused { OnErr result (self.new ≡ self.old) }
    {
        // If the run keeps its journal, the entry is held.
        if self.keeps {
            if !has_room(&self.held, 1) {
                return Err(AllocError);
            }
            return self.held.push_call(token, call, site, args);
        }
        count_more(&mut self.passed, 1)?;
        self.past = past_with_call(&self.past, token, call, site, args);
        // A script's answer depends on the calls that the whole run has made before, so the call isn't local.
        if answers.is_scripted(site) {
            self.is_local = false;
        }
        Ok(())
    }

    /// Adds a `bind` and, behind it, the cancels of the calls with these numbers, in their order. The error is refused memory, and then nothing
    /// changes.
    pub fn push_bind(
        &mut self,
        token: u64,
        cell: u64,
        value: Value,
        cancelled: &[u64],
    ) -> Result<(), AllocError>
        ensures added { OnOk result (self.new ≡ log_with self.old (Bind token cell value ∷ map Cancel cancelled.now)) }
        ensures refused { OnErr result (self.new ≡ self.old) }
    {
        // The bind and its cancels.
        let more = cancelled.len().saturating_add(1);
        // If the run keeps its journal, the entries are held.
        if self.keeps {
            if !has_room(&self.held, more) {
                return Err(AllocError);
            }
            return self.held.push_bind(token, cell, value, cancelled);
        }
        count_more(&mut self.passed, more)?;
        self.past = past_with_bind(&self.past, token, cell, value, cancelled);
        // A bind is local, a cancel isn't.
        self.is_local &= cancelled.is_empty();
        Ok(())
    }

    /// Removes the entries behind the first `len`, none of which may be a publication. If there are no more than `len`, all stay.
    pub fn truncate(&mut self, len: usize)
        requires { AreSilent (drop len self.old.entries) }
        ensures { self.new ≡ record { version = self.old.version; entries = take len self.old.entries } }
    {
        if self.keeps {
            self.held.truncate(len);
        } else if len < self.passed {
            // `published` stays right, since what goes publishes nothing; and fewer entries are as local as more.
            self.past = first_of_past(&self.past, len);
            self.passed = len;
        }
    }

    /// Whether all entries are known to be local: no tick, no cancel, no call that a script answers. `false` isn't certain: a log that holds no
    /// entries says so for good once a part was appended.
    pub fn are_local(&self, answers: &Answers) -> bool
        requires { answers.now.sites ≡ P.sites }
        ensures { result ≡ true → AreLocal P.sites self.now.entries }
    {
        // `is_local` speaks of the entries that aren't held, `held` of those that are. There are never entries of both kinds.
        self.is_local && self.held.are_local(answers)
    }

    /// Whether no entry is a publication. The contract promises it of `true` alone.
    pub fn is_silent(&self) -> bool
        ensures { result ≡ true → AreSilent self.now.entries }
    {
        self.published.is_empty() && self.held.is_silent()
    }

    /// Appends the entries of `part`, the log of a sub-run, under the numbers that they have in this run, and has `calls` skip the numbers of its
    /// calls of sites: there are `made` of them, and none pends. The error is refused memory, and then nothing changes.
    pub fn append(
        &mut self,
        part: &Log<P>,
        numbering: Numbering,
        calls: &mut Pending,
        made: u64,
    ) -> Result<(), AllocError>
        ensures items { calls.new.items ≡ calls.old.items }
        ensures version { OnOk result (self.new.version ≡ self.old.version) }
        ensures added { OnOk result (self.new.entries ≡ self.old.entries ++ map (moved numbering) part.now.entries) }
        ensures made { OnOk result (calls.new.made ≡ calls.old.made + made) }
        ensures refused { OnErr result ((self.new ≡ self.old) × (calls.new.made ≡ calls.old.made)) }
    {
        // If the run keeps its journal, the part's entries are held, too.
        if self.keeps {
            append_held(&mut self.held, &part.held, numbering, calls, made)
        } else {
            self.append_known(part, numbering, calls, made)
        }
    }

    // Appends the part, the log of a sub-run, to a log that holds no entries: adds its count and its published values, and has `calls` skip the
    // numbers of the `made` calls of sites. It doesn't follow whether the part's entries are local, so this isn't known any more.
    fn append_known(
        &mut self,
        part: &Log<P>,
        numbering: Numbering,
        calls: &mut Pending,
        made: u64,
    ) -> Result<(), AllocError>
        requires { P.keeps ≡ false }
        ensures items { calls.new.items ≡ calls.old.items }
        ensures version { OnOk result (self.new.version ≡ self.old.version) }
        ensures added { OnOk result (self.new.entries ≡ self.old.entries ++ map (moved numbering) part.now.entries) }
        ensures made { OnOk result (calls.new.made ≡ calls.old.made + made) }
        ensures refused { OnErr result ((self.new ≡ self.old) × (calls.new.made ≡ calls.old.made)) }
    {
        // Count, values and numbers in turn. If one is refused, those before it are put back: `passed` and `known` are what the counts were before.
        let passed = self.passed;
        count_more(&mut self.passed, part.passed)?;
        let known = self.published.len();
        match self.published.extend_from_slice(&part.published) {
            Ok(()) => {}
            Err(_) => {
                self.passed = passed;
                return Err(AllocError);
            }
        }
        match calls.skip_numbers(made) {
            Ok(()) => {}
            Err(_) => {
                self.passed = passed;
                self.published.truncate(known);
                return Err(AllocError);
            }
        }
        self.past = past_with_part(&self.past, part, numbering);
        self.is_local = false;
        Ok(())
    }

    /// The entry at a place, from 0, where cancels count. None past the end, and everywhere if the run doesn't keep its journal.
    pub fn get(&self, at: usize) -> Option<Entry>
        ensures held { IfSome result (λ entry. slice_get self.now.entries at ≡ Some entry) }
        ensures none { IfNone result (P.keeps ≡ true → length self.now.entries ≤ at) }
    {
        if self.keeps { self.held.get(at) } else { None }
    }

    /// The whole journal, of a run that keeps it; the clause asks for that.
    pub fn journal(&self) -> &Journal
        requires { P.keeps ≡ true }
        ensures entries { result.now.entries ≡ self.now.entries }
        ensures version { result.now.version ≡ self.now.version }
    {
        &self.held
    }

    /// The whole journal, of a run that keeps it; the clause asks for that. The log itself goes.
    pub fn into_journal(self) -> Journal
        requires { P.keeps ≡ true }
        ensures entries { result.entries ≡ self.entries }
        ensures version { result.version ≡ self.version }
    {
        self.held
    }

    /// The values that its entries publish, in order. The error is refused memory.
    pub fn into_published(self) -> Result<Vec<Value>, AllocError>
        ensures { IfOk result (λ values. values.items ≡ published self.entries) }
    {
        // If the run keeps its journal, the values are read out of the held entries. Else they were noted when the entries came.
        if self.keeps {
            self.held.published(self.alloc)
        } else {
            Ok(self.published)
        }
    }

    /// This log as one of another run `W`, which has the same sites and keeps its journal likewise. Its entries stay the same: only the type changes.
    pub fn named<W: Run>(self) -> Log<W>
        requires sites { P.sites ≡ W.sites }
        requires keeps { P.keeps ≡ W.keeps }
        ensures { result ≡ self }
    {
        Log {
            alloc: self.alloc,
            keeps: self.keeps,
            held: self.held,
            past: self.past,
            passed: self.passed,
            published: self.published,
            is_local: self.is_local,
            program: PhantomData,
        }
    }
}
