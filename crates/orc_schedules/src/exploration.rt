//! The search through all schedules of a program, as other crates call it. A *small* term is what is left of the program to run, without the numbers
//! of calls and cells; `Terms` keeps such terms by numbers of their own. A sieve says what a search keeps of what happens, and a `ClaimSite` is a
//! site that a test names. `limit` bounds how many entries the journal of a run has, cancels not counted. A run ends by itself where it has *halted*:
//! all that ran has come to `stop`; or where it is *quiet*: something still waits, for what never happens.

ghost use Rattle.std.specs.Prelude.{◌≡◌, ◌<◌, ◌*◌, ◌^◌, suc, length, true, Some, slice_get, IfOk, OnOk};
ghost use Rattle.orc_rules.specs.Nodes.{source};
ghost use Rattle.orc_search.specs.Nodes.{smalls, Extends};
ghost use Rattle.orc_search.specs.Programs.{small};
ghost use Rattle.orc_search.specs.Sources.{AreNumbered};
ghost use Rattle.orc_schedules.specs.Claimed.{IsClaimSearched};
ghost use Rattle.orc_schedules.specs.Explored.{answers_of, program_of, IsExplored, IsExplorer, IfFails, IfHolds};
ghost use Rattle.orc_schedules.specs.Searched.{IsSearched};
ghost use Rattle.orc_schedules.specs.Seen.{kept_by};

use crate::claimed::ClaimSearched;
use crate::ended::Ended;
use crate::listed::Moves;
use crate::sieve::Sieve;
use crate::tables::Tables;
use crate::watch::Watch;
use orc_claims::claim::Claim;
use orc_rules::answers::Answers;
use orc_rules::program::Program;
use orc_search::moves::Source;
use orc_search::node::{Node, Tip};
use orc_search::source::numbered;
use orc_search::terms::Terms;
use orc_tally::ClaimSite;
use std::alloc::{AllocError, Global};

/// What a search through all schedules came to.
#[derive(Drop)]
pub enum Schedules {
    /// The ends of all runs within the limit of entries that end by themselves, halted or quiet; each is that of some run, of however many entries.
    /// Behind them how many states there are.
    All(Vec<Ended>, usize),
    /// There are more states than the search was to look at, as where a loop goes on publishing.
    TooMany,
    /// A run within the limit of entries, or one to a state that was found, may come to a time of more than 64 bits, which the rules don't allow.
    TooLong,
}

// The number of the small term of the program's node `at`, from 0; None if there is no such node.
fn number_at(numbers: &[usize], at: usize) -> Option<usize>
    ensures { result ≡ slice_get numbers.now at }
{
    match numbers.get(at) {
        Some(number) => Some(*number),
        None => None,
    }
}

// The number of the program's main term, as a small one, among `terms`; that of `stop` if the program has no such node. `numbers` has by node the
// number of its term (`AreNumbered`). The terms that were there stay (`Extends`). The error is refused memory.
fn number_of_source(
    terms: &mut Terms,
    program: &Program,
    numbers: &[usize],
) -> Result<usize, AllocError>
    requires numbers { AreNumbered (smalls terms.old) program.now numbers.now }
    requires all { length numbers.now ≡ length program.now.nodes }
    ensures number { IfOk result (λ n. slice_get (smalls terms.new) n ≡ Some (small (source program.now))) }
    ensures kept { Extends (smalls terms.old) (smalls terms.new) }
{
    match number_at(numbers, program.source()) {
        Some(number) => Ok(number),
        None => {
            let number = terms.number_of(Node::Tip(Tip::Nothing))?;
            Ok(number)
        }
    }
}

// Whether every path of at most `steps` steps, and every run of at most so many entries, stays below the time 2^64 if no wait is longer than
// `longest` units. Such a path has at most one wait before each step, and one after the last.
fn is_in_time(longest: u64, steps: u64) -> bool
    ensures { result ≡ true → suc steps * longest < 2 ^ 64 }
{
    if longest == 0 {
        return true;
    }
    match steps.checked_add(1) {
        Some(waits) => waits.checked_mul(longest).is_some(),
        None => false,
    }
}

/// Makes one search of a program after another. They share the program's terms, the lists of calls that were made and what the terms may do; each has
/// states of its own.
pub struct Explorer<'p> {
    // The program with what answers its calls.
    source: Source<'p>,
    // The number of the program's term, with which each search begins.
    term: usize,
    // What terms may do, as far as it is kept.
    moves: Moves,
    // What is shared, and what the last search found.
    tables: Tables,
}

// Written out, so that a caller's proof sees one call and not the drop of each field.
impl Drop for Explorer<'_> {
    fn drop(self) {
        let Explorer {
            source: _,
            term: _,
            moves: _,
            tables: _,
        } = self;
    }
}

impl<'p> Explorer<'p> {
    /// An explorer of this program, whose calls `answers` answers, before its first search. The error is refused memory.
    pub fn new(
        alloc: Global,
        program: &'p Program,
        answers: &'p Answers,
    ) -> Result<Explorer<'p>, AllocError>
        ensures ready { IfOk result IsExplorer }
        ensures program { IfOk result (λ e. program_of e ≡ program.now) }
        ensures answers { IfOk result (λ e. answers_of e ≡ answers.now) }
    {
        let mut terms = Terms::new(alloc);
        let numbers = numbered(&mut terms, alloc, program)?;
        let term = number_of_source(&mut terms, program, &numbers)?;
        let source = Source {
            program,
            answers,
            numbers,
        };
        let tables = Tables::new(alloc, terms)?;
        Ok(Explorer {
            source,
            term,
            moves: Moves::new(alloc),
            tables,
        })
    }

    // Begins a search, looks at up to `most` states, and says whether these were all. `sieve` says what the search keeps of what happens.
    // `IsExplorer` says that what the searches share is right; after an error it may not be. The error is refused memory, or that a count is past its
    // type: a call has too many arguments, say, or the test names 2^32 sites.
    fn explore(&mut self, alloc: Global, sieve: &Sieve, most: usize) -> Result<bool, AllocError>
        requires { IsExplorer self.old }
        ensures ready { OnOk result (IsExplorer self.new) }
        ensures source { OnOk result (self.new.source ≡ self.old.source) }
        ensures explored { IfOk result (IsExplored (program_of self.old) (answers_of self.old) (kept_by sieve.now) self.new.tables) }
    {
        self.tables.begin(alloc, self.term)?;
        let all = self
            .tables
            .look_at_all(alloc, &self.source, sieve, &mut self.moves, most)?;
        Ok(all)
    }

    /// Searches all schedules of the program for a run in which a claim fails, through `most` states at most; `ClaimSearched` says what each answer
    /// means. `sites` are those that the test of the claim names, in its order; `limit` counts entries without cancels. The error is refused memory,
    /// also where the test names 2^32 sites. After an answer it can search again; after an error it can't.
    pub fn search_claim(
        &mut self,
        alloc: Global,
        sites: &[ClaimSite],
        claim: &Claim,
        most: usize,
        limit: u64,
    ) -> Result<ClaimSearched, AllocError>
        requires { IsExplorer self.old }
        ensures searched { IfOk result (IsClaimSearched (program_of self.old) (answers_of self.old) sites.now claim.now limit) }
        ensures ready { OnOk result (IsExplorer self.new) }
        ensures program { OnOk result (program_of self.new ≡ program_of self.old) }
        ensures answers { OnOk result (answers_of self.new ≡ answers_of self.old) }
    {
        // None is a claim for which a search can't watch.
        let watched = Watch::of_claim(alloc, claim)?;
        let Some(watch) = watched else {
            return Ok(ClaimSearched::NotWatched);
        };
        // The search keeps what the claim names alone; `sites` turn a site's number in the table into that in claims.
        let sieve = Sieve::Named(&watch, sites);
        // Whether the search has looked at all states.
        let all = self.explore(alloc, &sieve, most)?;
        let searched = claimed(alloc, &self.tables, all, claim, limit)?;
        Ok(searched)
    }
}

/// Searches all schedules of a program whose calls `answers` answers, through `most` states at most; `Schedules` says what each answer means. `limit`
/// counts entries without cancels. The error is refused memory.
pub fn search(
    alloc: Global,
    program: &Program,
    answers: &Answers,
    most: usize,
    limit: u64,
) -> Result<Schedules, AllocError>
    ensures all { IfOk result (λ s. IsSearched program.now answers.now limit s) }
{
    let mut explorer = Explorer::new(alloc, program, answers)?;
    // Whether the search has looked at all states; it keeps the publications alone.
    let all = explorer.explore(alloc, &Sieve::Publications, most)?;
    if !all {
        return Ok(Schedules::TooMany);
    }
    let tables = &explorer.tables;
    let states = tables.states.len();
    // Two kinds of paths must stay in time: runs of at most `limit` entries, and a path to each state, which goes through no state twice. `longest`
    // is the longest single wait.
    let steps = limit.max(states as u64);
    if !is_in_time(tables.longest, steps) {
        return Ok(Schedules::TooLong);
    }
    let ended = tables.ended(alloc)?;
    Ok(Schedules::All(ended, states))
}

// The answer of a search for a claim, from its tables; `all` says that it looked at all states, `limit` is the most entries of a run. `Fails` needs
// only that no path to a state that was found can be too long. `Holds` also needs that all states were looked at, and that no run of `limit` entries
// can be too long.
fn claimed(
    alloc: Global,
    tables: &Tables,
    all: bool,
    claim: &Claim,
    limit: u64,
) -> Result<ClaimSearched, AllocError>
    ensures fails { IfOk result (λ s. IfFails tables.now claim.now s) }
    ensures holds { IfOk result (λ s. IfHolds tables.now all claim.now limit s) }
{
    let states = tables.states.len();
    // A path to a state goes through no state twice, so it has no more steps than there are states.
    if !is_in_time(tables.longest, states as u64) {
        return Ok(ClaimSearched::TooLong);
    }
    if let Some(seen) = tables.first_failing(alloc, claim)? {
        return Ok(ClaimSearched::Fails(seen));
    }
    if !all {
        return Ok(ClaimSearched::TooMany);
    }
    if !is_in_time(tables.longest, limit) {
        return Ok(ClaimSearched::TooLong);
    }
    Ok(ClaimSearched::Holds(states))
}

/// Makes one search for a claim, as `Explorer::search_claim` does, and keeps nothing. The answers and errors are those of that call.
pub fn search_claim(
    alloc: Global,
    program: &Program,
    answers: &Answers,
    sites: &[ClaimSite],
    claim: &Claim,
    most: usize,
    limit: u64,
) -> Result<ClaimSearched, AllocError>
    ensures { IfOk result (λ s. IsClaimSearched program.now answers.now sites.now claim.now limit s) }
{
    let mut explorer = Explorer::new(alloc, program, answers)?;
    let searched = explorer.search_claim(alloc, sites, claim, most, limit)?;
    Ok(searched)
}
