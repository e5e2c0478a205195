//! The tables of a search: what it has found, and the steps by which it finds more. A state (`Key`) is three numbers: of its term, of its list of
//! calls (in `counts`), and of its list of what was seen (in `lists`), as far as the sieve keeps it. A `Successor` is a step of a term: what is seen
//! of it, and the number of the term after it; `Moves` keeps such steps for later. A `Source` is the program with the table that answers its calls
//! (`answers`). The *sieve* says what a search keeps of what happens. An *early* step leaves the other steps of its term as they are, so it may go
//! first.
//!
//! In contracts `AreKnown` says that all numbers in the tables are of something, `IsKnown` that those of a state are, `Keeps` that all that was there
//! stays with its number, `reached` is the list of the states that the numbers mean, and `outcomes` that of the ends.
//!
//! The error of a call that searches is refused memory, or one of the sieve's or of `successors`: a count past its type, which is one of a call's
//! arguments, of calls, of nested prunings, or of the sites that a test names. The tables may have more in them then, and the search is over.
//! Questions to the tables (`&self`) fail by refused memory alone.

ghost use Rattle.std.specs.Prelude.{◌≡◌, ◌<◌, ◌≤◌, ◌∷◌, [], ℕ, List, length, map, true, false, Some, slice_get, IfSome, IfNone, IfOk, OnOk};
ghost use Rattle.orc_rules.specs.Sites.{Site};
ghost use Rattle.orc_rules.specs.Timed.{IsIn};
ghost use Rattle.orc_search.specs.declared.successor.Successor.{Successor as Next};
ghost use Rattle.orc_search.specs.Graphs.{Ending};
ghost use Rattle.orc_search.specs.Nodes.{small_at, smalls};
ghost use Rattle.orc_search.specs.Programs.{small_definitions};
ghost use Rattle.orc_search.specs.Ready.{IsReady};
ghost use Rattle.orc_search.specs.States.{State};
ghost use Rattle.orc_search.specs.Successors.{least_left, some_time};
ghost use Rattle.orc_schedules.specs.Adding.{end_seen, holds_by, outcome_of, shown_of, AddsOnly, AddsEnd, IsAfterOne, IsWaited, AreFound};
ghost use Rattle.orc_schedules.specs.Listed.{AreListed};
ghost use Rattle.orc_schedules.specs.Reached.{EndSeen, end_of};
ghost use Rattle.orc_schedules.specs.Seen.{kept_by};
ghost use Rattle.orc_schedules.specs.Tables.{AreKnown, IsBegun, IsKnown, Keeps, IsDone, IsLookedAt, AreDone, LeadsTo, after, waited, ending_if, reached, reached_at, outcome_at, outcomes, seen_at};

use crate::claimed::Seen;
use crate::counts::Counts;
use crate::ended::Ended;
use crate::judging::fails_by;
use crate::listed::Moves;
use crate::lists::Lists;
use crate::once::Once;
use crate::sieve::Sieve;
use crate::states::Key;
use crate::told::Told;
use orc_claims::claim::Claim;
use orc_outcome::End;
use orc_rules::answers::Answers;
use orc_search::change::{Change, changed};
use orc_search::moves::Source;
use orc_search::successor::Successor;
use orc_search::terms::Terms;
use std::alloc::{AllocError, Global};

// What a search has found. The first two are shared by all searches of a program, the others begin anew with each.
pub(crate) struct Tables {
    // Small terms by their numbers.
    pub(crate) terms: Terms,
    // Lists of calls that were made.
    pub(crate) counts: Counts,
    // Lists of what was seen.
    pub(crate) lists: Lists,
    // The states in the order in which they were found, which is that in which they are looked at.
    pub(crate) states: Once<Key>,
    // The ends that were found, in that order.
    pub(crate) ends: Once<Told>,
    // The longest single wait so far, in units of logical time. It bounds how late a run can be (`is_in_time`).
    pub(crate) longest: u64,
}

// Written out, so that a caller's proof sees one call and not the drop of each field.
impl Drop for Tables {
    fn drop(self) {
        let Tables {
            terms: _,
            counts: _,
            lists: _,
            states: _,
            ends: _,
            longest: _,
        } = self;
    }
}

impl Tables {
    // The tables of a program whose terms these are, in which nothing is found yet. The error is refused memory.
    pub(crate) fn new(alloc: Global, terms: Terms) -> Result<Tables, AllocError>
        ensures terms { IfOk result (λ t. t.terms ≡ terms) }
        ensures counts { IfOk result (λ t. t.counts ≡ [] ∷ []) }
    {
        Ok(Tables {
            terms,
            counts: Counts::new(alloc)?,
            lists: Lists::new(alloc),
            states: Once::new(alloc),
            ends: Once::new(alloc),
            longest: 0,
        })
    }

    // Begins a search: the state of this term, before any call and with nothing seen, is found, and no other. The terms and the lists of calls stay
    // from the searches before. The error is refused memory.
    pub(crate) fn begin(&mut self, alloc: Global, term: usize) -> Result<(), AllocError>
        ensures { OnOk result (IsBegun term self.old self.new) }
    {
        self.lists = Lists::new(alloc);
        self.states = Once::new(alloc);
        self.ends = Once::new(alloc);
        self.longest = 0;
        // The number 0 is that of the empty list of either kind.
        self.states.add(Key {
            term,
            made: 0,
            seen: 0,
        })?;
        Ok(())
    }

    // Adds the state that `from` becomes by the step `successor` of its term, unless the state is there. `AreKnown` asks that all numbers in the
    // tables are of something, `Keeps` promises that all that was there keeps its number. The error is refused memory, or a count past its type.
    fn follow(
        &mut self,
        alloc: Global,
        answers: &Answers,
        sieve: &Sieve,
        from: Key,
        successor: &Successor,
    ) -> Result<(), AllocError>
        requires all { AreKnown self.old }
        requires from { IsKnown self.old from }
        requires to { successor.now.to < length (smalls self.old.terms) }
        ensures all { OnOk result (AreKnown self.new) }
        ensures kept { OnOk result (Keeps self.old self.new) }
        // What the state becomes is among the states.
        ensures followed { OnOk result (IsIn (after (kept_by sieve.now) answers.now.sites self.old from successor.now) (reached answers.now.sites self.new)) }
        // No other state is added.
        ensures added { OnOk result (AddsOnly answers.now.sites (λ r. r ≡ after (kept_by sieve.now) answers.now.sites self.old from successor.now) self.old self.new) }
        ensures ends { OnOk result (self.new.ends ≡ self.old.ends) }
    {
        let happening = &successor.happening;
        // The numbers of the two lists after the step: of the calls that were made, and of what was seen.
        let made = self.counts.after(alloc, answers, from.made, happening)?;
        let seen = self.lists.after(from.seen, sieve, happening)?;
        self.states.add(Key {
            term: successor.to,
            made,
            seen,
        })?;
        Ok(())
    }

    // Adds the states that `from` becomes by these steps of its term. The clauses are those of `follow`, for all steps. The error is refused memory,
    // or a count past its type.
    fn follow_all(
        &mut self,
        alloc: Global,
        answers: &Answers,
        sieve: &Sieve,
        from: Key,
        successors: &[Successor],
    ) -> Result<(), AllocError>
        requires all { AreKnown self.old }
        requires from { IsKnown self.old from }
        requires to { (i : ℕ) (s : Next) → slice_get successors.now i ≡ Some s → s.to < length (smalls self.old.terms) }
        ensures all { OnOk result (AreKnown self.new) }
        ensures kept { OnOk result (Keeps self.old self.new) }
        // What the state becomes by each of them is among the states.
        ensures followed { OnOk result ((i : ℕ) (s : Next) → slice_get successors.now i ≡ Some s → IsIn (after (kept_by sieve.now) answers.now.sites self.old from s) (reached answers.now.sites self.new)) }
        // No other state is added.
        ensures added { OnOk result (AddsOnly answers.now.sites (IsAfterOne (kept_by sieve.now) answers.now.sites self.old from successors.now) self.old self.new) }
        ensures ends { OnOk result (self.new.ends ≡ self.old.ends) }
    {
        for successor in successors {
            self.follow(alloc, answers, sieve, from, successor)?;
        }
        Ok(())
    }

    // Adds the state that `from` becomes once as much time has passed as the pending call that is due first has left; nothing if no call will be
    // answered, or one is due at once. Only called where nothing can happen before. `AreKnown` asks that all numbers in the tables are of something.
    // The error is refused memory.
    fn wait(&mut self, alloc: Global, sieve: &Sieve, from: Key) -> Result<(), AllocError>
        requires all { AreKnown self.old }
        requires from { IsKnown self.old from }
        ensures all { OnOk result (AreKnown self.new) }
        ensures kept { OnOk result (Keeps self.old self.new) }
        // If the state waits, the wait is no longer than the longest, and what it becomes is among the states.
        ensures waited { OnOk result ((sites : List Site) (by : ℕ) → some_time (least_left (small_at (smalls self.old.terms) from.term)) ≡ Some by → (by ≤ self.new.longest) × IsIn (waited (kept_by sieve.now) sites self.old from by) (reached sites self.new)) }
        // No other state is added.
        ensures added { OnOk result ((sites : List Site) → AddsOnly sites (IsWaited (kept_by sieve.now) sites self.old from self.new.longest) self.old self.new) }
        ensures ends { OnOk result (self.new.ends ≡ self.old.ends) }
    {
        // The time that the pending call which is due first has left. With None no call that pends will be answered.
        let Some(by) = self.terms.summary(from.term).left else {
            return Ok(());
        };
        // Never in `expand`: a call with no time left can return, which is a step.
        if by == 0 {
            return Ok(());
        }
        // The number of what the term becomes as `by` units of time pass.
        let term = changed(&mut self.terms, alloc, Change::Pass(by), from.term)?;
        let seen = self.lists.wait(from.seen, sieve, by)?;
        self.states.add(Key {
            term,
            made: from.made,
            seen,
        })?;
        self.longest = self.longest.max(by);
        Ok(())
    }

    // Adds an end if a run can end at `from`: Halted if the term has halted; Quiet if no pending call will be answered and `still` holds, by which
    // the caller says that nothing can happen before time passes. The error is refused memory.
    fn tell(&mut self, from: Key, still: bool) -> Result<(), AllocError>
        requires all { AreKnown self.old }
        requires from { IsKnown self.old from }
        ensures all { OnOk result (AreKnown self.new) }
        ensures kept { OnOk result (Keeps self.old self.new) }
        // If the state is an end, that end is among the ends, with what was seen on the path to it.
        ensures told { OnOk result ((e : Ending) → ending_if still (small_at (smalls self.old.terms) from.term) ≡ Some e → IsIn (end_of e, seen_at self.old from.seen) (outcomes self.new)) }
        // No other end is added.
        ensures added { OnOk result (AddsEnd (outcomes self.old) (ending_if still (small_at (smalls self.old.terms) from.term)) (seen_at self.old from.seen) (outcomes self.new)) }
        ensures states { OnOk result (self.new.states ≡ self.old.states) }
    {
        let summary = self.terms.summary(from.term);
        let seen = from.seen;
        // The term has halted (`over`).
        if summary.over {
            let halted = Told {
                end: End::Halted,
                seen,
            };
            self.ends.add(halted)?;
            return Ok(());
        }
        if !still {
            return Ok(());
        }
        // With some time left the state waits, and is no end.
        if let None = summary.left {
            let quiet = Told {
                end: End::Quiet,
                seen,
            };
            self.ends.add(quiet)?;
        }
        Ok(())
    }

    // Adds all states that may come of `from`, and its end, if it is one. `from` is what early steps make of a state, and need not be one of the
    // states itself. `IsReady` asks that each node of the program has the number of its term, `AreListed` that what `moves` keeps is right. The error
    // is refused memory, or a count past its type.
    fn expand(
        &mut self,
        alloc: Global,
        source: &Source,
        sieve: &Sieve,
        moves: &mut Moves,
        from: Key,
    ) -> Result<(), AllocError>
        requires all { AreKnown self.old }
        requires from { IsKnown self.old from }
        requires ready { IsReady (smalls self.old.terms) source.now }
        requires listed { AreListed (small_definitions source.now.program.now) source.now.answers.now.sites (smalls self.old.terms) self.old.counts moves.old }
        // What `moves` keeps stays right.
        ensures listed { OnOk result (AreListed (small_definitions source.now.program.now) source.now.answers.now.sites (smalls self.new.terms) self.new.counts moves.new) }
        ensures all { OnOk result (AreKnown self.new) }
        ensures kept { OnOk result (Keeps self.old self.new) }
        // All that may come of the state is among the states, its wait is no longer than the longest, and its end is among the ends.
        ensures done { OnOk result (IsDone (small_definitions source.now.program.now) (kept_by sieve.now) (reached source.now.answers.now.sites self.new) self.new.longest (outcomes self.new) (reached_at source.now.answers.now.sites self.old from)) }
        // If the states before came one from another, so do they now: `from` is ahead of one that is there.
        ensures found { OnOk result ((begin : State) (behind : ℕ) → IsIn (record { term = behind; made = from.made; seen = from.seen }) self.old.states → LeadsTo (small_definitions source.now.program.now) (kept_by sieve.now) source.now.answers.now.sites self.old (record { term = behind; made = from.made; seen = from.seen }) from.term → AreFound (small_definitions source.now.program.now) (kept_by sieve.now) begin source.now.answers.now.sites self.old → AreFound (small_definitions source.now.program.now) (kept_by sieve.now) begin source.now.answers.now.sites self.new) }
    {
        // `at` is the place in `moves` of all steps of the term after these calls. They are worked out unless they are kept there.
        let at = moves.find(&mut self.terms, alloc, source, &self.counts, from)?;
        let next = moves.next(at);
        self.follow_all(alloc, source.answers, sieve, from, next)?;
        // Time passes only where nothing else can happen.
        if next.is_empty() {
            self.wait(alloc, sieve, from)?;
            // `true`: nothing can happen before time passes.
            self.tell(from, true)?;
            return Ok(());
        }
        // What can still move isn't quiet (`false`), but it may have halted: if both sides of an opened pruning have, its cell can still be lost.
        self.tell(from, false)?;
        Ok(())
    }

    // Takes those early steps of a state that nobody sees (`ahead_of`), and adds all that may come of the state to which they lead, and that state's
    // end, if it is one. `IsReady` asks that each node of the program has the number of its term, `AreListed` that what `moves` keeps is right. The
    // error is refused memory, or a count past its type.
    fn look_at(
        &mut self,
        alloc: Global,
        source: &Source,
        sieve: &Sieve,
        moves: &mut Moves,
        from: Key,
    ) -> Result<(), AllocError>
        requires all { AreKnown self.old }
        requires from { IsKnown self.old from }
        requires ready { IsReady (smalls self.old.terms) source.now }
        requires listed { AreListed (small_definitions source.now.program.now) source.now.answers.now.sites (smalls self.old.terms) self.old.counts moves.old }
        // What `moves` keeps stays right.
        ensures listed { OnOk result (AreListed (small_definitions source.now.program.now) source.now.answers.now.sites (smalls self.new.terms) self.new.counts moves.new) }
        ensures all { OnOk result (AreKnown self.new) }
        ensures kept { OnOk result (Keeps self.old self.new) }
        // All of that is there for a state that early steps make of this one.
        ensures done { OnOk result (IsLookedAt (small_definitions source.now.program.now) (kept_by sieve.now) (reached source.now.answers.now.sites self.new) self.new.longest (outcomes self.new) (reached_at source.now.answers.now.sites self.old from)) }
        // If the states before came one from another, so do they now.
        ensures found { OnOk result ((begin : State) → IsIn from self.old.states → AreFound (small_definitions source.now.program.now) (kept_by sieve.now) begin source.now.answers.now.sites self.old → AreFound (small_definitions source.now.program.now) (kept_by sieve.now) begin source.now.answers.now.sites self.new) }
    {
        let term = self.ahead_of(alloc, source, sieve, from)?;
        // Early steps change the term alone: no list keeps anything of them.
        let ahead = Key {
            term,
            made: from.made,
            seen: from.seen,
        };
        self.expand(alloc, source, sieve, moves, ahead)?;
        Ok(())
    }

    // Looks at the states in the order in which they were found, those too that it finds meanwhile, until it has looked at all or there are more than
    // `most`. Says whether it has looked at all. `IsReady` asks that each node of the program has the number of its term, `AreListed` that what
    // `moves` keeps is right. The error is refused memory, or a count past its type.
    pub(crate) fn look_at_all(
        &mut self,
        alloc: Global,
        source: &Source,
        sieve: &Sieve,
        moves: &mut Moves,
        most: usize,
    ) -> Result<bool, AllocError>
        requires all { AreKnown self.old }
        requires ready { IsReady (smalls self.old.terms) source.now }
        requires listed { AreListed (small_definitions source.now.program.now) source.now.answers.now.sites (smalls self.old.terms) self.old.counts moves.old }
        // What `moves` keeps stays right.
        ensures listed { OnOk result (AreListed (small_definitions source.now.program.now) source.now.answers.now.sites (smalls self.new.terms) self.new.counts moves.new) }
        ensures kept { OnOk result (Keeps self.old self.new) }
        // If these were all, each state was looked at.
        ensures done { IfOk result (λ all. all ≡ true → AreDone (small_definitions source.now.program.now) (kept_by sieve.now) source.now.answers.now.sites self.new (length self.new.states)) }
        // If the states before came one from another, so do they now.
        ensures found { OnOk result ((begin : State) → AreFound (small_definitions source.now.program.now) (kept_by sieve.now) begin source.now.answers.now.sites self.old → AreFound (small_definitions source.now.program.now) (kept_by sieve.now) begin source.now.answers.now.sites self.new) }
    {
        for at in 0..most {
            // Each state that was found has been looked at.
            let Some(key) = self.states.get(at) else {
                return Ok(true);
            };
            self.look_at(alloc, source, sieve, moves, key)?;
            if self.states.len() > most {
                return Ok(false);
            }
        }
        // All of the first `most` were looked at: are there more?
        Ok(self.states.len() <= most)
    }

    // The end `told`, with the values that were published on the path to it. The error is refused memory.
    fn ended_of(&self, alloc: Global, told: Told) -> Result<Ended, AllocError>
        ensures { IfOk result (λ e. outcome_of e ≡ shown_of (outcome_at self.now told)) }
    {
        let values = self.lists.values(alloc, told.seen)?;
        Ok(Ended {
            end: told.end,
            values,
        })
    }

    // All ends that were found, each with the values that were published on the path to it. The error is refused memory.
    pub(crate) fn ended(&self, alloc: Global) -> Result<Vec<Ended>, AllocError>
        ensures { IfOk result (λ v. map outcome_of v.items ≡ map shown_of (outcomes self.now)) }
    {
        let mut ended = Vec::new(alloc);
        for told in self.ends.as_slice() {
            let end = self.ended_of(alloc, *told)?;
            ended.push(end)?;
        }
        Ok(ended)
    }

    // The end `told`, with its time and what was seen on the path to it, in order. The error is refused memory.
    fn seen_of(&self, alloc: Global, told: Told) -> Result<Seen, AllocError>
        ensures { IfOk result (λ s. end_seen s ≡ outcome_at self.now told) }
    {
        let happened = self.lists.happened(alloc, told.seen)?;
        Ok(Seen {
            end: told.end,
            happened,
            now: self.lists.now(told.seen),
        })
    }

    // The end `told`, with its time and what was seen on the path to it, if the claim fails there; None if the claim holds there. The error is
    // refused memory.
    fn failing_at(
        &self,
        alloc: Global,
        claim: &Claim,
        told: Told,
    ) -> Result<Option<Seen>, AllocError>
        // It is this end, and the claim fails there; None says that it holds there.
        ensures some { IfOk result (λ o. IfSome o (λ s. (end_seen s ≡ outcome_at self.now told) × (holds_by claim.now (outcome_at self.now told) ≡ false))) }
        ensures none { IfOk result (λ o. IfNone o (holds_by claim.now (outcome_at self.now told) ≡ true)) }
    {
        let seen = self.seen_of(alloc, told)?;
        if fails_by(alloc, claim, seen.end, &seen.happened, seen.now)? {
            Ok(Some(seen))
        } else {
            Ok(None)
        }
    }

    // The first end, in the order in which they were found, at which the claim fails; None if it holds at all of them. The error is refused memory.
    pub(crate) fn first_failing(
        &self,
        alloc: Global,
        claim: &Claim,
    ) -> Result<Option<Seen>, AllocError>
        // It is one of the ends, and the claim fails there; None says that it holds at all.
        ensures some { IfOk result (λ o. IfSome o (λ s. IsIn (end_seen s) (outcomes self.now) × (holds_by claim.now (end_seen s) ≡ false))) }
        ensures none { IfOk result (λ o. IfNone o ((e : EndSeen) → IsIn e (outcomes self.now) → holds_by claim.now e ≡ true)) }
    {
        for told in self.ends.as_slice() {
            match self.failing_at(alloc, claim, *told)? {
                Some(seen) => return Ok(Some(seen)),
                None => {}
            }
        }
        Ok(None)
    }
}
