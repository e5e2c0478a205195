//! Early steps that nobody sees. The search takes these steps of a state, and no others, before it lists what the state may do, so the orders of such
//! steps make no states. The sieve keeps nothing of such a step, and the step leaves the answers of the calls to come as they are (`ahead_follows` in
//! orc_search). An *early* step leaves the term's other steps as they are, so it may go first. A state is a `Key`: the numbers of its term (what is
//! left to run), of its list of the calls that were made, and of its list of what was seen, as far as the sieve keeps it. A `Source` is the program
//! with the table that answers its calls (`answers`), and `Parts` goes through the parts of a term. The *sieve* says what the search keeps of what
//! happens. An error of the sieve, and a *count past its type*, is a number that is too great: of a call's arguments, of calls, of nested prunings,
//! or of the sites that a test names.

ghost use Rattle.std.specs.Prelude.{◌≡◌, ◌<◌, length, true, IfOk, IfSome, OnOk};
ghost use Rattle.orc_search.specs.Early.{IsHidden};
ghost use Rattle.orc_search.specs.Moving.{happening_of};
ghost use Rattle.orc_search.specs.Nodes.{smalls};
ghost use Rattle.orc_search.specs.Programs.{small_definitions};
ghost use Rattle.orc_search.specs.Ready.{IsReady};
ghost use Rattle.orc_schedules.specs.Seen.{is_unkept, kept_by};
ghost use Rattle.orc_schedules.specs.Tables.{AreKnown, IsKnown, Keeps, LeadsTo, coming_at};

use crate::sieve::Sieve;
use crate::states::Key;
use crate::tables::Tables;
use orc_rules::answers::Answers;
use orc_search::early::Parts;
use orc_search::moves::Source;
use orc_search::successor::Happening;
use std::alloc::{AllocError, Global};

// The most early steps that the search takes from one state, since a definition may call itself for ever. Later ones make states as all steps do.
const MOST_EARLY: u64 = 1000;

impl Tables {
    // Whether nobody sees this happening, which is that of an early step of the state `from`: the sieve keeps nothing of it, and the calls to come
    // are answered after it as before. The lists after it may be new ones, which stay in the tables then. `AreKnown` says that all numbers in the
    // tables are of something, `IsKnown` that those of a state are, and `Keeps` that all that was there keeps its number. The error is refused
    // memory, or one of the sieve's.
    fn is_unseen(
        &mut self,
        alloc: Global,
        answers: &Answers,
        sieve: &Sieve,
        from: Key,
        happening: &Happening,
    ) -> Result<bool, AllocError>
        requires all { AreKnown self.old }
        requires from { IsKnown self.old from }
        ensures all { OnOk result (AreKnown self.new) }
        ensures kept { OnOk result (Keeps self.old self.new) }
        // True says that the happening is hidden: `ahead_follows` of orc_search asks for that.
        ensures hidden { IfOk result (λ is. is ≡ true → IsHidden (is_unkept (kept_by sieve.now)) (coming_at answers.now.sites self.old from.made) (happening_of happening.now)) }
        ensures terms { self.new.terms ≡ self.old.terms }
        ensures states { self.new.states ≡ self.old.states }
        ensures ends { self.new.ends ≡ self.old.ends }
    {
        // The numbers of the two lists after the happening: of the calls that were made, and of what was seen.
        let made = self.counts.after(alloc, answers, from.made, happening)?;
        let seen = self.lists.after(from.seen, sieve, happening)?;
        // Another list of calls: some call to come may be answered otherwise.
        if made != from.made {
            return Ok(false);
        }
        // The same list of what was seen: the sieve keeps nothing of the step.
        Ok(seen == from.seen)
    }

    // The number of the term to which the first early step of the state leads that nobody sees; None if it has no such step. `IsReady` asks that each
    // node of the program has the number of its term. The error is refused memory, a count past its type, or one of the sieve's.
    fn early_term(
        &mut self,
        alloc: Global,
        source: &Source,
        sieve: &Sieve,
        from: Key,
    ) -> Result<Option<usize>, AllocError>
        requires all { AreKnown self.old }
        requires from { IsKnown self.old from }
        requires ready { IsReady (smalls self.old.terms) source.now }
        ensures all { OnOk result (AreKnown self.new) }
        ensures kept { OnOk result (Keeps self.old self.new) }
        ensures there { IfOk result (λ o. IfSome o (λ term. term < length (smalls self.new.terms))) }
        // By early steps, none of which is kept, the term of the state leads to it: here by one.
        ensures leads { IfOk result (λ o. IfSome o (λ term. LeadsTo (small_definitions source.now.program.now) (kept_by sieve.now) source.now.answers.now.sites self.new from term)) }
        ensures states { OnOk result (self.new.states ≡ self.old.states) }
        ensures ends { OnOk result (self.new.ends ≡ self.old.ends) }
    {
        let mut parts = Parts::of_term(alloc, from.term)?;
        // The loop ends with the term's parts; its bound is for the prover, and the error behind it isn't reached.
        for _early in 0..u64::MAX {
            // The calls that were made before: what a step of a call leads to depends on them.
            let made = self.counts.made(from.made);
            let Some(step) = parts.next_early(&mut self.terms, alloc, source, made)? else {
                return Ok(None);
            };
            let unseen = self.is_unseen(alloc, source.answers, sieve, from, &step.happening)?;
            if unseen {
                return Ok(Some(step.to));
            }
        }
        Err(AllocError)
    }

    // The number of the term to which early steps of the state lead that nobody sees: the state's own if it has none. That term has no such step
    // itself, unless there are more than `MOST_EARLY`. Such steps change neither list, so only the term's number does. `IsReady` asks that each node
    // of the program has the number of its term. The error is refused memory, a count past its type, or one of the sieve's.
    pub(crate) fn ahead_of(
        &mut self,
        alloc: Global,
        source: &Source,
        sieve: &Sieve,
        from: Key,
    ) -> Result<usize, AllocError>
        requires all { AreKnown self.old }
        requires from { IsKnown self.old from }
        requires ready { IsReady (smalls self.old.terms) source.now }
        ensures all { OnOk result (AreKnown self.new) }
        ensures kept { OnOk result (Keeps self.old self.new) }
        ensures there { IfOk result (λ term. term < length (smalls self.new.terms)) }
        // By early steps, none of which is kept, the term of the state leads to it.
        ensures leads { IfOk result (λ term. LeadsTo (small_definitions source.now.program.now) (kept_by sieve.now) source.now.answers.now.sites self.new from term) }
        ensures states { OnOk result (self.new.states ≡ self.old.states) }
        ensures ends { OnOk result (self.new.ends ≡ self.old.ends) }
    {
        // The term to which the steps so far have led.
        let mut ahead = from.term;
        for _early in 0..MOST_EARLY {
            let at = Key {
                term: ahead,
                made: from.made,
                seen: from.seen,
            };
            match self.early_term(alloc, source, sieve, at)? {
                Some(term) => ahead = term,
                None => return Ok(ahead),
            }
        }
        Ok(ahead)
    }
}
