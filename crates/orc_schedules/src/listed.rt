//! What terms may do after lists of calls, kept so that it is worked out once: states that differ only in what was seen share it. Terms are named by
//! their numbers in `Terms`, and lists of calls by theirs in `Counts`; of a state (`Key`) both are looked at here. A `Source` is the program with the
//! table that answers its calls. A `Successor` is a step: what is seen of it, and the number of the term after it.

ghost use Rattle.std.specs.Prelude.{◌≡◌, ◌⊎◌, ◌<◌, ◌++◌, ◌∷◌, [], true, Some, length, slice_get, IfSome, IfOk, OnOk};
ghost use Rattle.orc_search.specs.Nodes.{small_at, smalls, Extends};
ghost use Rattle.orc_search.specs.Programs.{small_definitions};
ghost use Rattle.orc_search.specs.Ready.{IsReady};
ghost use Rattle.orc_schedules.specs.Listed.{next_at, AreListed, AreNext, IsOf};

use crate::counts::Counts;
use crate::states::Key;
use orc_search::moves::{Source, successors};
use orc_search::node::mix;
use orc_search::places::Places;
use orc_search::successor::Successor;
use orc_search::terms::Terms;
use std::alloc::{AllocError, Global};
use std::marker::Model;

/// How many `Listed` are kept at most. Before one more is added all are dropped, so that a search through many states keeps little beside them.
const MOST: usize = 4096;

/// All that a term may do after a list of calls.
#[derive(Drop)]
pub struct Listed {
    /// The number of the term.
    pub term: usize,
    /// The number of the list of calls (`Counts`).
    pub made: usize,
    /// Each step: what is seen of it, and the number of the term after it.
    pub next: Vec<Successor>,
}

/// What terms may do after lists of calls, kept for later. What is asked for again is there, unless so many came between that all was dropped, or
/// something with an equal hash came.
pub struct Moves {
    // What is kept, `MOST` of them at most.
    listed: Vec<Listed>,
    // Where what was last listed with a hash stands. Nothing is promised of it: what is found there is compared.
    places: Places,
}

// Written out, so that a caller's proof sees one call and not the drop of each field.
impl Drop for Moves {
    fn drop(self) {
        let Moves {
            listed: _,
            places: _,
        } = self;
    }
}

// Contracts see a list of what is kept, and nothing of the places.
impl Model for Moves {
    ghost use Rattle.std.specs.Prelude.{List};
    ghost use Rattle.orc_schedules.specs.declared.listed.Listed.{Listed};

    ghost Value = { List Listed };

    ghost view = { λ m. m.listed.items };
}

impl Moves {
    /// Nothing is kept.
    pub fn new(alloc: Global) -> Moves
        ensures { result ≡ [] }
    {
        Moves {
            listed: Vec::new(alloc),
            places: Places::new(alloc),
        }
    }

    /// The steps that are kept at the place `at`, from 0, which `find` has given; none if nothing is kept there.
    pub fn next(&self, at: usize) -> &[Successor]
        ensures { result.now ≡ next_at self.now at }
    {
        match self.listed.get(at) {
            Some(listed) => &listed.next,
            None => &[],
        }
    }

    // The place of what was last kept with this hash; None if none is known. What is kept there may be of another term or list of calls.
    fn place_of(&self, hash: u64) -> Option<usize> {
        self.places.get(hash)
    }

    // What is kept at that place, from 0; None if nothing is. The match shows the prover the two cases; it changes nothing.
    fn get(&self, at: usize) -> Option<&Listed>
        ensures { IfSome result (λ l. slice_get self.now at ≡ Some l.now) }
    {
        match self.listed.get(at) {
            Some(listed) => Some(listed),
            None => None,
        }
    }

    // Whether the steps that are kept at the place `at` are those of this state's term after its list of calls.
    fn stands_at(&self, at: usize, from: Key) -> bool
        ensures { result ≡ true → IsOf self.now from at }
    {
        match self.get(at) {
            Some(listed) => listed.term == from.term && listed.made == from.made,
            None => false,
        }
    }

    // Drops all that is kept if there are `MOST` of them, so that one more can be kept.
    fn make_room(&mut self, alloc: Global)
        ensures { (self.new ≡ self.old) ⊎ (self.new ≡ []) }
    {
        if self.listed.len() >= MOST {
            self.listed = Vec::new(alloc);
            self.places = Places::new(alloc);
        }
    }

    // Keeps one more `Listed` behind the others, and gives its place, from 0. The error is refused memory.
    fn push(&mut self, listed: Listed) -> Result<usize, AllocError>
        ensures number { IfOk result (λ at. at ≡ length self.old) }
        ensures added { OnOk result (self.new ≡ self.old ++ listed ∷ []) }
    {
        let at = self.listed.len();
        self.listed.push(listed)?;
        Ok(at)
    }

    // Notes that what is kept at the place `at` has this hash. The error is refused memory.
    fn remember(&mut self, hash: u64, at: usize) -> Result<(), AllocError>
        ensures { self.new ≡ self.old }
    {
        self.places.insert(hash, at)
    }

    /// The place, from 0, at which all is kept that the term of the state `from` may do after its list of calls; it is worked out if it isn't there.
    /// The place holds until the next `find`, which may drop all. `IsReady` asks that each node of the program has the number of its term. The error
    /// is refused memory, or a count past its type (`successors`): of a call's arguments, of calls, or of nested prunings. The terms that were there
    /// stay, in both cases.
    pub fn find(
        &mut self,
        terms: &mut Terms,
        alloc: Global,
        source: &Source,
        counts: &Counts,
        from: Key,
    ) -> Result<usize, AllocError>
        requires ready { IsReady (smalls terms.old) source.now }
        requires term { from.term < length (smalls terms.old) }
        requires made { from.made < length counts.now }
        // All that is kept is right, for these terms and lists of calls.
        requires listed { AreListed (small_definitions source.now.program.now) source.now.answers.now.sites (smalls terms.old) counts.now self.old }
        ensures listed { OnOk result (AreListed (small_definitions source.now.program.now) source.now.answers.now.sites (smalls terms.new) counts.now self.new) }
        // What is kept at the place is the list `moves` of the definitions for the term, after these calls.
        ensures all { IfOk result (λ at. AreNext (small_definitions source.now.program.now) source.now.answers.now.sites (smalls terms.new) counts.now from.made (small_at (smalls terms.old) from.term) (next_at self.new at)) }
        ensures kept { Extends (smalls terms.old) (smalls terms.new) }
    {
        // The seed, 1, is arbitrary.
        let hash = mix(mix(1, from.term as u64), from.made as u64);
        if let Some(at) = self.place_of(hash) {
            if self.stands_at(at, from) {
                return Ok(at);
            }
        }
        let next = successors(terms, alloc, source, counts.made(from.made), from.term)?;
        self.make_room(alloc);
        let at = self.push(Listed {
            term: from.term,
            made: from.made,
            next,
        })?;
        self.remember(hash, at)?;
        Ok(at)
    }
}
