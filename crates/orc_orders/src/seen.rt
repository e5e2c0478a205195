//! The outcomes that came up. An outcome is how a run ended together with what it published, the first value first.

ghost use Rattle.std.specs.Prelude.{◌≡◌, ◌<◌, ◌↔◌, [], true, length, slice_index_or, MatchOption, OnErr, OnOk};
ghost use Rattle.std.specs.List.{All};
ghost use Rattle.orc_rules.specs.Sites.{values_eq};
ghost use Rattle.orc_orders.specs.Survey.{Counts, IsOf};
ghost use Rattle.orc_orders.specs.Found.{came_of, IsOnceMore};

use indexmap::IndexSet;
use orc_outcome::End;
use orc_rules::builtin::is_same;
use orc_rules::value::Value;
use std::alloc::{AllocError, Global};
use std::hash::{Hash, Hasher};
use std::marker::Model;

/// An outcome that came up in some order: how a run ended, and what it published. An order is a number that decides what comes first in a run where
/// the rules leave it free.
#[derive(Drop)]
pub struct Seen {
    /// How the run ended.
    pub end: End,
    /// What the run published, the first value first.
    pub values: Vec<Value>,
    /// The first order whose run came to this outcome, from 0.
    pub first: u64,
    /// How many orders have runs that came to this outcome.
    pub times: u64,
}

/// Whether two lists have the same values: as many, in the same order.
pub fn are_same(one: &[Value], other: &[Value]) -> bool
    ensures { result ≡ values_eq one.now other.now }
{
    // What is still to be compared. Each round takes the first value off both, so the loop ends.
    let mut rest = one;
    let mut others = other;
    loop {
        match rest {
            // The first list has ended: the two are the same if the second one has ended, too.
            [] => return others.is_empty(),
            [v, more @ ..] => match others {
                // The second list is shorter.
                [] => return false,
                [w, more_others @ ..] => {
                    if !is_same(*v, *w) {
                        return false;
                    }
                    rest = more;
                    others = more_others;
                }
            },
        }
    }
}

impl Seen {
    // Whether this is the outcome of a run that ended so and published these values.
    #[tactic(auto, using(orc_rules::proofs::Values::values_decide))]
    fn is_of(&self, end: End, values: &[Value]) -> bool
        ensures { result ≡ true ↔ IsOf (record { end = end; values = values.now }) self.now }
    {
        self.end == end && are_same(self.values.as_slice(), values)
    }
}

/// The place, from 0, of the outcome of a run that ended so and published these values, among those that came up; None if that outcome isn't one of
/// them. The function compares with one after another.
pub fn place_of(seen: &[Seen], end: End, values: &[Value]) -> Option<usize>
    ensures { MatchOption result (All (λ y. IsOf (record { end = end; values = values.now }) y → ⊥) seen.now) (λ at. (at < length seen.now) × ((d : Seen) → IsOf (record { end = end; values = values.now }) (slice_index_or seen.now at d))) }
{
    for at in 0..seen.len() {
        if seen[at].is_of(end, values) {
            return Some(at);
        }
    }
    None
}

// An outcome as a hash set has it: how a run ended, and what it published. By it the set finds the place of the same outcome in `Outcomes::seen`.
#[derive(PartialEq, Eq, Drop)]
struct Outcome {
    // How the run ended.
    end: End,
    // What the run published, the first value first.
    values: Vec<Value>,
}

// The hash is of the values alone, not of the end: the values tell nearly all outcomes apart, and equal outcomes have the same hash.
impl Hash for Outcome {
    ghost use Rattle.std.specs.Hash as fed;
    ghost use Rattle.std.specs.Hash.{second_alike, on_Alike, items_Alike};
    ghost use Rattle.orc_rules.specs.contracts.value.ValueHash.TheImpl as feeding;
    ghost use Rattle.orc_rules.specs.contracts.value.ValueHash.TheImpl.Laws.{respects_eq-law};

    ghost hash_input = { λ o. fed.slice feeding.ghosts.hash_input o.values.items };

    ghost respects_eq = { (second_alike _ (on_Alike (λ o. o.values.items) (items_Alike (record { fed = respects_eq-law })))).fed };

    // Feeds the values to the hasher; `respects_eq` shows that equal outcomes feed it the same.
    fn hash<H: Hasher>(&self, state: &mut H) {
        self.values.hash(state);
    }
}

/// The outcomes that came up, each found by a hash and not by comparing with all.
pub(crate) struct Outcomes {
    // The outcomes in the order in which they came up first.
    seen: Vec<Seen>,
    // At the place of each outcome of `seen` a copy of it, by which a hash finds the place.
    known: IndexSet<Outcome>,
}

// Written out, so that a caller's proof sees one call and not the drop of each field.
impl Drop for Outcomes {
    fn drop(self) {
        let Outcomes { seen: _, known: _ } = self;
    }
}

// Contracts see the list `seen`. By the invariant `known` has the same outcomes, each at the same place.
impl Model for Outcomes {
    ghost use Rattle.std.specs.Prelude.{List};
    ghost use Rattle.orc_orders.specs.declared.seen.Seen.{Seen};
    ghost use Rattle.orc_orders.specs.Found.{AreKnown};

    ghost Value = { List Seen };

    ghost view = { λ o. o.seen.items };

    ghost invariant = { λ o. AreKnown o.known.keys o.seen.items };
}

// Counts one more order whose run came to the outcome at the place `at` of `seen`, from 0. The error, with which nothing changes, comes only at 2^64
// orders.
#[tactic(auto, using(crate::proofs::Known::once_more))]
fn again(seen: &mut Vec<Seen>, at: usize) -> Result<(), AllocError>
    requires { at < length seen.old.items }
    ensures more { OnOk result (IsOnceMore at seen.old.items seen.new.items) }
    ensures refused { OnErr result (seen.new.items ≡ seen.old.items) }
{
    let Some(times) = seen[at].times.checked_add(1) else {
        // No machine makes 2^64 runs.
        return Err(AllocError);
    };
    seen[at].times = times;
    Ok(())
}

impl Outcomes {
    /// No outcome came up yet.
    pub(crate) fn new(alloc: Global) -> Outcomes
        ensures { result ≡ [] }
    {
        Outcomes {
            seen: Vec::new(alloc),
            known: IndexSet::new(alloc),
        }
    }

    /// The outcomes in the order in which they came up first. Nothing else is left.
    pub(crate) fn into_seen(self) -> Vec<Seen>
        ensures { result.items ≡ self }
    {
        let Outcomes { seen, known: _ } = self;
        seen
    }

    // The place of an outcome in `seen`, from 0; None if the outcome didn't come up yet. The clause says that no item is this outcome then.
    #[tactic(auto, using(crate::proofs::Known::found_at, crate::proofs::Known::not_found))]
    fn place_of(&self, outcome: &Outcome) -> Option<usize>
        ensures { MatchOption result (All (λ y. IsOf (came_of outcome.now) y → ⊥) self.now) (λ at. (at < length self.now) × ((d : Seen) → IsOf (came_of outcome.now) (slice_index_or self.now at d))) }
    {
        match self.known.get_index_of(outcome) {
            Some(at) => Some(at),
            None => None,
        }
    }

    // Adds an outcome to which no order came before, as the first clause asks; `order`, from 0, is the one whose run has come to it now. If memory is
    // refused nothing changes.
    #[tactic(auto, using(crate::proofs::Counting::counted_first, crate::proofs::Known::known_too))]
    fn add(&mut self, alloc: Global, order: u64, outcome: Outcome) -> Result<(), AllocError>
        requires { All (λ y. IsOf (came_of outcome) y → ⊥) self.old }
        ensures { OnOk result (Counts order (came_of outcome) self.old self.new) }
    {
        let seen = Seen {
            end: outcome.end,
            values: Vec::from_slice(alloc, &outcome.values)?,
            first: order,
            times: 1,
        };
        // What can be refused comes first: room in the list, and the item of the set, which takes the place that comes next in the list.
        self.seen.try_reserve(1)?;
        self.known.insert(outcome)?;
        // Room was made above, so the list grows, too: the prover shows that the answer is Ok.
        let pushed = self.seen.push(seen);
        prove!(pushed.is_ok());
        Ok(())
    }

    /// Counts one more order, whose run ended so and published these values; `order` is its number, from 0. `alloc` gives memory for copies of the
    /// values. The error is refused memory, and then nothing has changed. `Counts` says that the outcome is added, or counted once more.
    #[tactic(auto, using(crate::proofs::Known::counted_at, crate::proofs::Known::counted_as, crate::proofs::Known::known_still))]
    pub(crate) fn count(
        &mut self,
        alloc: Global,
        order: u64,
        end: End,
        values: &[Value],
    ) -> Result<(), AllocError>
        ensures counted { OnOk result (Counts order (record { end = end; values = values.now }) self.old self.new) }
    {
        let outcome = Outcome {
            end,
            values: Vec::from_slice(alloc, values)?,
        };
        match self.place_of(&outcome) {
            // The outcome came up before: its count rises.
            Some(at) => again(&mut self.seen, at),
            None => self.add(alloc, order, outcome),
        }
    }
}
