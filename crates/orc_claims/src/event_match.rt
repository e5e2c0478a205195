//! Which happenings meet an event, and which values the event's variables get by that. A happening is that a value is published, or that something
//! becomes of a call (its `Phase`). It meets an event if it is what one of the event's alternatives describes. A `Slot` stands in the place of a
//! value: a value, `_` or a variable.
//!
//! A match that fails may have given values to some variables already, so `given` is of no use after false.
//!
//! In contracts `.. ≡ cond fits (Some given.new.items) None` says that the definition gives what is in `given` where the answer is true, and nothing
//! where it is false.

ghost use Rattle.std.specs.Prelude.{◌≡◌, cond, Some, None, IfOk, Bool, true, List};
ghost use Rattle.std.specs.List.{All};
ghost use Rattle.orc_claims.specs.declared.event_match.Bound.{Bound as BoundOf};
ghost use Rattle.orc_claims.specs.Meets.{bound_to, fit, fit_all, fit_phase, meets, meets_any, meets_one, is_met, value_in};

use crate::claim::{Event, Simple, Slot, Wanted};
use crate::happening::{Happening, Occurrence, Phase};
use orc_rules::builtin::is_same;
use orc_rules::value::Value;
use std::alloc::AllocError;

/// A variable, by its number, with its value. A list of these has each variable once.
#[derive(Clone, Copy, PartialEq, Eq)]
pub struct Bound {
    pub(crate) variable: u32,
    pub(crate) value: Value,
}

// The value that the variable of number `variable` has in the list `given`; None if it has none yet.
fn value_in(given: &[Bound], variable: u32) -> Option<Value>
    ensures { result ≡ value_in given.now variable }
{
    let mut rest = given;
    loop {
        match rest {
            [] => return None,
            [bound, more @ ..] => {
                if bound.variable == variable {
                    return Some(bound.value);
                }
                rest = more;
            }
        }
    }
}

// Whether `one` and `other` have the same variables with the same values, in the same order. The contract promises nothing of the answer false.
fn are_same(one: &[Bound], other: &[Bound]) -> bool
    ensures { result ≡ true → one.now ≡ other.now }
{
    let mut rest = one;
    let mut others = other;
    loop {
        match rest {
            [] => return others.is_empty(),
            [bound, more @ ..] => match others {
                [] => return false,
                [wanted, behind @ ..] => {
                    if *bound != *wanted {
                        return false;
                    }
                    rest = more;
                    others = behind;
                }
            },
        }
    }
}

/// Whether the list `given` is one of the lists in `known`, with its variables in the same order. The clause: what is true of all lists in `known` is
/// true of `given` then.
#[tactic(auto, using(crate::proofs::Known::known_is))]
pub(crate) fn is_known(known: &[Vec<Bound>], given: &[Bound]) -> bool
    ensures { (p : List BoundOf → Bool) → All (λ k. p k.items ≡ true) known.now → result ≡ true → p given.now ≡ true }
{
    for at in 0..known.len() {
        if are_same(known[at].as_slice(), given) {
            return true;
        }
    }
    false
}

impl Slot {
    // Whether the value can stand in the slot (a value, `_` or a variable), where `given` are the values that variables have. A variable without a
    // value gets this one. The error is refused memory; so it is in the functions below.
    fn fit(self, value: Value, given: &mut Vec<Bound>) -> Result<bool, AllocError>
        ensures { IfOk result (λ fits. fit self value given.old.items ≡ cond fits (Some given.new.items) None) }
    {
        match self {
            // `_` takes any value.
            Slot::Any => Ok(true),
            Slot::Literal(wanted) => Ok(is_same(wanted, value)),
            Slot::Variable(variable) => match value_in(given.as_slice(), variable) {
                // The variable has a value already, which this one has to be.
                Some(wanted) => Ok(is_same(wanted, value)),
                // The variable has no value yet, so it gets this one.
                None => {
                    given.push(Bound { variable, value })?;
                    Ok(true)
                }
            },
        }
    }
}

// Whether the values can stand in the slots, one in each, and there are as many. `given` are the values that variables have; it gets those that they
// are given by this. The error is refused memory.
fn fit_all(slots: &[Slot], values: &[Value], given: &mut Vec<Bound>) -> Result<bool, AllocError>
    ensures { IfOk result (λ fits. fit_all slots.now values.now given.old.items ≡ cond fits (Some given.new.items) None) }
{
    let mut rest = slots;
    let mut others = values;
    loop {
        match rest {
            // No slot is left, so no value may be left.
            [] => return Ok(others.is_empty()),
            [slot, more @ ..] => match others {
                // A slot is left, but no value.
                [] => return Ok(false),
                [value, behind @ ..] => {
                    if !slot.fit(*value, given)? {
                        return Ok(false);
                    }
                    rest = more;
                    others = behind;
                }
            },
        }
    }
}

impl Wanted {
    // Whether what became of a call (`phase`) is what is wanted of it (`self`). The value of an answer must also fit its slot, whose variable may get
    // it in `given`. The error is refused memory.
    fn fit(self, phase: Phase, given: &mut Vec<Bound>) -> Result<bool, AllocError>
        ensures { IfOk result (λ fits. fit_phase self phase given.old.items ≡ cond fits (Some given.new.items) None) }
    {
        match (self, phase) {
            (Wanted::Called, Phase::Called) => Ok(true),
            (Wanted::Answered(slot), Phase::Answered(value)) => slot.fit(value, given),
            (Wanted::Halted, Phase::Halted) => Ok(true),
            (Wanted::Cancelled, Phase::Cancelled) => Ok(true),
            // Something else became of the call.
            _ => Ok(false),
        }
    }
}

impl Simple {
    // Whether what happened is what this alternative of an event describes: such a call, or such a publication. If so, `given` has the values that
    // its variables had before, and those that they got by this. The error is refused memory.
    fn meets(&self, what: &Occurrence, given: &mut Vec<Bound>) -> Result<bool, AllocError>
        ensures { IfOk result (λ met. meets_one self.now what.now given.old.items ≡ cond met (Some given.new.items) None) }
    {
        match (self, what) {
            (Simple::Call(site, slots, wanted), Occurrence::Call(called, args, phase)) => {
                // The call is one of another site.
                if *site != *called {
                    return Ok(false);
                }
                // The arguments of the call have to fit the event's slots.
                if !fit_all(slots.as_slice(), args.as_slice(), given)? {
                    return Ok(false);
                }
                wanted.fit(*phase, given)
            }
            (Simple::Published(slot), Occurrence::Published(value)) => slot.fit(*value, given),
            // A call isn't a publication.
            _ => Ok(false),
        }
    }
}

impl Event {
    // Whether a happening meets the event, where variables have the values `given`. If so, `found` has those and the values that variables got by
    // this; what it had before is gone. A caller hands it in so that its memory is used again. The error is refused memory.
    pub(crate) fn meets(
        &self,
        happening: &Happening,
        given: &[Bound],
        found: &mut Vec<Bound>,
    ) -> Result<bool, AllocError>
        ensures { IfOk result (λ met. meets self.now happening.now given.now ≡ cond met (Some found.new.items) None) }
    {
        let mut rest = self.alternatives.as_slice();
        loop {
            match rest {
                // No alternative is left: the happening meets none.
                [] => return Ok(false),
                [simple, more @ ..] => {
                    // Each alternative begins with the values `given`: one that isn't met may have added others.
                    found.clear();
                    found.extend_from_slice(given)?;
                    if simple.meets(&happening.what, found)? {
                        return Ok(true);
                    }
                    rest = more;
                }
            }
        }
    }

    // Whether a happening meets the event, whatever values the variables get. `found` is scratch memory: what is in it before and after doesn't
    // matter. The error is refused memory.
    pub(crate) fn is_met(
        &self,
        happening: &Happening,
        found: &mut Vec<Bound>,
    ) -> Result<bool, AllocError>
        ensures { IfOk result (λ met. met ≡ is_met self.now happening.now) }
    {
        // No variable has a value before.
        self.meets(happening, &[], found)
    }
}
