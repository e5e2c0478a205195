//! Occurrences, which are what became of calls and publications, as `Once` looks for them and compares them. `Once` is a list to which an equal item
//! isn't added again. A `Phase` is what became of a call: it was made, answered with a value, halted without one, or cancelled, which means that it
//! was dropped before. A site has the number that claims have for it.

ghost use Rattle.std.specs.Prelude.{◌≡◌, true, slice_index_or};
ghost use Rattle.orc_rules.specs.declared.value.Value.TheVariants.{Signal};
ghost use Rattle.orc_claims.specs.declared.happening.Occurrence.TheVariants.{Published};

use crate::once::Hashed;
use orc_claims::happening::{Occurrence, Phase};
use orc_rules::builtin::are_same;
use orc_rules::value::Value;
use orc_search::node::{mix, mix_value};

// Whether the two calls have become the same, with equal values. Only true is promised to mean it.
fn is_same_phase(one: Phase, other: Phase) -> bool
    ensures { result ≡ true → one ≡ other }
{
    one == other
}

// Whether both are equal: the same became of calls of one site with the same arguments, or equal values were published. Only true is promised.
fn is_same(one: &Occurrence, other: &Occurrence) -> bool
    ensures { result ≡ true → one.now ≡ other.now }
{
    match (one, other) {
        (Occurrence::Call(site, args, phase), Occurrence::Call(called, others, became)) => {
            if *site != *called || !is_same_phase(*phase, *became) {
                return false;
            }
            are_same(args.as_slice(), others.as_slice())
        }
        (Occurrence::Published(value), Occurrence::Published(other)) => *value == *other,
        // One is a call, the other a publication.
        _ => false,
    }
}

// A hash with what became of a call mixed in: its answer's value, or, where there is none, a number for the phase.
fn hash_of_phase(mixed: u64, phase: Phase) -> u64 {
    match phase {
        Phase::Called => mix(mixed, 1),
        Phase::Answered(value) => mix_value(mixed, value),
        Phase::Halted => mix(mixed, 2),
        Phase::Cancelled => mix(mixed, 3),
    }
}

// The hash by which an equal occurrence is looked for. Each kind mixes in a small number of its own: 1 for a call, 2 for a publication.
fn hash_of(what: &Occurrence) -> u64 {
    match what {
        Occurrence::Call(site, args, phase) => {
            let mut mixed = hash_of_phase(mix(1, *site as u64), *phase);
            for arg in args.as_slice() {
                mixed = mix_value(mixed, *arg);
            }
            mixed
        }
        Occurrence::Published(value) => mix_value(2, *value),
    }
}

/// A copy of an occurrence. It asks for no memory: `Args` has its values in place.
pub(crate) fn copied(what: &Occurrence) -> Occurrence
    ensures { result ≡ what.now }
{
    match what {
        Occurrence::Call(site, args, phase) => Occurrence::Call(*site, args.copied(), *phase),
        Occurrence::Published(value) => Occurrence::Published(*value),
    }
}

/// A copy of the occurrence at that place, from 0; some publication if there is none, which no caller asks for.
pub(crate) fn copied_at(occurrences: &[Occurrence], at: usize) -> Occurrence
    ensures { result ≡ slice_index_or occurrences.now at (Published Signal) }
{
    match occurrences.get(at) {
        Some(what) => copied(what),
        None => Occurrence::Published(Value::Signal),
    }
}

impl Hashed for Occurrence {
    // The hash of the function above, by which `Once` looks for an occurrence.
    fn hash(&self) -> u64 {
        hash_of(self)
    }

    // The comparison of the function above.
    fn is_same(&self, other: &Occurrence) -> bool {
        is_same(self, other)
    }
}
