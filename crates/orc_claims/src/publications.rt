//! Claims on what is published.

ghost use Rattle.std.specs.Prelude.{◌≡◌, IfOk, nat_eq};
ghost use Rattle.orc_rules.specs.Sites.{matches};
ghost use Rattle.orc_claims.specs.Claims.{are_same_in_any_order, each_as_often, is_among, is_one_of, published, times};

use crate::happening::{Happening, Occurrence};
use orc_rules::builtin::is_same;
use orc_rules::value::Value;
use std::alloc::{AllocError, Global};

/// The values that were published in a run, in the order of its happenings. The error is refused memory.
pub(crate) fn published(alloc: Global, happenings: &[Happening]) -> Result<Vec<Value>, AllocError>
    ensures { IfOk result (λ values. values.items ≡ published happenings.now) }
{
    let mut values = Vec::new(alloc);
    let mut rest = happenings;
    loop {
        match rest {
            [] => return Ok(values),
            [happening, more @ ..] => {
                if let Occurrence::Published(value) = &happening.what {
                    values.push(*value)?;
                }
                rest = more;
            }
        }
    }
}

/// Whether the values are the wanted ones in this order, and as many. None in `wanted` stands for any value.
pub(crate) fn are_in_order(wanted: &[Option<Value>], values: &[Value]) -> bool
    ensures { result ≡ matches wanted.now values.now }
{
    let mut rest = wanted;
    let mut others = values;
    loop {
        match rest {
            // No value is wanted any more, so none may be left.
            [] => return others.is_empty(),
            [slot, more @ ..] => match others {
                // A value is wanted, but none is left.
                [] => return false,
                [value, behind @ ..] => {
                    if let Some(wanted) = slot
                        && !is_same(*wanted, *value)
                    {
                        return false;
                    }
                    rest = more;
                    others = behind;
                }
            },
        }
    }
}

// How often `value` is among `values`.
fn times(value: Value, values: &[Value]) -> usize
    ensures { result ≡ times value values.now }
{
    let mut times = 0;
    for at in 0..values.len() {
        if is_same(value, values[at]) {
            times += 1;
        }
    }
    times
}

// Whether a value is among `values` as often as among `others`.
fn is_as_often(value: Value, values: &[Value], others: &[Value]) -> bool
    ensures { result ≡ nat_eq (times value values.now) (times value others.now) }
{
    times(value, values) == times(value, others)
}

// Whether each value of `first` is among `values` as often as among `others`.
fn each_as_often(first: &[Value], values: &[Value], others: &[Value]) -> bool
    ensures { result ≡ each_as_often first.now values.now others.now }
{
    for at in 0..first.len() {
        if !is_as_often(first[at], values, others) {
            return false;
        }
    }
    true
}

/// Whether `values` are the wanted ones in any order, each as often. It takes the time of their number squared.
pub(crate) fn are_same_in_any_order(wanted: &[Value], values: &[Value]) -> bool
    ensures { result ≡ are_same_in_any_order wanted.now values.now }
{
    // With as many values as are wanted, and each wanted one as often, there is no room for another value.
    wanted.len() == values.len() && each_as_often(wanted, wanted, values)
}

/// Whether `values` is one value, and it is one of the wanted ones.
pub(crate) fn is_one_of(wanted: &[Value], values: &[Value]) -> bool
    ensures { result ≡ is_one_of wanted.now values.now }
{
    // False where no value was published, or more than one.
    let [value] = values else {
        return false;
    };
    let mut rest = wanted;
    loop {
        match rest {
            // It is none of the wanted ones.
            [] => return false,
            [wanted, more @ ..] => {
                if is_same(*wanted, *value) {
                    return true;
                }
                rest = more;
            }
        }
    }
}
