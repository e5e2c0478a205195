//! Sorted numbers as intervals: 3, 4, 5 and 9 are 3 to 5 and 9 to 9.
//!
//! The loops take `rest`, what is left of a slice, apart from the front, as the definitions in specs/ take lists apart.

ghost use Rattle.std.specs.Prelude.{◌≡◌, IfOk};
ghost use Rattle.orc_cases.specs.Intervals.{alone, intervals};

use std::alloc::{AllocError, Global};

/// The numbers from a first to a last one, both included.
#[derive(Clone, Copy)]
pub(crate) struct Interval {
    pub(crate) first: u64,
    pub(crate) last: u64,
}

// The interval of one number.
fn alone(number: u64) -> Interval
    ensures { result ≡ alone number }
{
    Interval {
        first: number,
        last: number,
    }
}

/// The intervals of ascending numbers, in which a number may stand more than once. Between two intervals at least one number is missing. Without
/// numbers there are none. The error is refused memory.
pub(crate) fn intervals(alloc: Global, numbers: &[u64]) -> Result<Vec<Interval>, AllocError>
    ensures { IfOk result (λ is. is.items ≡ intervals numbers.now) }
{
    let mut all = Vec::new(alloc);
    let [first, behind @ ..] = numbers else {
        return Ok(all);
    };
    // The last interval so far: the next number may still extend it.
    let mut open = alone(*first);
    let mut rest = behind;
    loop {
        match rest {
            [] => {
                all.push(open)?;
                return Ok(all);
            }
            [number, more @ ..] => {
                // A number that isn't greater is in the open interval already; a greater one isn't 0, so the subtraction is safe.
                if *number > open.last {
                    if *number - 1 == open.last {
                        open.last = *number;
                    } else {
                        all.push(open)?;
                        open = alone(*number);
                    }
                }
                rest = more;
            }
        }
    }
}
