//! When a call is due. `found` is what the table of sites says of the call: its answer and a delay in units of logical time, or that it is never
//! answered.

ghost use Rattle.std.specs.Prelude.{◌≡◌, IfOk, IfErr};
ghost use Rattle.orc_calls.specs.Due.{due_by, DueNow, IsNotDue};

use orc_rules::entry::RuleFault;
use orc_rules::value::{Answer, Found};

/// The logical time at which a call is due: the time at which it was made, and the delay of its answer. None if it is never due: the table says
/// never, or the sum is over the greatest time, 2^64 - 1.
pub fn due_time(found: Found, made_at: u64) -> Option<u64>
    ensures { result ≡ due_by made_at found }
{
    match found {
        Found::Never => None,
        Found::After(_, delay) => made_at.checked_add(delay),
    }
}

/// Checks that a call which was made at the time `made_at` is due now, at the time `now`, with this answer, by what the table said when it was made
/// (`found`). The error is Answer if the table said another answer or never, and Time if the call is due at another time, or never since the sum is
/// over the greatest time.
#[inline(always)]
pub fn check_due(found: Found, made_at: u64, answer: Answer, now: u64) -> Result<(), RuleFault>
    ensures due { IfOk result (λ _. DueNow made_at found answer now) }
    ensures not_due { IfErr result (λ r. IsNotDue made_at found answer now r) }
{
    match found {
        // `made_at` and the delay of the table's answer say when the call is due.
        Found::After(given, delay) if given == answer => {
            if made_at.checked_add(delay) == Some(now) {
                Ok(())
            } else {
                Err(RuleFault::Time)
            }
        }
        _ => Err(RuleFault::Answer),
    }
}
