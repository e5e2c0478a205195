//! What the table of sites answers to a call that was made, and when. `marked` is the marked term with the calls that were made. A `Called` is such a
//! call, with what the table said of it then (`found`).

ghost use Rattle.std.specs.Prelude.{◌≡◌, ℕ, IfSome, IfNone};
ghost use Rattle.std.specs.Bool.{Decides};
ghost use Rattle.orc_rules.specs.Refusal.{IsAnswer};
ghost use Rattle.orc_rules.specs.Timed.{IsDue};
ghost use Rattle.orc_rules.specs.declared.value.Found.TheVariants.{After};
ghost use Rattle.orc_checker.specs.declared.rest.Called.{Called as CallMade};
ghost use Rattle.orc_checker.specs.Calls.{IsCall, IsDueNow};
ghost use Rattle.orc_verdict.specs.Reasons.{Says};

use orc_checker::Marked;
use orc_checker::rest::Called;
use orc_rules::value::{Answer, Found};

/// The call with the number `k`, from 1, whether it pends or not. None if there is no such call.
fn call_made(marked: &Marked, k: u64) -> Option<Called>
    ensures call { IfSome result (λ c. IsCall marked.now.rest k c) }
    ensures none { IfNone result ((c : CallMade) → IsCall marked.now.rest k c → ⊥) }
{
    if k == 0 {
        return None;
    }
    match marked.calls().get((k - 1) as usize) {
        Some(kept) => Some(kept.called()),
        None => None,
    }
}

/// Whether the table's answer to a call is this one, whenever it is due.
fn gives(called: Called, answer: Answer) -> bool
    ensures { Decides result ((d : ℕ) × (called.found ≡ After answer d)) }
{
    match called.found {
        Found::After(given, _) => given == answer,
        // The table never answers this call.
        Found::Never => false,
    }
}

/// Whether the table's answer to a call is this one, and due at this time, in units of logical time.
fn is_due_at(called: Called, answer: Answer, time: u64) -> bool
    ensures { Decides result (IsDueNow called answer time) }
{
    match called.found {
        Found::After(given, delay) => {
            // Not `called.at + delay`, which may overflow: then the call is never due.
            given == answer && time >= called.at && time - called.at == delay
        }
        // The table never answers this call.
        Found::Never => false,
    }
}

/// Whether the table's answer to call `k`, from 1, is this one, whenever it is due; false if there is no such call. By `Says` the answer holds at
/// each place, a term with its calls and the time, that `marked` describes and in which no mark, call or cell is twice.
pub(crate) fn is_answer(marked: &Marked, k: u64, answer: Answer) -> bool
    ensures { Says marked.now result (λ x p. IsAnswer x p k answer) }
{
    match call_made(marked, k) {
        Some(called) => gives(called, answer),
        None => false,
    }
}

/// Whether the table's answer to call `k`, from 1, is this one, and due now; false if there is no such call. By `Says` the answer holds at each
/// place, a term with its calls and the time, that `marked` describes and in which no mark, call or cell is twice.
pub(crate) fn is_due(marked: &Marked, k: u64, answer: Answer) -> bool
    ensures { Says marked.now result (λ x p. IsDue x.sites p.calls k answer p.now) }
{
    match call_made(marked, k) {
        Some(called) => is_due_at(called, answer, marked.now()),
        None => false,
    }
}
