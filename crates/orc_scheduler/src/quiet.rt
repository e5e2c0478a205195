//! Whether a run is quiet, by the rules alone: the one place where an engine asks the checker.

ghost use Rattle.std.specs.Prelude.{◌≡◌, ◌↔◌, true, IfSome};
ghost use Rattle.orc_rules.specs.Nodes.{source};
ghost use Rattle.orc_rules.specs.Timed.{IsQuiet};
ghost use Rattle.orc_rules.specs.Journal.{Place, Journal as Leads, begin, moment};
ghost use Rattle.orc_outcome.specs.Outcome.{context};

use orc_checker::Marked;
use orc_journal::Journal;
use orc_rules::answers::Answers;
use orc_rules::program::Program;
use std::alloc::Global;

/// Whether a run with this journal is quiet (it hasn't halted, and nothing can come next), by the rules alone: it applies each entry to the checker's
/// marked term, the program's term with marks for its tokens. None if memory is refused, or if the marked term refuses an entry, as it does in no
/// journal of a ledger.
pub(crate) fn is_quiet_at(
    alloc: Global,
    program: &Program,
    answers: &Answers,
    journal: &Journal,
) -> Option<bool>
    ensures { IfSome result (λ quiet. (p : Place) → Leads (context program.now answers.now) (begin (source program.now)) journal.now.entries p → (quiet ≡ true) ↔ IsQuiet (context program.now answers.now) (moment p)) }
{
    // `true` says that the journal records the cancels of each bind.
    let Ok(mut marked) = Marked::new(alloc, program, true) else {
        return None;
    };
    for at in 0..journal.len() {
        // None doesn't come: `at` is below the journal's length.
        let Some(entry) = journal.get(at) else {
            return None;
        };
        match marked.step(program, answers, &entry) {
            Ok(()) => {}
            // The marked term refuses the entry, or memory was refused.
            Err(_) => return None,
        }
    }
    Some(marked.is_quiet(program))
}
