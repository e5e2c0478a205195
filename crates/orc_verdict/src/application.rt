//! One entry applied, or refused for the first reason: for a caller who needs its label, or the term unchanged after a refusal. A *label* is what an
//! observer sees of an entry. The marked term (`marked`) is what is left of the program's term after the entries before. A *place* is that term with
//! its calls and the time.

ghost use Rattle.std.specs.Prelude.{◌≡◌, true, IfOk, IfErr, OnErr};
ghost use Rattle.orc_rules.specs.Nodes.{code};
ghost use Rattle.orc_checker.specs.Labelling.{Shows};
ghost use Rattle.orc_verdict.specs.Applying.{ShowsTaken, StaysShallow};
ghost use Rattle.orc_verdict.specs.Heights.{AreHeights};
ghost use Rattle.orc_verdict.specs.Verdicts.{Stops};

use crate::depth::{depth_of, most_depth};
use crate::heights::Heights;
use crate::reasons::first_reason;
use crate::verdict::{allowed, deepening};
use orc_checker::Marked;
use orc_rules::answers::Answers;
use orc_rules::entry::{Entry, Label, RuleFault};
use orc_rules::laws::meets_and_leads;
use orc_rules::limits::MOST_LEVELS;
use orc_rules::program::Program;
use std::alloc::Global;

// Why an entry was refused: the first reason, or Memory where there is none, since an entry that meets all conditions is refused for memory alone.
fn reason_or_memory(
    marked: &mut Marked,
    program: &Program,
    answers: &Answers,
    entry: &Entry,
) -> RuleFault
    ensures why { Stops program.now answers.now entry.now marked.old result }
    ensures same { marked.new ≡ marked.old }
{
    // A law that the prover is shown: an entry leads somewhere exactly if no reason but Deep and Memory refuses it. Nothing runs.
    meets_and_leads();
    match first_reason(marked, program, answers, entry) {
        Some(reason) => reason,
        None => RuleFault::Memory,
    }
}

// Whether the term after an entry surely nests no deeper than a checked term may, by bounds alone; `heights` are how deep the program's terms nest.
// The function looks at no node; false doesn't say that the term nests deeper.
fn stays_shallow(heights: &Heights, marked: &Marked, entry: &Entry) -> bool
    ensures { result ≡ true → StaysShallow heights.now entry.now marked.now }
{
    let most = heights.most();
    // A bound for the levels of the term before the entry; None if no bound is known.
    let Some(levels) = most_depth(marked, most) else {
        return false;
    };
    // None if that bound, with the levels that the entry may add, is over `MOST_LEVELS`.
    match allowed(levels, deepening(most, entry)) {
        Some(_) => true,
        None => false,
    }
}

// Applies an entry, whatever the depth of the term after it. The error is the first reason, never Deep; nothing has changed then. By `Shows` the
// entry has the label and leads on from each place that `marked` describes; by `Stops` the fault is the first reason
// there, or Memory if there is none.
fn apply_at_any_depth(
    alloc: Global,
    marked: &mut Marked,
    program: &Program,
    answers: &Answers,
    entry: &Entry,
) -> Result<Option<Label>, RuleFault>
    ensures done { IfOk result (λ label. Shows program.now answers.now entry.now marked.old marked.new label) }
    ensures why { IfErr result (Stops program.now answers.now entry.now marked.old) }
    ensures refused { OnErr result (marked.new ≡ marked.old) }
{
    match marked.apply(alloc, program, answers, entry) {
        Ok(label) => Ok(label),
        // The checker names a reason that isn't always the first one.
        Err(_) => Err(reason_or_memory(marked, program, answers, entry)),
    }
}

/// Applies one entry and gives its label, none for a move of marks or a tick; `heights` are those of the program's terms. The error is the first
/// reason why the entry is refused, Deep where the term after it would nest over `MOST_LEVELS` levels, or Memory where there is no other but
/// perhaps its depth; then nothing has changed.
///
/// An entry after which the term may nest too deep is tried on a copy of the marked term. Where `heights` are those of the program's terms
/// (`AreHeights`), `ShowsTaken` promises that the label is the entry's, that the entry leads to what the marked term spells now, and that this nests
/// over no more than `MOST_LEVELS` levels.
pub fn apply(
    alloc: Global,
    heights: &Heights,
    marked: &mut Marked,
    program: &Program,
    answers: &Answers,
    entry: &Entry,
) -> Result<Option<Label>, RuleFault>
    ensures done { IfOk result (λ label. AreHeights (code program.now) heights.now → ShowsTaken program.now answers.now entry.now marked.old marked.new label) }
    ensures why { IfErr result (λ why. AreHeights (code program.now) heights.now → Stops program.now answers.now entry.now marked.old why) }
    ensures refused { OnErr result (marked.new ≡ marked.old) }
{
    // A law that the prover is shown: an entry leads somewhere exactly if no reason but Deep and Memory refuses it. Nothing runs.
    meets_and_leads();
    if stays_shallow(heights, marked, entry) {
        return match apply_at_any_depth(alloc, marked, program, answers, entry) {
            Ok(label) => Ok(label),
            Err(why) => Err(why),
        };
    }
    let Ok(mut tried) = marked.copy(alloc) else {
        // Memory for the copy is refused, but the entry may be refused for another reason first.
        return Err(reason_or_memory(marked, program, answers, entry));
    };
    // If the copy refuses the entry, or becomes too deep, `marked` stays as it was.
    let label = apply_at_any_depth(alloc, &mut tried, program, answers, entry)?;
    match depth_of(alloc, heights, &tried) {
        Ok(levels) => {
            if levels > MOST_LEVELS {
                return Err(RuleFault::Deep);
            }
            *marked = tried;
            Ok(label)
        }
        Err(_) => Err(RuleFault::Memory),
    }
}
