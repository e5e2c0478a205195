//! Whether the left side of an otherwise (`f ; g`) has published, so that its right side never runs. A *step* is the entry into the right side of a
//! `<x<`, or into the left side of a `;` or a `>x>`. The step into the left side of an otherwise notes whether that has published.

ghost use Rattle.std.specs.Prelude.{◌≡◌, ◌≤◌, false, Some, IfSome, IfNone};
ghost use Rattle.orc_indexes.specs.Same.{weight};
ghost use Rattle.orc_frames.specs.Paths.{enters_left_of, has_published_at, has_published, tries};
ghost use Rattle.orc_tables.specs.Steps.{step_at};
ghost use Rattle.orc_tables.specs.declared.records.Step.{Step as Entering};

use orc_tables::{Frame, Steps};

// Whether what a step enters is the left side of the otherwise (`f ; g`) with this number, the mark of the token that entered it.
fn enters_left_of(entered: Frame, number: u64) -> bool
    ensures { result ≡ enters_left_of number entered }
{
    match entered {
        Frame::OtherwiseLeft(other) => number == other,
        _ => false,
    }
}

/// Whether the otherwise with this number, which is the mark of the token that entered it, has published: true keeps its right side from ever
/// running. `step`, from 1, is a guess which step enters that left side: None if the guess is wrong, and then nothing is known. The contract asks
/// that at most one step enters the otherwise with this number (`weight` counts the steps for which `tries` is 1): so no other step tells of it.
pub fn published_at(steps: &Steps, step: usize, number: u64) -> Option<bool>
    requires { weight (tries number) steps.now.items ≤ 1 }
    ensures left { IfSome result (λ left. left ≡ has_published steps.now.items number) }
    ensures other { IfNone result ((p : Entering) → step_at steps.now.items step ≡ Some p → enters_left_of number p.entered ≡ false) }
{
    let step = steps.at(step)?;
    if enters_left_of(step.entered, number) {
        Some(step.published)
    } else {
        None
    }
}

// Whether the step with the number `step`, from 1, enters the left side of the otherwise with this number, and that has published. False if there is
// no such step.
fn has_published_at(steps: &Steps, step: usize, number: u64) -> bool
    ensures { result ≡ has_published_at number (step_at steps.now.items step) }
{
    match steps.at(step) {
        Some(step) => step.published && enters_left_of(step.entered, number),
        None => false,
    }
}

/// Whether the otherwise with this number has published; false for a number that no otherwise has. It looks at one step after another, and at all of
/// them where it hasn't.
pub fn has_published(steps: &Steps, number: u64) -> bool
    ensures { result ≡ has_published steps.now.items number }
{
    let mut at = 0;
    while at < steps.len() {
        // Steps are numbered from 1.
        if has_published_at(steps, at + 1, number) {
            return true;
        }
        at += 1;
    }
    false
}
