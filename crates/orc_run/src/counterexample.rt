//! The text below a claim of a test that fails: the lines of the way in which it does, where it fails in a run of that way, and the run's picture. A
//! *way* is one choice of what the services of the test's case answer. Its *unusual* lines tell it from other ways: there a call takes another
//! alternative than the first, or one with a range. A `Failure` names the way, the order in which turns came, and where the claim fails. A *schedule*
//! is any sequence of moves that the rules allow. `trials` has the source, the claims, and the sites that these name.

ghost use Rattle.std.specs.Prelude.{◌≡◌, ◌++◌, IfOk, OnOk};
ghost use Rattle.orc_findings.specs.Below.{way_text};
ghost use Rattle.orc_run.specs.Details.{failing_in, sighted_or_none, sighted_text};

use crate::searched::Sighted;
use orc_draw::{DrawFault, Subject, draw_rows};
use orc_findings::{Ended, write_each, write_way};
use orc_load::load;
use orc_orders::{Run, Trials, state_at};
use orc_rules::limits::MOST_ROWS;
use orc_syntax::parse;
use orc_tally::Failure;
use std::alloc::{AllocError, Global};

/// About how many columns wide the picture of a run is: as many as `orc draw --text` takes by default.
const WIDTH: u64 = 80;

/// What stands below a claim that fails in a run: the failure's number, from 1, the unusual `lines` of the way, and where the claim fails in `run`,
/// which is that of `failure`'s order. The error is refused memory.
pub fn trial_text(
    alloc: Global,
    trials: &Trials<'_, '_>,
    number: usize,
    lines: &[u8],
    run: &Run,
    failure: Failure,
) -> Result<Vec<u8>, AllocError>
    ensures { IfOk result (λ t. t.items ≡ way_text number lines.now ++ failing_in trials.now run.now failure) }
{
    let ended = Ended {
        happenings: run.happenings.as_slice(),
        end: run.played.summary.end,
        time: run.played.summary.now,
    };
    let mut text = Vec::new(alloc);
    write_way(alloc, number, lines, &mut text)?;
    ended.write_failing(
        alloc,
        trials.sites,
        failure.verdict,
        failure.order,
        &mut text,
    )?;
    Ok(text)
}

// Writes what a claim saw of a run, and how the run ended, both as the search told it: there is no journal. The error is refused memory.
fn write_sighted(
    alloc: Global,
    trials: &Trials<'_, '_>,
    sighted: &Sighted,
    text: &mut Vec<u8>,
) -> Result<(), AllocError>
    ensures { OnOk result (text.new.items ≡ text.old.items ++ sighted_text trials.now sighted.now) }
{
    let ended = Ended {
        happenings: sighted.seen.happened.as_slice(),
        end: sighted.seen.end,
        time: sighted.seen.now,
    };
    ended.write_seen(alloc, trials.sites, sighted.latest, text)
}

/// What stands below a claim that only the search through all schedules found to fail: the failure's number, from 1, the unusual `lines` of the way,
/// and what the claim saw of a run of it. `sighted` is None if no search finds one any more; then only the lines are written. The error is refused
/// memory.
pub fn schedule_text(
    alloc: Global,
    trials: &Trials<'_, '_>,
    number: usize,
    lines: &[u8],
    sighted: Option<Sighted>,
) -> Result<Vec<u8>, AllocError>
    ensures { IfOk result (λ t. t.items ≡ way_text number lines.now ++ sighted_or_none trials.now sighted) }
{
    let mut text = Vec::new(alloc);
    write_way(alloc, number, lines, &mut text)?;
    match sighted {
        Some(sighted) => write_sighted(alloc, trials, &sighted, &mut text)?,
        // No search finds such a run any more, so only the lines stand there.
        None => {}
    }
    Ok(text)
}

/// Writes the rows of the picture of a run that shows a failure, nine blanks before each; or that they are too many. `run` is one of the program that
/// `source` spells with the way's script, with its journal. The error is refused memory.
pub fn write_picture(
    alloc: Global,
    source: &[u8],
    script: &[u8],
    mut run: Run,
    text: &mut Vec<u8>,
) -> Result<(), AllocError> {
    // The run was made of both texts: only memory can be refused here.
    let Ok(loaded) = load(alloc, source, script) else {
        return Err(AllocError);
    };
    let Ok(ast) = parse(alloc, source) else {
        return Err(AllocError);
    };
    let state = state_at(run.played.summary.end);
    // The journal moves into the picture's subject. `run` has it, so None doesn't come.
    let Some(journal) = run.played.journal.take() else {
        return Err(AllocError);
    };
    let subject = Subject {
        // A row has no place for a title.
        name: "",
        source,
        ast,
        answers: loaded.into_answers(),
        journal,
        state,
    };
    match draw_rows(alloc, &subject, WIDTH) {
        Ok(rows) => write_each(b"         ", rows.as_str().as_bytes(), text),
        Err(DrawFault::Rows) => {
            let line = format!(in alloc; "(not drawn: over {MOST_ROWS} rows)\n")?;
            write_each(b"         ", line.as_bytes(), text)
        }
        Err(DrawFault::Memory) => Err(AllocError),
    }
}
