//! The result of a run: how it ended, what it published, and its journal. In contracts the type `P` names the run: `P.listing` is its program,
//! `P.limit` the most entries that it may have, and `P.keeps` says whether its journal is kept. `HasEnded` says that it has ended so, and `IsPlayed`
//! that a result is that of such a run.

ghost use Rattle.std.specs.Prelude.{◌≡◌, true, is_some, IfOk, IfSome};
ghost use Rattle.orc_rules.specs.Trace.{published};
ghost use Rattle.orc_journal.specs.declared.journal.Version.TheVariants.{Two};
ghost use Rattle.orc_outcome.specs.Outcome.{IsPlayed};
ghost use Rattle.orc_scheduler.specs.Ends.{HasEnded};

use orc_journal::Journal;
use orc_ledger::{Inputs, Ledger, Run};
use orc_outcome::{End, Played, Summary};
use orc_rules::value::Value;
use std::alloc::{AllocError, Global};

// What the run of this ledger has published, in order, and the run's journal where it `keeps` one. The error is refused memory.
fn kept<P: Run>(
    alloc: Global,
    ledger: Ledger<P>,
    keeps: bool,
) -> Result<(Vec<Value>, Option<Journal>), AllocError>
    requires keeps { keeps ≡ P.keeps }
    ensures published { IfOk result (λ kept. kept.0.items ≡ published ledger.journal) }
    ensures journal { IfOk result (λ kept. IfSome kept.1 (λ j. j ≡ record { version = Two; entries = ledger.journal })) }
    ensures kept { IfOk result (λ kept. P.keeps ≡ true → is_some kept.1 ≡ true) }
{
    if !keeps {
        return Ok((ledger.into_published()?, None));
    }
    let journal = ledger.into_journal();
    let values = journal.published(alloc)?;
    Ok((values, Some(journal)))
}

/// The result of a run that has ended as `end` says, with its journal if it `keeps` one. The ledger has the run's records; `inputs` is there for the
/// contract alone. The error is refused memory.
pub(crate) fn played<P: Run>(
    alloc: Global,
    ledger: Ledger<P>,
    inputs: &Inputs<'_, P>,
    keeps: bool,
    end: End,
) -> Result<Played, AllocError>
    requires ended { HasEnded P.listing inputs.now.answers.now ledger end }
    requires keeps { keeps ≡ P.keeps }
    ensures played { IfOk result (λ p. IsPlayed P.listing inputs.now.answers.now P.limit p.summary p.published.items p.journal) }
    ensures kept { IfOk result (λ p. P.keeps ≡ true → is_some p.journal ≡ true) }
{
    // The logical time of the end, read here, since the ledger is used up below.
    let now = ledger.time();
    // Two laws: they show the prover what the journal is and that its limit is the run's, for the clause *played*. Nothing runs.
    ledger.is_whole();
    ledger.keeps_limit();
    // The cancels are counted here.
    let entries = ledger.journal_len() as u64;
    let (published, journal) = kept(alloc, ledger, keeps)?;
    Ok(Played {
        summary: Summary {
            end,
            entries,
            now,
            published: published.len() as u64,
        },
        published,
        journal,
    })
}
