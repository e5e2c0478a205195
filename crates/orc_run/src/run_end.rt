//! How a run ended, explained by its journal.

use orc_explain_end::{Ended, explain_end, explain_refused_memory};
use orc_load::Loaded;
use orc_outcome::{End, Played};
use orc_report::Subject;
use std::alloc::{AllocError, Global};

/// The text that explains how a run of these files ended. `played` is the run with its journal, and `loaded` its program. Of a run that halted it
/// says what looks like a mistake, and is empty if nothing does. The error is refused memory, or that the run kept no journal.
pub fn explain_run(
    alloc: Global,
    subject: &Subject,
    loaded: &Loaded,
    played: &Played,
) -> Result<String, AllocError> {
    if played.summary.end == End::Memory {
        // Such a run is explained by its summary alone, without its journal.
        return explain_refused_memory(alloc, played.summary);
    }
    let Some(journal) = &played.journal else {
        return Err(AllocError);
    };
    let ended = Ended {
        program: &loaded.program,
        answers: &loaded.answers,
        summary: played.summary,
        journal,
    };
    explain_end(alloc, subject, &ended)
}
