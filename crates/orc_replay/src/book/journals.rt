//! Journals replayed from their beginning to their end. A *pass* stands for one record (a token, a call, a group inside) in its group; the whole
//! program has a group, too. A *warm* pass goes with no record, and is kept for the next one. A group's *word* counts its passes. An *idle* pass
//! names no group; to *leave* a pass makes it idle. A token is *out* while it is with the replay and not with the book. `setup` has the program, the
//! table of sites and the words.

ghost use Rattle.std.specs.Prelude.{◌≡◌, ◌*◌, true};
ghost use Rattle.orc_rules.specs.declared.limits.TheConstants.{MOST_ENTRIES, MOST_GROUPS};

use crate::book::replay::Replay;
use crate::book::setup::{PASSES, Setup, WORDS};
use crate::stop::{Mismatch, REFUSED, Stop, UNREAD};
use crate::texts::are_same;
use orc_graph::Graph;
use orc_journal::{Journal, Version};
use orc_journal_text::read_journal;
use orc_ledger::{Inputs, Next};
use orc_load::load;
use orc_log::Run;
use orc_rules::answers::Answers;
use orc_rules::entry::{Entry, State};
use orc_rules::limits::MOST_ENTRIES;
use orc_word::{Naming, Unnamed};
use std::alloc::Global;
use std::marker::Brand;

/// How many passes to the program's own group a replay keeps for the next records there, as a worker keeps some. The number only bears on speed.
const MOST_WARM: usize = 64;

/// Replays the text of a journal of the second version: a book that begins with the program does each entry by the call for its kind, and the replay
/// leaves each pass as soon as no record has it. Ok if the book writes the same journal: how many entries it has, cancels too, and the state to which
/// they have led, Halted, Quiet (nothing can come next, though the run hasn't halted) or Running.
pub(crate) fn replay_text(
    alloc: Global,
    source: &[u8],
    script: &[u8],
    text: &[u8],
) -> Result<(usize, State), Stop> {
    let Ok(loaded) = load(alloc, source, script) else {
        return Err(UNREAD);
    };
    let Ok(journal) = read_journal(alloc, text, &loaded.answers) else {
        return Err(UNREAD);
    };
    let Ok(graph) = Graph::build(alloc, &loaded.program) else {
        return Err(REFUSED);
    };
    if journal.version() != Version::Two {
        return Err(UNREAD);
    }
    // A new table of words, which has no name in contracts yet: `replay_named` names it.
    let Ok(words) = Unnamed::new(alloc, WORDS, PASSES) else {
        return Err(REFUSED);
    };
    replay_named::<Brand>(alloc, words, &graph, &loaded.answers, &journal)
}

// Replays a journal. In contracts `P` stands for the run and its table of words; the caller picks it, and the clauses ask that `P` has this graph,
// these sites and these words. The error names the first entry that fails, the last one for what is found only in the end (`state_of`), or 0 if
// nothing was replayed.
fn replay_named<P: Run + Naming>(
    alloc: Global,
    words: Unnamed,
    graph: &Graph,
    answers: &Answers,
    journal: &Journal,
) -> Result<(usize, State), Stop>
    requires graph { graph.now ≡ P.listing }
    requires answers { answers.now.sites ≡ P.sites }
    requires limit { P.limit ≡ MOST_ENTRIES }
    requires keeps { P.keeps ≡ true }
    requires table { words.table.shared.table_id ≡ P.table }
    requires words { words.table.shared.table_id.words ≡ 2 * MOST_GROUPS }
{
    // Each group has a word, which counts its passes; `supply` has all passes, idle. `begin` makes a book whose first token is out, and takes that
    // token's pass from the supply. None is refused memory.
    let (groups, supply) = words.named::<P>();
    let inputs = Inputs::new(graph, answers);
    let setup = Setup {
        inputs: &inputs,
        groups: &groups,
    };
    let limit = MOST_ENTRIES as usize;
    let Some(mut replay) = Replay::<P>::begin(alloc, &setup, supply, WORDS, limit) else {
        return Err(REFUSED);
    };
    replay.held.passes.keep_warm(MOST_WARM);
    follow(&setup, &mut replay, journal)?;
    let entries = journal.len();
    match state_of(alloc, &setup, replay, journal) {
        Ok(state) => Ok((entries, state)),
        Err(why) => Err(Stop { at: entries, why }),
    }
}

// Has the book do what the entries say, up to the first one that fails.
fn follow<P: Run + Naming>(
    setup: &Setup<'_, P>,
    replay: &mut Replay<P>,
    journal: &Journal,
) -> Result<(), Stop> {
    // Lent to `read`, which overwrites it.
    let mut entry = Entry::Tick(0);
    for at in 0..journal.len() {
        // Not reached: there is an entry at each place before the length.
        if !journal.read(at, &mut entry) {
            break;
        }
        if let Err(why) = replay.enter(setup, &entry) {
            return Err(Stop {
                at: at.saturating_add(1),
                why,
            });
        }
    }
    Ok(())
}

// The state to which the entries have led. Other if the book has written another journal, if it has closed the program's own group though the term
// hasn't halted, or if it hasn't though the term has.
fn state_of<P: Run + Naming>(
    alloc: Global,
    setup: &Setup<'_, P>,
    mut replay: Replay<P>,
    journal: &Journal,
) -> Result<State, Mismatch>
    requires keeps { P.keeps ≡ true }
{
    // Whether the book has closed the program's own group.
    let has_ended = replay.close_run(setup)?;
    let mut ledger = replay.into_ledger();
    match are_same(alloc, setup.inputs.answers, ledger.journal(), journal) {
        Some(true) => {}
        Some(false) => return Err(Mismatch::Other),
        None => return Err(Mismatch::Memory),
    }
    if ledger.has_halted() != has_ended {
        return Err(Mismatch::Other);
    }
    if has_ended {
        return Ok(State::Halted);
    }
    match ledger.next(setup.inputs) {
        Next::Quiet => Ok(State::Quiet),
        Next::Work | Next::Ticks(_) => Ok(State::Running),
    }
}

/// Reads a journal's text as `replay_text` does, compares it with itself, and gives how many entries it has; `bench/book` subtracts the time
/// of this from that of a replay. None if a text can't be read, or memory is refused.
pub(crate) fn read_text(alloc: Global, source: &[u8], script: &[u8], text: &[u8]) -> Option<usize> {
    let loaded = load(alloc, source, script).ok()?;
    let journal = read_journal(alloc, text, &loaded.answers).ok()?;
    if are_same(alloc, &loaded.answers, &journal, &journal)? {
        Some(journal.len())
    } else {
        None
    }
}
