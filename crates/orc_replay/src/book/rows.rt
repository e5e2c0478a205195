//! Rows: what a row does with a book, and what the book has to answer. None as the result of a function means that something isn't as it has to be;
//! memory that is refused counts as that, too. A *group* is what runs in one right side of a `<x<`, one left side of a `;`, or the whole program. A
//! *pass* stands for one record (a token, a pending call, an inner group) in its group, and the group's *word* counts its passes; an *idle* one names
//! no group, and to *leave* a pass makes it idle. A token is *out* while it is with the replay and not with the book, which keeps one that waits. A
//! row may take a token, and passes that are to be left, into its *hand*. A bind gives a cell (the x of an opened `<x<`) its value and *kills* the
//! groups of its right side: one pass alone wins the bit *killed* of the word. `setup` has the program, the table of sites and the words.

ghost use Rattle.std.specs.Prelude.{◌≡◌, ◌≤◌, true};
ghost use Rattle.orc_rules.specs.declared.limits.TheConstants.{MOST_ENTRIES};

use crate::book::hand::{Call, Hand, Left, acts};
use crate::book::replay::Replay;
use crate::book::setup::Setup;
use crate::book::steps::{goes_on_until_full, makes_moves};
use orc_book::{BookFault, Next};
use orc_graph::Graph;
use orc_journal_text::{read_entry, write_journal};
use orc_ledger::Inputs;
use orc_load::load;
use orc_log::Run;
use orc_rules::answers::Answers;
use orc_rules::entry::Entry;
use orc_rules::limits::MOST_ENTRIES;
use orc_rules::value::Answer;
use orc_word::{Naming, Unnamed};
use std::alloc::Global;
use std::marker::Brand;

/// What a row does with a book, or what the book has to say.
#[derive(Clone, Copy)]
pub(crate) enum Step {
    /// The book does these entries, a line each, and writes exactly these.
    Does(&'static str),
    /// The book has written these entries, a line each, in the steps before: the whole journal is compared in the end.
    Wrote(&'static str),
    /// The book keeps the token with this mark, which waits.
    Keeps(u64),
    /// The token with this mark is out.
    IsOut(u64),
    /// `Book::next` gives this. If that is `Ticked`, the book has made the tick.
    Next(Next),
    /// The logical time is this.
    Now(u64),
    /// The least number of a call that is due now is this; None if none is due.
    Due(Option<u64>),
    /// The call with this number, the answer that the book refuses for it, and the reason.
    Refuses(u64, Answer, BookFault),
    /// The journal has this many entries, cancels not counted.
    Entries(usize),
    /// So many killed groups use a word.
    Dying(usize),
    /// The last bind has cancelled the calls with these numbers.
    Cancelled(&'static [u64]),
    /// Whether the run has halted: once the replay has left all passes that it can, the book closes the program's own group. If it has, this is the
    /// last step, since that closes the run.
    HasEnded(bool),
    /// Takes the token with this mark, which is out, into the hand.
    Takes(u64),
    /// The token in the hand is out again.
    Holds,
    /// The token in the hand has no record any more.
    IsGone,
    /// The book refuses this call for the token in the hand, for this reason. The token comes back with a pass to its group, and nothing more is to be
    /// left.
    Denies(Call, BookFault),
    /// The token in the hand binds. The passes that are to be left then come into the hand, and no token that waits for the cell comes out.
    Binds,
    /// The token in the hand publishes. Its pass comes into the hand, to be left.
    Publishes,
    /// The token in the hand is dropped. Its pass stays in the hand, to be left.
    Drops,
    /// The pass of the token in the hand wins the mark *killed* of its group, outside the book, as another worker's bind would.
    Wins,
    /// The pass of the token in the hand, the only one to the program's own group, is left though the token is there. The book refuses to close the
    /// group as Live, and the token gets another pass.
    LeavesEarly,
    /// A pass that no record has opens word 1, which the book would take next for a group, and comes into the hand.
    NamesNext,
    /// The tokens that wait for this cell come out.
    Wakes(u64),
    /// So many passes in the hand are to be left.
    ToLeave(usize),
    /// The first pass in the hand names the program's own group.
    IsOfRun,
    /// The pass at this place in the hand, from 0, is left, and this comes of it.
    Leaves(usize, Left),
}

/// What a row shows of a book.
#[derive(Clone, Copy)]
pub(crate) enum Shows {
    /// These steps hold, one after another, on one book, and the journal has the lines of the steps `Does` and `Wrote`, and no others.
    Steps(&'static [Step]),
    /// If the token that has waited longest always moves next: the number of entries before a move is refused, the reason, and how many of the lent
    /// passes to the program's group (one, for a fork) remain then.
    MakesMoves(usize, BookFault, usize),
    /// The number of entries that a single token makes before a limit of the engine is reached.
    IsFullAfter(usize),
}

/// A row: a program with a script, and what is done with a book of it.
#[derive(Clone, Copy)]
pub(crate) struct Row {
    /// What the row shows, in the words that `orc_replay` writes.
    pub name: &'static str,
    /// The text of the program.
    pub source: &'static str,
    /// The text of the script, which says how the program's own sites answer; empty if it calls none of those.
    pub script: &'static str,
    /// The most entries of the journal, cancels left out.
    pub limit: usize,
    /// How many words the book has: one for each group at a time.
    pub words: u32,
    /// How many passes there are: one for each record in a group.
    pub passes: u32,
    /// What is done with the book, and what it has to answer.
    pub shows: Shows,
}

/// Some if `holds`, so that `?` ends a row in which something isn't as it has to be.
pub(crate) fn so(holds: bool) -> Option<()> {
    if holds { Some(()) } else { None }
}

/// The book does these entries, a line each, and keeps the tokens that wait then. None if a line is no entry or the book doesn't do as it says.
pub(crate) fn enter_all<P: Run + Naming>(
    setup: &Setup<'_, P>,
    replay: &mut Replay<P>,
    lines: &str,
) -> Option<()> {
    // Lent to `read_entry`, which overwrites it.
    let mut entry = Entry::Tick(0);
    let mut rest = lines.as_bytes();
    // A line has a byte at least, so there are no more lines than bytes.
    for _line in 0..lines.len() {
        if rest.is_empty() {
            break;
        }
        rest = read_entry(rest, setup.inputs.answers, &mut entry)?;
        replay.enter(setup, &entry).ok()?;
    }
    replay.keep_waiting(setup).ok()?;
    so(rest.is_empty())
}

/// The journal of the whole run has these entries, a line each, and no other. The clause asks that the run keeps its journal.
pub(crate) fn has_written<P: Run + Naming>(
    alloc: Global,
    setup: &Setup<'_, P>,
    replay: Replay<P>,
    lines: &str,
) -> Option<()>
    requires { P.keeps ≡ true }
{
    // The first line says that the journal is of the second version, the one with cancels.
    let mut wanted = Vec::from_slice(alloc, b"orc-journal 2\n").ok()?;
    wanted.extend_from_slice(lines.as_bytes()).ok()?;
    let journal = replay.into_ledger().into_journal();
    let mut text = Vec::new(alloc);
    // `is_whole` says that each entry was written; false means that one names a site that isn't in the table.
    let is_whole = write_journal(&journal, setup.inputs.answers, &mut text).ok()?;
    so(is_whole && text.as_slice() == wanted.as_slice())
}

// Whether two answers of `Book::next` are the same one: `Work` (something comes before time goes on), `Ticked` (the book has made a tick) or `Quiet`
// (nothing can come any more); the type `Next` has no `==`.
fn is_next(one: Next, other: Next) -> bool {
    match (one, other) {
        (Next::Work, Next::Work) => true,
        (Next::Ticked, Next::Ticked) => true,
        (Next::Quiet, Next::Quiet) => true,
        _ => false,
    }
}

// Does a step or asks the book. Some if the book does, says or refuses what the step wants. The clause asks that there are two words at least, since
// some rows open word 1.
fn is_so<P: Run + Naming>(
    setup: &Setup<'_, P>,
    replay: &mut Replay<P>,
    hand: &mut Hand<P>,
    step: &Step,
) -> Option<()>
    requires { 2 ≤ P.table.words }
{
    match *step {
        Step::Does(lines) => enter_all(setup, replay, lines),
        // It is compared in the end (`are_so`).
        Step::Wrote(_) => Some(()),
        Step::Keeps(mark) => so(replay.keeps(setup, mark)),
        Step::IsOut(mark) => so(replay.held.is_out(mark)),
        Step::Next(next) => so(is_next(replay.book.next(setup.inputs).ok()?, next)),
        Step::Now(time) => so(replay.book.now() == time),
        // The least number over 0: calls are numbered from 1.
        Step::Due(wanted) => so(replay.book.due_beyond(0) == wanted),
        Step::Refuses(call, answer, fault) => match replay.book.returned(call, answer) {
            Ok(_) => None,
            Err(why) => so(why == fault),
        },
        Step::Entries(entries) => so(replay.book.entries() == entries),
        Step::Dying(groups) => so(replay.book.dying() == groups),
        Step::Cancelled(calls) => so(replay.held.cancelled.as_slice() == calls),
        Step::HasEnded(ended) => so(replay.close_run(setup).ok()? == ended),
        // All others are about the hand.
        _ => acts(setup, replay, hand, step),
    }
}

// All steps hold, one after another, and the journal has the lines of the steps `Does` and `Wrote`, and no others. The clauses ask that the run keeps
// its journal, and that there are two words at least.
fn are_so<P: Run + Naming>(
    alloc: Global,
    setup: &Setup<'_, P>,
    mut replay: Replay<P>,
    steps: &[Step],
) -> Option<()>
    requires keeps { P.keeps ≡ true }
    requires words { 2 ≤ P.table.words }
{
    let mut hand = Hand::new(alloc);
    let mut lines = String::new(alloc);
    for step in steps {
        is_so(setup, &mut replay, &mut hand, step)?;
        if let Step::Does(entries) | Step::Wrote(entries) = step {
            lines.push_str(entries).ok()?;
        }
    }
    has_written(alloc, setup, replay, lines.as_str())
}

// Does with a run that begins what the row shows: Some if all is as it has to be. In contracts `P` stands for the run and its table of words; the
// caller picks it, and the clauses ask that `P` has this graph, these sites, this limit and these words, of which there are two at least, since some
// rows open word 1. `limit` and `count` are those of the row (`count` its number of words).
fn show_named<P: Run + Naming>(
    alloc: Global,
    words: Unnamed,
    graph: &Graph,
    answers: &Answers,
    shows: &Shows,
    limit: usize,
    count: u32,
) -> Option<()>
    requires graph { graph.now ≡ P.listing }
    requires answers { answers.now.sites ≡ P.sites }
    requires limit { (1 ≤ limit) × (limit ≤ MOST_ENTRIES) }
    requires named { limit ≡ P.limit }
    requires keeps { P.keeps ≡ true }
    requires table { words.table.shared.table_id ≡ P.table }
    requires words { words.table.shared.table_id.words ≡ count }
    requires count { 2 ≤ count }
{
    let (groups, supply) = words.named::<P>();
    let inputs = Inputs::new(graph, answers);
    let setup = Setup {
        inputs: &inputs,
        groups: &groups,
    };
    let replay = Replay::<P>::begin(alloc, &setup, supply, count, limit)?;
    match *shows {
        Shows::Steps(steps) => are_so(alloc, &setup, replay, steps),
        Shows::MakesMoves(entries, why, left) => {
            makes_moves(alloc, &setup, replay, entries, why, left)
        }
        Shows::IsFullAfter(entries) => goes_on_until_full(alloc, &setup, replay, entries),
    }
}

/// Some if a book does what a row shows. None if it doesn't, if the row's texts are no program and script, or if memory is refused.
pub(crate) fn show(alloc: Global, row: &Row) -> Option<()> {
    let loaded = load(alloc, row.source.as_bytes(), row.script.as_bytes()).ok()?;
    let graph = Graph::build(alloc, &loaded.program).ok()?;
    let limit = row.limit;
    let count = row.words;
    let passes = row.passes;
    // The ranges that `Unnamed::new` and the ledger require (passes: fewer than 2^31), and the two words of which some rows speak; each row is within
    // them.
    if limit < 1 || limit > MOST_ENTRIES as usize || count < 2 || count > 65_536 {
        return None;
    }
    if passes >= 2_147_483_648 {
        return None;
    }
    let words = Unnamed::new(alloc, count, passes).ok()?;
    let shows = &row.shows;
    show_named::<Brand>(alloc, words, &graph, &loaded.answers, shows, limit, count)
}
