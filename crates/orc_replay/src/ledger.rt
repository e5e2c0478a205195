//! Drives a ledger (the state of a run, `orc_ledger`) by its calls alone, and compares what it writes, says and refuses with what it has to: in
//! families of rows, and in journals of the second version, entry by entry.

mod apart;
mod notes;
mod replay;
mod rows;

use crate::ledger::replay::replay_journal;
use crate::stop::{Stop, UNREAD};
use orc_journal_text::read_journal;
use orc_load::load;
use orc_rules::entry::State;
use std::alloc::Global;
use std::io;

/// Replays a journal's text: has a ledger, the state of a run, do each entry. `source` is the text of the program, `script` that of the answers of
/// its sites. Gives how many entries it has, cancels too, and the state (Halted, Quiet, Running) in which the ledger is at its end. The error for a
/// text that can't be read is a `Stop` at 0; the others are those of `replay_journal`.
pub(crate) fn replay_text(
    alloc: Global,
    source: &[u8],
    script: &[u8],
    text: &[u8],
) -> Result<(usize, State), Stop> {
    let Ok(loaded) = load(alloc, source, script) else {
        return Err(UNREAD);
    };
    let Ok(journal) = read_journal(alloc, text, &loaded.answers) else {
        return Err(UNREAD);
    };
    let state = replay_journal(alloc, &loaded.program, &loaded.answers, &journal)?;
    Ok((journal.len(), state))
}

// Writes a line on one family of rows (tests of one kind), which `what` describes: whether all its rows hold.
fn tell<R: Print>(rt: &R, what: &str, holds: bool) -> io::Result<()> {
    let word = if holds { "holds" } else { "WRONG" };
    // For instance `holds: moves of marks come first`.
    println!(rt; "{word}: {what}")
}

/// Writes a line for each family of rows.
pub(crate) fn tell_rows<R: Print>(rt: &R, alloc: Global) -> io::Result<()> {
    // Each family: what its line says, and whether its rows hold.
    let told = [
        (
            "tokens wait, and cells are lost",
            rows::hold(alloc, rows::WAITS.as_slice()),
        ),
        (
            "calls are answered when they are due",
            rows::hold(alloc, rows::CALLS.as_slice()),
        ),
        (
            "limits refuse the entry past them",
            rows::limits_refuse(alloc),
        ),
        ("moves of marks come first", rows::marks_move_first(alloc)),
        ("what was written is replayed", rows::are_replayed(alloc)),
        (
            "what is run apart stands in its place",
            apart::stands_in_its_place(alloc),
        ),
        (
            "a call opens cells and comes to a value or to nothing, wherever it stands",
            apart::stands_anywhere(alloc),
        ),
        (
            "a part whose journal isn't kept counts and publishes",
            apart::counts_and_publishes(alloc),
        ),
    ];
    for (what, holds) in told.iter() {
        tell(rt, what, *holds)?;
    }
    Ok(())
}

/// Replays a journal, and writes what has come of it: its entries and the state at its end, or the entry that fails. `entry 0` says that nothing was
/// replayed. `source` and `script` are the texts of the program and of its sites' answers.
pub(crate) fn tell_journal<R: Print>(
    rt: &R,
    alloc: Global,
    source: &[u8],
    script: &[u8],
    journal: &[u8],
) -> io::Result<()> {
    match replay_text(alloc, source, script, journal) {
        Ok((entries, state)) => println!(rt; "same {entries} {state:?}"),
        Err(stop) => println!(rt; "entry {}: {:?}", stop.at, stop.why),
    }
}
