//! Drives a book (a ledger whose tokens may be out with workers, `orc_book`) by its calls alone, with no worker: what they write, what they give out,
//! and what they refuse.

mod hand;
mod held;
mod journals;
mod passes;
mod replay;
mod rows;
mod setup;
mod sides;
mod steps;
mod table;

use crate::book::journals::{read_text, replay_text};
use crate::book::rows::show;
use crate::book::table::rows;
use std::alloc::Global;
use std::io;

/// Writes for each row whether a book does what the row shows.
pub(crate) fn tell_rows<R: Print>(rt: &R, alloc: Global) -> io::Result<()> {
    for row in rows() {
        match show(alloc, &row) {
            Some(()) => println!(rt; "holds: {}", row.name)?,
            None => println!(rt; "WRONG: {}", row.name)?,
        }
    }
    Ok(())
}

/// Replays a journal, or only reads it and compares it with itself where `is_read_alone`. `source` and `script` are the texts of the program and of
/// its sites' answers. Writes what has come of it: its entries and the state at its end, or the entry that fails. `read 0` says that a text can't be
/// read or memory was refused, `entry 0` that nothing was replayed.
pub(crate) fn tell_journal<R: Print>(
    rt: &R,
    alloc: Global,
    source: &[u8],
    script: &[u8],
    journal: &[u8],
    is_read_alone: bool,
) -> io::Result<()> {
    if is_read_alone {
        let entries = read_text(alloc, source, script, journal).unwrap_or(0);
        return println!(rt; "read {entries}");
    }
    match replay_text(alloc, source, script, journal) {
        Ok((entries, state)) => println!(rt; "same {entries} {state:?}"),
        Err(stop) => println!(rt; "entry {}: {:?}", stop.at, stop.why),
    }
}
