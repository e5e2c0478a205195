//! Drives a ledger (the state of a run, `orc_ledger`), or a book (a ledger whose tokens may be out with workers, `orc_book`), by its calls alone,
//! with no worker, and compares what the calls write, give out, say and refuse with what they have to.
//!
//!     orc_replay                                      writes of the ledger's rows, by families, and of each of the book's, whether they hold
//!     orc_replay ledger PROGRAM SCRIPT JOURNAL        replays a journal, entry by entry, by calls of a ledger, and writes whether its own is the same
//!     orc_replay book PROGRAM SCRIPT JOURNAL          the same by calls of a book
//!     orc_replay book PROGRAM SCRIPT JOURNAL --read   only reads it, and compares it with itself
#![tactic(auto)]

mod book;
mod ledger;
mod stop;
mod texts;

use std::alloc::Global;
use std::{env, fs, io};

// Writes the rows' lines, the ledger's and then the book's. The file `stdout` of this crate has the lines that the gate expects.
fn tell_rows<R: Print>(rt: &R, alloc: Global) -> io::Result<()> {
    ledger::tell_rows(rt, alloc)?;
    book::tell_rows(rt, alloc)
}

// Shows the rows, or replays or reads the journal that the arguments name.
fn main(rt: HostRuntime) -> io::Result<()> {
    let alloc = rt.alloc();
    let words = env::args(&rt)?.collect::<Vec<String>>(alloc)?;
    // Any word behind a book's journal counts as `--read`. With any other words the rows are shown.
    let ([_, kind, source, script, journal] | [_, kind, source, script, journal, _]) =
        words.as_slice() else {
        return tell_rows(&rt, alloc);
    };
    // The name of this program is the first word, so the journal is the fifth.
    let is_read_alone = words.len() > 5;
    let is_of_ledger = kind.as_str() == "ledger" && !is_read_alone;
    if !is_of_ledger && kind.as_str() != "book" {
        return tell_rows(&rt, alloc);
    }
    // The three words name files.
    let source = fs::read(&rt, source.as_str())?;
    let script = fs::read(&rt, script.as_str())?;
    let journal = fs::read(&rt, journal.as_str())?;
    if is_of_ledger {
        ledger::tell_journal(&rt, alloc, &source, &script, &journal)
    } else {
        book::tell_journal(&rt, alloc, &source, &script, &journal, is_read_alone)
    }
}
